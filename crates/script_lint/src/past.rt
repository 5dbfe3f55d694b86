//! What the lines before a line say of groups.

ghost use Rattle.std.specs.Prelude.{◌≡◌, ◌∷◌, ◌++◌, ◌||◌, [], List, OnOk, ℕ};
ghost use Rattle.script_lint.specs.Pasts.{IsMissing, KnowsPast, has_path, lacks_group, makes};
ghost use Rattle.script_lint.specs.Refusals.{IsJudged};

use crate::cause::word_behind;
use crate::refusal::{Refusal, is_root};
use script_lines::line::Command;
use script_lines::script::is_go;
use std::alloc::{AllocError, Global};
use std::collections::HashSet;

/// What the lines before a line say of groups.
#[derive(Drop)]
pub(crate) struct Past<'a> {
    // The paths that they make.
    made: HashSet<&'a [u8]>,
    // Whether one is `go`.
    had_go: bool,
}

impl<'a> Past<'a> {
    // No lines.
    pub(crate) fn new(alloc: Global) -> Past<'a>
        ensures { KnowsPast result [] }
    {
        Past {
            made: HashSet::new(alloc),
            had_go: false,
        }
    }

    // One line more.
    pub(crate) fn add(&mut self, text: &'a [u8]) -> Result<(), AllocError>
        ensures { OnOk result ((texts : List (List ℕ)) → KnowsPast self.old texts
            → KnowsPast self.new (texts ++ text.entry.now ∷ [])) }
    {
        add_made(text, &mut self.made)?;
        self.had_go |= is_go(text);
        Ok(())
    }

    // Whether no group has the path, which isn't the root's: no line makes it. After a `go` the CPUs' lines have no
    // order, so nothing is said.
    fn lacks_group(&self, path: &[u8]) -> bool
        ensures { (texts : List (List ℕ)) → KnowsPast self.now texts → result ≡ lacks_group texts path.now }
    {
        !self.had_go && !is_root(path) && !self.made.contains(path)
    }

    // Why the command is refused after these lines, if they don't make the group that it needs.
    pub(crate) fn missing_group(&self, command: &Command<'_>) -> Option<Refusal>
        ensures { (texts : List (List ℕ)) → KnowsPast self.now texts → IsJudged (IsMissing texts command.now) result }
    {
        match command {
            Command::Rmdir { path }
            | Command::Units { path }
            | Command::Alloc { path, .. }
            | Command::Read { path, .. }
            | Command::Write { path, .. } => self.lacks_group(path).then_some(Refusal::NeverMade),
            _ => None,
        }
    }
}

// Adds the path of the group that the line makes, if it makes one.
fn add_made<'a>(text: &'a [u8], made: &mut HashSet<&'a [u8]>) -> Result<(), AllocError>
    ensures { OnOk result ((path : List ℕ) → has_path made.new path
        ≡ (has_path made.old path || makes path text.entry.now)) }
{
    if word_behind(1, text) == b"mkdir".as_slice() {
        made.insert(word_behind(2, text))?;
    }
    Ok(())
}
