//! Commands as texts give them, and what they stand for.

ghost use Rattle.std.specs.Prelude.{◌≡◌, IfErr, IfOk, MatchResult, Some};
ghost use Rattle.group_tree.specs.Groups.{number_at};
ghost use Rattle.mem_system.specs.TextCommands.{HasNoFile, HasNoGroupAt, IsFileOf, StandsFor, StandsForNone};

use crate::command::LockedCommand;
use crate::setting::read_setting;
use control_files::file::{File, file_named};
use group_charge::charges::Charges;
use group_tree::fault::Fault;
use group_tree::group::GroupId;

/// A command that names groups by their paths, files by their names and values by their texts. Each may be any bytes.
#[derive(Clone, Copy, PartialEq, Eq)]
pub enum TextCommand<'a> {
    /// Makes the group of this path.
    Mkdir {
        path: &'a [u8],
    },
    /// Removes the group of this path.
    Rmdir {
        path: &'a [u8],
    },
    /// Writes a value to a file of the group of this path.
    Write {
        path: &'a [u8],
        file: &'a [u8],
        value: &'a [u8],
    },
    /// Reads the text of a file of the group of this path.
    Read {
        path: &'a [u8],
        file: &'a [u8],
    },
    /// Settles the CPU, and does nothing else.
    Settle,
    /// Reports the place of the frame of this number.
    Owner {
        frame: u32,
    },
    /// Notes that the kept unit that this frame heads was used.
    Touch {
        frame: u32,
    },
    /// Notes that the pages of the kept unit that this frame heads are dirty.
    Dirty {
        frame: u32,
    },
    /// Notes that the pages of the kept unit that this frame heads are clean.
    Clean {
        frame: u32,
    },
    /// Releases the kept unit that this frame heads.
    Release {
        frame: u32,
    },
    /// Allocates a block of this order for the group of this path; order 0 is a single frame.
    Alloc {
        path: &'a [u8],
        order: u32,
    },
}

// The group of the path.
fn find_group(charges: &Charges, path: &[u8]) -> Result<GroupId, Fault>
    ensures found { IfOk result (λ group. number_at charges.now.groups path.now ≡ Some group) }
    ensures none { IfErr result (HasNoGroupAt charges.now.groups path.now) }
{
    match charges.tree().find(path) {
        Some(group) => Ok(group),
        None => Err(Fault::NoGroup),
    }
}

// The group of the path and its file of this name.
fn find_file(charges: &Charges, path: &[u8], name: &[u8]) -> Result<(GroupId, File), Fault>
    ensures found { IfOk result (λ found. IsFileOf charges.now.groups path.now name.now found.0 found.1) }
    ensures none { IfErr result (HasNoFile charges.now.groups path.now name.now) }
{
    let Some(group) = charges.tree().find(path) else {
        return Err(Fault::NoGroup);
    };
    match file_named(name) {
        Some(file) if group != GroupId::root() => Ok((group, file)),
        _ => Err(Fault::NoFile),
    }
}

impl<'a> TextCommand<'a> {
    /// The command that this one stands for, by the groups as they are. Refused for the first cause that holds: no group
    /// has the path (`NoGroup`), it has no file of this name (`NoFile`), the file can't be written (`ReadOnly`), or the
    /// value is malformed or too great (`BadLimit`, `BadNumber`).
    #[inline(always)]
    pub fn resolve(&self, charges: &Charges) -> Result<LockedCommand<'a>, Fault>
        ensures { MatchResult result (StandsFor charges.now.groups self.now)
            (StandsForNone charges.now.groups self.now) }
    {
        match *self {
            TextCommand::Mkdir { path } => Ok(LockedCommand::Mkdir { path }),
            TextCommand::Rmdir { path } => {
                let group = find_group(charges, path)?;
                Ok(LockedCommand::Rmdir { group })
            }
            TextCommand::Write { path, file, value } => {
                let (group, file) = find_file(charges, path, file)?;
                let setting = read_setting(file, value)?;
                Ok(LockedCommand::Write { group, setting })
            }
            TextCommand::Read { path, file } => {
                let (group, file) = find_file(charges, path, file)?;
                Ok(LockedCommand::Read { group, file })
            }
            TextCommand::Settle => Ok(LockedCommand::Settle),
            TextCommand::Owner { frame } => Ok(LockedCommand::Owner { frame }),
            TextCommand::Touch { frame } => Ok(LockedCommand::Touch { frame }),
            TextCommand::Dirty { frame } => Ok(LockedCommand::Dirty { frame }),
            TextCommand::Clean { frame } => Ok(LockedCommand::Clean { frame }),
            TextCommand::Release { frame } => Ok(LockedCommand::Release { frame }),
            TextCommand::Alloc { path, order } => {
                let group = find_group(charges, path)?;
                Ok(LockedCommand::Alloc { group, order })
            }
        }
    }
}
