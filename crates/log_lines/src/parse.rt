//! Parses a line.

ghost use Rattle.std.specs.Prelude.{◌≡◌, ℕ, List, MatchOption};
ghost use Rattle.log_lines.specs.declared.line.LogLine.{LogLine};
ghost use Rattle.log_lines.specs.Line.{IsLogLineText, is_log_comment};
ghost use Rattle.log_lines.specs.Log.{IsFirstBadLogLine, IsLog, WholeLog};
ghost use Rattle.log_lines.specs.Reading.{ParsesTo, action_at, answer_at, arguments_at, parsed_entry, line_of};
ghost use Rattle.log_lines.specs.Reading.{results_at, parsed_groups, parsed_zone};

use crate::line::LogLine;
use crate::name::{ActionName, AnswerName, action_named, answer_named};
use crate::word::Words;
use step_rules::step::{Action, Answer, Step};
use zone_blocks::block::Block;
use zone_blocks::choices::Choices;
use zone_blocks::config::Config;

/// The most bytes of a line, without its line feed.
pub const MAX_LINE: usize = 1_024;

/// The line that has this text, which has no line feed. None exactly if no line has it. That includes a text of more
/// than 1,024 bytes, and a number with a sign, with a leading zero or out of its range.
pub fn parse_line(text: &[u8]) -> Option<LogLine>
    ensures { MatchOption result ((line : LogLine) → ¬ IsLogLineText text.now line)
        (λ line. IsLogLineText text.now line) }
{
    line_of(text)
}

/// A text is that of at most one line: no two steps and no two answers are written alike.
pub fn one_line()
    ensures { (text : List ℕ) (one other : LogLine) → IsLogLineText text one → IsLogLineText text other → one ≡ other }
{}

/// A text is that of at most one zone and one run.
pub fn one_run()
    ensures { (text : List ℕ) (one other : WholeLog) → IsLog text one → IsLog text other → one ≡ other }
{}

/// A text with a bad line is the text of no log.
pub fn bad_line_is_no_log()
    ensures { (text : List ℕ) (n : ℕ) (log : WholeLog) → IsFirstBadLogLine text n → ¬ IsLog text log }
{}

// The line that has this text.
#[tactic(auto, unfolding(crate::specs::Reading::line_of))]
fn line_of(text: &[u8]) -> Option<LogLine>
    ensures { result ≡ line_of text.now }
{
    if text.len() > MAX_LINE {
        return None;
    }
    if is_skipped(text) {
        return Some(LogLine::Skipped);
    }
    let mut words = Words::of(text);
    if words.word()? == b"zone".as_slice() {
        return parse_zone(words);
    }
    let (step, answer) = parse_entry(Words::of(text))?;
    Some(LogLine::Step { step, answer })
}

fn is_skipped(text: &[u8]) -> bool
    ensures { result ≡ is_log_comment text.now }
{
    match text.first() {
        None => true,
        Some(first) => *first == b'#',
    }
}

#[tactic(auto, unfolding(crate::specs::Reading::parsed_zone))]
fn parse_zone(mut words: Words<'_>) -> Option<LogLine>
    ensures { result ≡ parsed_zone words.entry }
{
    let frames = words.number()?;
    let cpus = words.number()?;
    let groups = parse_groups(words)?;
    if 1 <= frames && frames <= Config::MAX_FRAMES && 1 <= cpus && cpus <= Config::MAX_CPUS {
        Some(LogLine::Zone {
            frames,
            cpus,
            groups,
        })
    } else {
        None
    }
}

// How many groups the zone has room for, by the words after its CPUs. The number of a boot that chooses none isn't
// written.
#[tactic(auto, unfolding(crate::specs::Reading::parsed_groups, crate::specs::Reading::groups_named))]
fn parse_groups(mut words: Words<'_>) -> Option<u32>
    ensures { result ≡ parsed_groups words.entry }
{
    if words.is_empty() {
        return Some(Choices::NONE.groups);
    }
    if words.word()? != b"groups".as_slice() {
        return None;
    }
    let groups = words.number()?;
    if !words.is_empty() || groups == Choices::NONE.groups {
        return None;
    }
    if 1 <= groups && groups <= Choices::MAX_GROUPS {
        Some(groups)
    } else {
        None
    }
}

#[tactic(auto, unfolding(crate::specs::Reading::parsed_entry))]
fn parse_entry(mut words: Words<'_>) -> Option<(Step, Answer)>
    ensures { result ≡ parsed_entry words.entry }
{
    let seat = words.number()?;
    let action = next_action(&mut words)?;
    if words.word()? != b">".as_slice() {
        return None;
    }
    let answer = next_answer(&mut words)?;
    if !words.is_empty() {
        return None;
    }
    Some((Step { seat, action }, answer))
}

#[tactic(auto, unfolding(crate::specs::Reading::action_at))]
fn next_action(words: &mut Words<'_>) -> Option<Action>
    ensures { ParsesTo (λ action. (action, words.new)) result (action_at words.old) }
{
    let name = action_named(words.word()?)?;
    next_arguments(name, words)
}

// The action of this name, with its arguments.
#[tactic(auto, unfolding(crate::specs::Reading::arguments_at))]
fn next_arguments(name: ActionName, words: &mut Words<'_>) -> Option<Action>
    ensures { ParsesTo (λ action. (action, words.new)) result (arguments_at name words.old) }
{
    match name {
        ActionName::Lock => Some(Action::Lock),
        ActionName::Unlock => Some(Action::Unlock),
        ActionName::Number(name) => Some(name.with(words.number()?)),
        ActionName::TwoNumbers(name) => {
            let frame = words.number()?;
            Some(name.with(frame, words.number()?))
        }
        ActionName::Group(name) => Some(name.with(words.group()?)),
        ActionName::Pages(name) => {
            let group = words.group()?;
            Some(name.with(group, words.number()?))
        }
        ActionName::Fill => {
            let cpu = words.number()?;
            let group = words.group()?;
            let pages = words.number()?;
            Some(Action::Fill { cpu, group, pages })
        }
        ActionName::Place => {
            let group = words.group()?;
            let order = words.order()?;
            Some(Action::PlaceBlock { group, order })
        }
        ActionName::Limit => {
            let group = words.group()?;
            let limit = words.limit()?;
            Some(Action::SetMax { group, limit })
        }
        ActionName::Flag => {
            let group = words.group()?;
            let oom_group = words.flag()?;
            Some(Action::SetFlag { group, oom_group })
        }
        ActionName::Make => Some(Action::Make {
            path: words.path()?,
        }),
    }
}

#[tactic(auto, unfolding(crate::specs::Reading::answer_at))]
fn next_answer(words: &mut Words<'_>) -> Option<Answer>
    ensures { ParsesTo (λ answer. (answer, words.new)) result (answer_at words.old) }
{
    let name = answer_named(words.word()?)?;
    next_results(name, words)
}

// The answer of this name, with its arguments.
#[tactic(auto, unfolding(crate::specs::Reading::results_at))]
fn next_results(name: AnswerName, words: &mut Words<'_>) -> Option<Answer>
    ensures { ParsesTo (λ answer. (answer, words.new)) result (results_at name words.old) }
{
    match name {
        AnswerName::Alone(answer) => Some(answer),
        AnswerName::Left => Some(Answer::Left(words.number()?)),
        AnswerName::Pages => Some(Answer::Pages(u128::from(words.wide()?))),
        AnswerName::Over => Some(Answer::Over(words.group()?)),
        AnswerName::Placed => {
            let at = words.number()?;
            let order = words.order()?;
            Some(Answer::Placed(Block { at, order }))
        }
        AnswerName::Number => Some(Answer::Number(words.group()?)),
    }
}
