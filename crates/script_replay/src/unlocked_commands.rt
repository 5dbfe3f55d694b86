//! The commands that the CPU carries out without the lock, and their steps, which the machine's watch takes by value.

ghost use Rattle.std.specs.Prelude.{◌≡◌, ◌<◌, ◌^◌, ◌∷◌, [], IfNone, IfSome, MatchBool, false, if◌then◌else◌, ℕ};
ghost use Rattle.step_rules.specs.After.{cpu_makes};
ghost use Rattle.cpu_part.specs.Calls.{FastAnswers};
ghost use Rattle.frame_word.specs.declared.answers.Put.TheVariants.{Left};
ghost use Rattle.reply_texts.specs.declared.steps.UnlockedAnswer.TheVariants as unlocked;
ghost use Rattle.script_lines.specs.declared.line.Command.TheVariants as command;
ghost use Rattle.step_rules.specs.declared.step.Action.TheVariants as step;
ghost use Rattle.step_rules.specs.declared.step.Answer.TheVariants as step_answer;
ghost use Rattle.mem_system.specs.Visits.{locked_state};
ghost use Rattle.script_replay.specs.Answers.{AnswersUnlocked, CanNotList, Gains, ListsAgain, MakesUnlocked, NeedsLock};
ghost use Rattle.script_replay.specs.Answers.{OnlySaw, OnlyWatched, changes_in, steps_unlocked, steps_tried};
ghost use Rattle.script_replay.specs.Commands.{is_tried};
ghost use Rattle.script_replay.specs.Ranges.{CommandInRange};

use crate::commands::is_tried;
use cpu_part::{BootName, Dropped, Fast, Tables};
use frame_word::{Get, Put};
use group_tree::fault::Fault;
use group_tree::group::GroupId;
use mem_system::{Cpu, Locked};
use reply_texts::UnlockedAnswer;
use script_lines::line::Command;
use step_rules::step::{Action, Answer};

// Answers a command without the lock, if that is possible. The zone and the CPU meet before and after it: both see the
// same of the run then, so that its steps come in the order of the lines.
#[inline(always)]
pub(crate) fn try_in_order<N: BootName>(
    locked: &mut Locked<N>,
    tables: &Tables<N>,
    cpu: &mut Cpu<N>,
    command: &Command<'_>,
) -> Option<UnlockedAnswer>
    requires in_range { CommandInRange N.table.frames command.now }
    ensures answered { IfSome result (AnswersUnlocked command.now cpu.old cpu.new) }
    ensures needs_lock { IfNone result (NeedsLock command.now cpu.old cpu.new) }
    ensures only_saw { OnlySaw N.table [] locked.old locked.new }
    ensures gains { Gains (steps_tried cpu.old.part.number command.now result)
        (locked_state locked.old cpu.old) (locked_state locked.new cpu.new) }
    ensures stays { is_tried command.now ≡ false → locked_state locked.new cpu.new ≡ locked_state locked.old cpu.old }
{
    if !is_tried(command) {
        return None;
    }
    let _number = cpu.number();
    locked.meet(tables, cpu);
    let said = try_unlocked(tables, cpu, command);
    locked.meet(tables, cpu);
    said
}

// Takes a frame of the CPU's list for the group, if that is possible. The zone and the CPU meet before and after it.
#[inline(always)]
pub(crate) fn alloc_in_order<N: BootName>(
    locked: &mut Locked<N>,
    tables: &Tables<N>,
    cpu: &mut Cpu<N>,
    group: GroupId,
) -> Fast
    ensures answer { FastAnswers group result cpu.old.last cpu.old.part cpu.new.last cpu.new.part }
    ensures only_saw { OnlySaw N.table [] locked.old locked.new }
    ensures gains { Gains (steps_unlocked cpu.old.part.number (command.Fast group) (unlocked.Fast result))
        (locked_state locked.old cpu.old) (locked_state locked.new cpu.new) }
{
    let _number = cpu.number();
    locked.meet(tables, cpu);
    let answer = cpu.alloc_fast(tables, group.number());
    locked.meet(tables, cpu);
    answer
}

// Answers a command without the lock, if that is possible. It is inlined, so that a caller that names a Get or a Put
// has its steps alone.
#[inline(always)]
pub(crate) fn try_unlocked<N: BootName>(
    tables: &Tables<N>,
    cpu: &mut Cpu<N>,
    command: &Command<'_>,
) -> Option<UnlockedAnswer>
    requires in_range { CommandInRange N.table.frames command.now }
    ensures answered { IfSome result (AnswersUnlocked command.now cpu.old cpu.new) }
    ensures needs_lock { IfNone result (NeedsLock command.now cpu.old cpu.new) }
    ensures run { MakesUnlocked cpu.old.part.number (steps_tried cpu.old.part.number command.now result)
        cpu.old.past cpu.new.past }
    ensures stays { is_tried command.now ≡ false → cpu.new ≡ cpu.old }
{
    match *command {
        Command::Fast { group } => Some(UnlockedAnswer::Fast(cpu.alloc_fast(tables, group))),
        Command::Get { frame } => Some(pin(tables, cpu, frame)),
        Command::Put { frame } => Some(unpin(tables, cpu, frame)),
        Command::Release { frame } => {
            if try_relist(tables, cpu, frame) {
                Some(UnlockedAnswer::Listed)
            } else {
                None
            }
        }
        _ => None,
    }
}

// Pins the frame.
#[inline(always)]
fn pin<N: BootName>(tables: &Tables<N>, cpu: &mut Cpu<N>, frame_number: u32) -> UnlockedAnswer
    requires in_zone { frame_number < N.table.frames }
    ensures answer { AnswersUnlocked (command.Get frame_number) cpu.old cpu.new result }
    ensures run { MakesUnlocked cpu.old.part.number (steps_unlocked cpu.old.part.number (command.Get frame_number) result)
        cpu.old.past cpu.new.past }
{
    let frame = tables.words.frame(frame_number).unwrap();
    match cpu.get(tables, frame) {
        Ok(got) => UnlockedAnswer::Got(got),
        Err(fault) => UnlockedAnswer::Refused(fault),
    }
}

// Puts a pin of the frame. The CPU may have none on it.
#[inline(always)]
fn unpin<N: BootName>(tables: &Tables<N>, cpu: &mut Cpu<N>, frame_number: u32) -> UnlockedAnswer
    requires in_zone { frame_number < N.table.frames }
    ensures answer { AnswersUnlocked (command.Put frame_number) cpu.old cpu.new result }
    ensures run { MakesUnlocked cpu.old.part.number (steps_unlocked cpu.old.part.number (command.Put frame_number) result)
        cpu.old.past cpu.new.past }
{
    let frame = tables.words.frame(frame_number).unwrap();
    if !cpu.has_pin(frame) {
        return UnlockedAnswer::Refused(Fault::NotPinned);
    }
    UnlockedAnswer::Put(cpu.put(tables, frame))
}

// Lists the frame again, if it is fresh at the CPU and its page can be credited. Returns whether it did.
fn try_relist<N: BootName>(tables: &Tables<N>, cpu: &mut Cpu<N>, frame_number: u32) -> bool
    requires in_zone { frame_number < N.table.frames }
    ensures listed { MatchBool result (ListsAgain frame_number cpu.old cpu.new)
        (CanNotList frame_number cpu.old cpu.new) }
    ensures run { MakesUnlocked cpu.old.part.number
        (if result then steps_unlocked cpu.old.part.number (command.Release frame_number) unlocked.Listed else [])
        cpu.old.past cpu.new.past }
{
    let frame = tables.words.frame(frame_number).unwrap();
    if !cpu.has_fresh(frame) {
        return false;
    }
    match cpu.drop_fresh(tables, frame) {
        Dropped::Listed => true,
        Dropped::NeedVisit => false,
    }
}

// The watch takes the step by which the CPU paid for the front frame of its list.
#[inline(always)]
#[tactic(auto, using(crate::proofs::Taking::unwatched))]
pub(crate) fn watch_paid<N: BootName>(locked: &mut Locked<N>, cpu: u32, group: GroupId)
    ensures { OnlyWatched (cpu_makes cpu (step.Consume group) step_answer.Took ∷ []) locked.old locked.new }
{
    if locked.watch().is_on() {
        locked.take_step(cpu, Action::Consume { group }, Answer::Took);
    }
}

// The watch takes the step of this answer, if one was made that changes something. It is asked first whether it is on,
// because an action has room for a path, and building one for each line costs.
#[inline(always)]
#[tactic(auto, using(crate::proofs::Taking::unwatched))]
pub(crate) fn watch_unlocked<N: BootName>(
    locked: &mut Locked<N>,
    cpu: u32,
    command: &Command<'_>,
    said: &UnlockedAnswer,
)
    requires in_range { CommandInRange N.table.frames command.now }
    requires few { (left : ℕ) → said.now ≡ unlocked.Put (Left left) → left < 2 ^ 32 }
    ensures { OnlyWatched (changes_in (steps_unlocked cpu command.now said.now)) locked.old locked.new }
{
    if !locked.watch().is_on() {
        return;
    }
    match *command {
        Command::Fast { group } => match *said {
            UnlockedAnswer::Fast(Fast::Got(_)) => {
                watch_paid(locked, cpu, GroupId::of(group).unwrap());
            }
            _ => {}
        },
        Command::Get { frame } => match *said {
            UnlockedAnswer::Got(Get::Held) => {
                locked.take_step(cpu, Action::Get { frame }, Answer::Held);
            }
            _ => {}
        },
        Command::Put { frame } => match *said {
            UnlockedAnswer::Put(Put::Left(left)) => {
                locked.take_step(cpu, Action::Put { frame }, Answer::Left(left as u32));
            }
            UnlockedAnswer::Put(Put::Last) => {
                locked.take_step(cpu, Action::Put { frame }, Answer::Last);
            }
            _ => {}
        },
        Command::Release { frame } => match *said {
            UnlockedAnswer::Listed => {
                locked.take_step(cpu, Action::Credit { frame }, Answer::Stocked);
            }
            _ => {}
        },
        _ => {}
    }
}
