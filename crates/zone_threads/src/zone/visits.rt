//! The calls that are served under the lock.

ghost use Rattle.std.specs.Prelude.{◌≡◌, ◌↔◌, IfNone, IfSome, IsSome, IsTrue, MatchResult};
ghost use Rattle.mem_system.specs.{IsOfZone, NamesFrameBelow, ServesText};
ghost use Rattle.zone_threads.specs.Calling.{Calls, IfMissing, AnswersRead, ServesAct};
ghost use Rattle.zone_threads.specs.Homes.{ServesBehind, UnderLock};
ghost use Rattle.zone_threads.specs.Shown.{ReadsText};
ghost use Rattle.zone_threads.specs.declared.calls.Call.TheVariants.{AllocPinned, ForGroup, ReadPages, Settle, Visit};

use crate::calls::{CallAnswer, GroupAct, GroupPages, ReadAnswer, ReadCall};
use crate::home::Home;
use crate::served::Missed;
use crate::texts::{TextAnswer, TextCall};
use cpu_part::{BootName, MAX_PINS};
use group_tree::fault::Fault;
use mem_system::{Outcome, TextCommand};
use std::alloc::Global;
use zone_blocks::order::Order;

impl<N: BootName> Home<N> {
    /// Serves a command under the lock.
    pub fn visit(&mut self, command: &TextCommand<'_>) -> CallAnswer
        requires some { IsSome self.old.cpu }
        ensures { Calls N.table (Visit command.now) self.old self.new result }
    {
        if !is_of_zone(command, self.zone.tables.words.frames()) {
            return CallAnswer::NoFrame;
        }
        match self.serve(command) {
            Some(outcome) => CallAnswer::Served(outcome),
            None => CallAnswer::Busy,
        }
    }

    /// Does this for the group of this number under the lock.
    pub fn act(&mut self, group: u32, act: GroupAct) -> CallAnswer
        requires some { IsSome self.old.cpu }
        ensures { Calls N.table (ForGroup group act) self.old self.new result }
    {
        match self.serve_act(group, act) {
            Ok(outcome) => CallAnswer::Served(outcome),
            Err(Missed::Busy) => CallAnswer::Busy,
            Err(Missed::NoGroup) => CallAnswer::NoGroup,
        }
    }

    /// Allocates a block under the lock, and pins it there. Whether the CPU may have one more pin is looked at first,
    /// then the order, and then the lock is tried.
    pub fn alloc_pinned(&mut self, group: u32, order: u32) -> CallAnswer
        requires some { IsSome self.old.cpu }
        ensures { Calls N.table (AllocPinned group order) self.old self.new result }
    {
        let zone = &*self.zone;
        let Some(cpu) = &mut self.cpu else {
            unreachable!()
        };
        if cpu.back_len() + cpu.pin_count() == MAX_PINS {
            return CallAnswer::Refused(Fault::PinsFull);
        }
        if order == 0 || order > Order::GREATEST {
            return CallAnswer::Refused(Fault::BadOrder);
        }
        let Some((mut behind, loan)) = zone.take() else {
            return CallAnswer::Busy;
        };
        let answer = behind.alloc_pinned(&zone.tables, cpu, group, order);
        self.change = Some(zone.lock.put_back(behind, loan));
        answer
    }

    /// Reads a number of pages of the group of this number under the lock.
    pub fn read_pages(&mut self, group: u32, which: GroupPages) -> CallAnswer
        requires some { IsSome self.old.cpu }
        ensures { Calls N.table (ReadPages group which) self.old self.new result }
    {
        let zone = &*self.zone;
        let Some(cpu) = &mut self.cpu else {
            unreachable!()
        };
        let Some((mut behind, loan)) = zone.take() else {
            return CallAnswer::Busy;
        };
        let answer = behind.read_pages(&zone.tables, cpu, group, which);
        self.change = Some(zone.lock.put_back(behind, loan));
        answer
    }

    /// Settles the CPU under the lock.
    pub fn settle(&mut self) -> CallAnswer
        requires some { IsSome self.old.cpu }
        ensures { Calls N.table Settle self.old self.new result }
    {
        let zone = &*self.zone;
        let Some(cpu) = &mut self.cpu else {
            unreachable!()
        };
        let Some((mut behind, loan)) = zone.take() else {
            return CallAnswer::Busy;
        };
        behind.settle(&zone.tables, cpu);
        self.change = Some(zone.lock.put_back(behind, loan));
        CallAnswer::Settled
    }

    /// Reads a file of a group under the lock, with its text.
    pub fn read(&mut self, asked: &ReadCall<'_>) -> ReadAnswer
        requires some { IsSome self.old.cpu }
        ensures { AnswersRead N.table asked.now self.old self.new result }
    {
        let zone = &*self.zone;
        let Some(cpu) = &mut self.cpu else {
            unreachable!()
        };
        let Some((mut behind, loan)) = zone.take() else {
            return ReadAnswer::Busy;
        };
        let answer = behind.read(&zone.tables, cpu, asked);
        self.change = Some(zone.lock.put_back(behind, loan));
        answer
    }

    /// Settles the CPU, and returns a text, under the lock; `None` if another thread has it.
    pub fn text(&mut self, alloc: Global, asked: TextCall) -> Option<TextAnswer>
        requires some { IsSome self.old.cpu }
        ensures shown { IfSome result (λ answer. ReadsText N.table asked answer self.old self.new) }
        ensures busy { IfNone result (self.new ≡ self.old) }
    {
        let zone = &*self.zone;
        let Some(cpu) = &mut self.cpu else {
            unreachable!()
        };
        let (mut behind, loan) = zone.take()?;
        let answer = behind.text(alloc, &zone.tables, cpu, asked);
        self.change = Some(zone.lock.put_back(behind, loan));
        Some(answer)
    }

    // Serves a command under the lock; `None` if another thread has it.
    pub(crate) fn serve(&mut self, command: &TextCommand<'_>) -> Option<Outcome>
        requires some { IsSome self.old.cpu }
        requires of_zone { IsOfZone N.table command.now }
        ensures served { IfSome result (λ outcome.
            UnderLock (ServesBehind N.table (ServesText N.table command.now outcome)) self.old self.new) }
        ensures busy { IfNone result (self.new ≡ self.old) }
    {
        let zone = &*self.zone;
        let Some(cpu) = &mut self.cpu else {
            unreachable!()
        };
        let (mut behind, loan) = zone.take()?;
        let outcome = behind.serve(&zone.tables, cpu, command);
        self.change = Some(zone.lock.put_back(behind, loan));
        Some(outcome)
    }

    // Does this for the group of this number under the lock.
    #[inline(always)]
    pub(crate) fn serve_act(&mut self, group: u32, act: GroupAct) -> Result<Outcome, Missed>
        requires some { IsSome self.old.cpu }
        ensures { MatchResult result
            (λ outcome. UnderLock (ServesBehind N.table (ServesAct N.table group act outcome)) self.old self.new)
            (λ missed. IfMissing N.table group missed self.old self.new) }
    {
        let zone = &*self.zone;
        let Some(cpu) = &mut self.cpu else {
            unreachable!()
        };
        let Some((mut behind, loan)) = zone.take() else {
            return Err(Missed::Busy);
        };
        let served = behind.serve_act(&zone.tables, cpu, group, act);
        self.change = Some(zone.lock.put_back(behind, loan));
        let Some(outcome) = served else {
            return Err(Missed::NoGroup);
        };
        Ok(outcome)
    }
}

// Whether each frame that the command names is one of so many.
fn is_of_zone(command: &TextCommand<'_>, frames: u32) -> bool
    ensures { IsTrue result ↔ NamesFrameBelow frames command.now }
{
    match *command {
        TextCommand::Owner { frame } => frame < frames,
        TextCommand::Touch { frame } => frame < frames,
        TextCommand::Dirty { frame } => frame < frames,
        TextCommand::Clean { frame } => frame < frames,
        TextCommand::Release { frame } => frame < frames,
        _ => true,
    }
}
