//! The calls that take no lock, or only if the CPU's list and stock can't serve. Nothing here has a way to the lock's cell.

ghost use Rattle.std.specs.Prelude.{IfNone, IfSome, IsSome, MatchBool};
ghost use Rattle.cpu_part.specs.declared.answers.Dropped.TheVariants.{Listed};
ghost use Rattle.cpu_part.specs.declared.answers.Fast.TheVariants.{Got};
ghost use Rattle.zone_threads.specs.Calling.{AllocsFast, Calls, CallsGet, CallsPut, DropsFast, MissesDrop, MissesFast};
ghost use Rattle.zone_threads.specs.declared.calls.Call.TheVariants as call;

use crate::calls::{CallAnswer, GroupAct};
use crate::home::Home;
use crate::served::Missed;
use cpu_part::{BootName, Dropped, Fast, Tables};
use frame_word::Frame;
use group_tree::fault::Fault;
use mem_system::{Cpu, TextCommand};

impl<N: BootName> Home<N> {
    /// Takes a frame of the CPU's list, paid from its stock; else allocates one under the lock.
    #[inline(always)]
    pub fn alloc_frame(&mut self, group: u32) -> CallAnswer
        requires some { IsSome self.old.cpu }
        ensures { Calls N.table (call.AllocFrame group) self.old self.new result }
    {
        let zone = &*self.zone;
        if group >= zone.sizes.choices.groups {
            return CallAnswer::NoGroup;
        }
        let Some(cpu) = &mut self.cpu else {
            unreachable!()
        };
        if let Some(frame) = take_listed(&zone.tables, cpu, group) {
            return CallAnswer::Taken(frame);
        }
        match self.serve_act(group, GroupAct::Alloc(0)) {
            Ok(outcome) => CallAnswer::Served(outcome),
            Err(Missed::Busy) => CallAnswer::Busy,
            Err(Missed::NoGroup) => CallAnswer::NoGroup,
        }
    }

    /// Puts a fresh frame of the CPU on its list again; else releases the unit that this frame heads under the lock.
    #[inline(always)]
    pub fn release(&mut self, number: u32) -> CallAnswer
        requires some { IsSome self.old.cpu }
        ensures { Calls N.table (call.Release number) self.old self.new result }
    {
        let zone = &*self.zone;
        let Some(cpu) = &mut self.cpu else {
            unreachable!()
        };
        let Some(frame) = zone.tables.words.frame(number) else {
            return CallAnswer::NoFrame;
        };
        if relist(&zone.tables, cpu, frame) {
            return CallAnswer::Listed;
        }
        match self.serve(&TextCommand::Release { frame: number }) {
            Some(outcome) => CallAnswer::Served(outcome),
            None => CallAnswer::Busy,
        }
    }

    /// Pins a frame, without the lock.
    #[inline(always)]
    pub fn get(&mut self, number: u32) -> CallAnswer
        requires some { IsSome self.old.cpu }
        ensures { Calls N.table (call.Get number) self.old self.new result }
    {
        let Some(cpu) = &mut self.cpu else {
            unreachable!()
        };
        get(&self.zone.tables, cpu, number)
    }

    /// Puts a pin of the CPU, without the lock.
    #[inline(always)]
    pub fn put(&mut self, number: u32) -> CallAnswer
        requires some { IsSome self.old.cpu }
        ensures { Calls N.table (call.Put number) self.old self.new result }
    {
        let Some(cpu) = &mut self.cpu else {
            unreachable!()
        };
        put(&self.zone.tables, cpu, number)
    }
}

// Takes a frame of the CPU's list, paid from its stock; `None` if one of them has none.
#[inline(always)]
fn take_listed<N: BootName>(tables: &Tables<N>, cpu: &mut Cpu<N>, group: u32) -> Option<Frame>
    ensures taken { IfSome result (λ frame. AllocsFast group (Got frame) cpu.old cpu.new) }
    ensures missed { IfNone result (MissesFast group cpu.old cpu.new) }
{
    match cpu.alloc_fast(tables, group) {
        Fast::Got(frame) => Some(frame),
        Fast::FreshFull => None,
        Fast::ListEmpty => None,
        Fast::OtherGroup => None,
        Fast::Drained => None,
        Fast::NoStock => None,
    }
}

// Puts the frame on the CPU's list again, if it is a fresh one of the CPU and its page can be credited. Returns whether it
// did.
#[inline(always)]
fn relist<N: BootName>(tables: &Tables<N>, cpu: &mut Cpu<N>, frame: Frame) -> bool
    ensures { MatchBool result (DropsFast frame Listed cpu.old cpu.new) (MissesDrop frame cpu.old cpu.new) }
{
    if !cpu.has_fresh(frame) {
        return false;
    }
    match cpu.drop_fresh(tables, frame) {
        Dropped::Listed => true,
        Dropped::NeedVisit => false,
    }
}

// Pins a frame.
#[inline(always)]
fn get<N: BootName>(tables: &Tables<N>, cpu: &mut Cpu<N>, number: u32) -> CallAnswer
    ensures { CallsGet N.table number result cpu.old cpu.new }
{
    let Some(frame) = tables.words.frame(number) else {
        return CallAnswer::NoFrame;
    };
    match cpu.get(tables, frame) {
        Ok(got) => CallAnswer::Got(got),
        Err(fault) => CallAnswer::Refused(fault),
    }
}

// Puts a pin of the CPU.
#[inline(always)]
fn put<N: BootName>(tables: &Tables<N>, cpu: &mut Cpu<N>, number: u32) -> CallAnswer
    ensures { CallsPut N.table number result cpu.old cpu.new }
{
    let Some(frame) = tables.words.frame(number) else {
        return CallAnswer::NoFrame;
    };
    if !cpu.has_pin(frame) {
        return CallAnswer::Refused(Fault::NotPinned);
    }
    CallAnswer::Put(cpu.put(tables, frame))
}
