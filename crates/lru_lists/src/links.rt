//! The records of all frames, through which the lists of all owners are linked.

ghost use Rattle.std.specs.Prelude.{◌≡◌, ◌<◌, ◌++◌, [], ◌∷◌, None, Some, IfOk, IfSome, length, slice_set};
ghost use Rattle.lru_lists.specs.Queue.{link_at, units_of, list_without, AreNowhere, IsLinked, StaysElsewhere, SameUse};
ghost use Rattle.lru_lists.specs.Queue.{newest_link, unlinked, nowhere, with_newer, with_older};
ghost use Rattle.lru_lists.specs.Packed.{IsNumber};

use crate::packed::{Flags, Packed, number};
use crate::queue::{self, Queue};
use crate::record::{Home, Link};
use std::alloc::{AllocError, Global};
use std::marker::Model;

/// One record for each frame of a zone. A contract sees them as a list.
#[derive(Drop)]
pub struct Links {
    records: Vec<Packed>,
}

impl Model for Links {
    ghost use Rattle.std.specs.Prelude.{List, ◌<◌, ◌^◌, length};
    ghost use Rattle.lru_lists.specs.declared.record.Link.{Link};

    ghost Value = { List Link };

    ghost use Rattle.lru_lists.specs.Packed.{links_of};

    ghost view = { λ l. links_of l.records.items };

    ghost invariant = { λ l. length l.records.items < 2 ^ 32 };
}

impl Links {
    /// The records of this many frames, none of which is on a list. No other call allocates.
    pub fn new(alloc: Global, frames: u32) -> Result<Links, AllocError>
        ensures frames { IfOk result (λ links. length links ≡ frames) }
        ensures nowhere { IfOk result (λ links. AreNowhere links) }
    {
        let records = vec![in alloc; Packed::NOWHERE; frames as usize]?;
        Ok(Links { records })
    }

    /// How many frames there are.
    pub fn frames(&self) -> u32
        ensures { result ≡ length self.now }
    {
        self.records.len() as u32
    }

    /// The list that holds the frame, whoever owns it; None exactly if no list holds it. A unit may be added only
    /// then.
    pub fn home(&self, frame: u32) -> Option<Home>
        requires { frame < length self.now }
        ensures { result ≡ (link_at self.now frame).home }
    {
        self.records[frame as usize].home()
    }

    /// Whether the unit that the frame heads is dirty; false for a frame on no list that never was dirty on one.
    pub fn is_dirty(&self, frame: u32) -> bool
        requires { frame < length self.now }
        ensures { result ≡ (link_at self.now frame).is_dirty }
    {
        self.records[frame as usize].flags.is_dirty()
    }

    // Appends a unit that is on no list at the newest end of this one, unmarked.
    pub(crate) fn push_newest(&mut self, queue: &mut Queue, home: Home, unit: u32)
        requires unit { unit < length self.old }
        requires away { (link_at self.old unit).home ≡ None }
        requires linked { IsLinked self.old home queue.old (units_of self.old queue.old) }
        ensures units { units_of self.new queue.new ≡ units_of self.old queue.old ++ unit ∷ [] }
        ensures linked { IsLinked self.new home queue.new (units_of self.new queue.new) }
        ensures unit { link_at self.new unit ≡ newest_link home queue.old.newest (link_at self.old unit).is_dirty }
        ensures others { StaysElsewhere self.old self.new home unit }
        ensures used { SameUse self.old self.new unit }
    {
        let _records = &self.records; // Borrowed for the invariant: there are fewer than 2^32 records.
        queue::push_newest(self, queue, home, unit);
    }

    // Removes a unit from the list that holds it. It stays marked and dirty as it was.
    pub(crate) fn unlink_keeping_flags(&mut self, queue: &mut Queue, home: Home, unit: u32)
        requires linked { IsLinked self.old home queue.old (units_of self.old queue.old) }
        requires unit { (link_at self.old unit).home ≡ Some home }
        ensures units { units_of self.new queue.new ≡ list_without unit (units_of self.old queue.old) }
        ensures linked { IsLinked self.new home queue.new (units_of self.new queue.new) }
        ensures unit { link_at self.new unit ≡ unlinked (link_at self.old unit) }
        ensures others { StaysElsewhere self.old self.new home unit }
        ensures used { SameUse self.old self.new unit }
    {
        let _records = &self.records; // Borrowed for the invariant: there are fewer than 2^32 records.
        queue::unlink_keeping_flags(self, queue, home, unit);
    }

    // Resets the record of a frame to that of a frame on no list.
    pub(crate) fn clear(&mut self, frame: u32)
        requires { frame < length self.old }
        ensures { self.new ≡ slice_set self.old frame nowhere }
    {
        self.records[frame as usize] = Packed::NOWHERE;
    }

    // Sets whether a unit is marked: touched once since it joined the inactive list.
    pub(crate) fn set_marked(&mut self, unit: u32, is_marked: bool)
        requires { unit < length self.old }
        ensures { self.new ≡ slice_set self.old unit (record (link_at self.old unit) { is_marked = is_marked }) }
    {
        let record = &mut self.records[unit as usize];
        record.flags = Flags::of(is_marked, record.flags.is_dirty());
    }

    // Sets whether a unit is dirty.
    pub(crate) fn set_dirty(&mut self, unit: u32, is_dirty: bool)
        requires { unit < length self.old }
        ensures { self.new ≡ slice_set self.old unit (record (link_at self.old unit) { is_dirty = is_dirty }) }
    {
        let record = &mut self.records[unit as usize];
        record.flags = Flags::of(record.flags.is_marked(), is_dirty);
    }

    // The record of a frame, as a copy: a change of it is stored by `put`.
    pub(crate) fn link(&self, frame: u32) -> Link
        requires { frame < length self.now }
        ensures { result ≡ link_at self.now frame }
    {
        self.records[frame as usize].link()
    }

    // Stores a whole record, so a caller that keeps the flags reads the old one first.
    pub(crate) fn put(&mut self, frame: u32, link: Link)
        requires frame { frame < length self.old }
        requires older { IsNumber link.older }
        requires newer { IsNumber link.newer }
        ensures { self.new ≡ slice_set self.old frame link }
    {
        self.records[frame as usize] = Packed::of(link);
    }

    // If there is a unit just before `newer`, makes `newer` its next unit.
    pub(crate) fn set_newer(&mut self, unit: Option<u32>, newer: Option<u32>)
        requires unit { IfSome unit (λ u. u < length self.old) }
        requires newer { IsNumber newer }
        ensures { self.new ≡ with_newer self.old unit newer }
    {
        if let Some(unit) = unit {
            self.records[unit as usize].newer = number(newer);
        }
    }

    // If there is a unit just after `older`, makes `older` its previous unit.
    pub(crate) fn set_older(&mut self, unit: Option<u32>, older: Option<u32>)
        requires unit { IfSome unit (λ u. u < length self.old) }
        requires older { IsNumber older }
        ensures { self.new ≡ with_older self.old unit older }
    {
        if let Some(unit) = unit {
            self.records[unit as usize].older = number(older);
        }
    }
}
