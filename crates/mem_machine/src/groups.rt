//! The groups: making, removing, limiting and killing them, noting their events, and what is set for them.

ghost use Rattle.std.specs.Prelude.{◌≡◌, ◌≢◌, [], IsTrue, IfOk, OnErr, false, true, slice_set};
ghost use Rattle.std.specs.Result.{result_err};
ghost use Rattle.group_tree.specs.Groups.{has_group, has_child, make_fault};
ghost use Rattle.group_charge.specs.{current_of, SameUsage, with_group_limit, with_group_removed};
ghost use Rattle.group_charge.specs.{with_group_kill_noted, with_kill_noted, with_noted, with_oom_flag, with_settings};
ghost use Rattle.step_rules.specs.Events.{event_key};
ghost use Rattle.mem_machine.specs.Machines.{is_killed, AddsGroup};
ghost use Rattle.boot_words.specs.Pasts.{IsHeld};
ghost use Rattle.mem_machine.specs.Local.{Makes, StaysVisited};
ghost use Rattle.mem_machine.specs.Steps.{kill_steps, note_group_kill_steps, note_steps};
ghost use Rattle.mem_machine.specs.Steps.{make_steps, remove_steps, set_max_steps, set_oom_group_steps};

use crate::machine::Machine;
use crate::proving::prove_charges;
use crate::stepping::make_step;
use cpu_part::{BootName, Tables};
use group_charge::settings::ReclaimSettings;
use group_tree::event::EventKey;
use group_tree::fault::Fault;
use group_tree::group::GroupId;
use group_tree::path::PathText;
use step_rules::step::{Action, Answer, NoteKey};

impl<N: BootName> Machine<N> {
    /// Notes an event of a group: one more in its events and its ancestors' events, and in its local events.
    pub fn note_event(&mut self, tables: &Tables<N>, key: NoteKey, group: GroupId)
        requires there { IsTrue (has_group self.old.ledger.groups group) }
        requires held { IsHeld N.table self.old.run.past }
        ensures machine { self.new ≡ record self.old {
          ledger = with_noted (event_key key) self.old.ledger group;
          run = self.new.run;
        } }
        ensures usage { SameUsage self.old.ledger self.new.ledger }
        ensures visit { StaysVisited N.table self.old self.new }
        ensures steps { Makes N.table self.old (note_steps key group) self.new }
    {
        self.charges.note(key.event(), group);
        make_step(tables, &mut self.past, &mut self.watch, || {
            (Action::Note { key, group }, Answer::Done)
        });
    }

    /// Kills a group that isn't killed: nothing can be charged to it until it is removed. That is one more `oom_kill`
    /// in its events and its ancestors' events, and in its local events. Its stocks and its kept units stay as they
    /// are.
    pub fn mark_killed(&mut self, tables: &Tables<N>, group: GroupId)
        requires there { IsTrue (has_group self.old.ledger.groups group) }
        requires alive { is_killed self.old.killed group ≡ false }
        requires held { IsHeld N.table self.old.run.past }
        ensures machine { self.new ≡ record self.old {
          ledger = with_kill_noted self.old.ledger group;
          killed = slice_set self.old.killed group true;
          run = self.new.run;
        } }
        ensures usage { SameUsage self.old.ledger self.new.ledger }
        ensures visit { StaysVisited N.table self.old self.new }
        ensures steps { Makes N.table self.old (kill_steps group) self.new }
    {
        prove_charges(&self.charges);
        self.charges.note(EventKey::OomKill, group);
        self.killed[group.number() as usize] = true;
        make_step(tables, &mut self.past, &mut self.watch, || {
            (Action::Kill { group }, Answer::Done)
        });
    }

    /// Notes that a group other than the root was killed as a whole, with all groups below it. That is one more
    /// `oom_group_kill` in its events and its ancestors' events, and in its local events.
    pub fn note_group_kill(&mut self, tables: &Tables<N>, group: GroupId)
        requires there { IsTrue (has_group self.old.ledger.groups group) }
        requires below_root { group ≢ 0 }
        requires held { IsHeld N.table self.old.run.past }
        ensures machine { self.new ≡ record self.old {
          ledger = with_group_kill_noted self.old.ledger group;
          run = self.new.run;
        } }
        ensures usage { SameUsage self.old.ledger self.new.ledger }
        ensures visit { StaysVisited N.table self.old self.new }
        ensures steps { Makes N.table self.old (note_group_kill_steps group) self.new }
    {
        self.charges.note(EventKey::OomGroupKill, group);
        make_step(tables, &mut self.past, &mut self.watch, || {
            (Action::NoteGroupKill { group }, Answer::Done)
        });
    }

    /// Makes a group, as `Tree::make` does. It has no pages, peak 0 and all counts 0, and isn't killed.
    pub fn make(&mut self, tables: &Tables<N>, path: &[u8]) -> Result<GroupId, Fault>
        requires held { IsHeld N.table self.old.run.past }
        ensures made { IfOk result (λ number. AddsGroup number path.now self.old self.new) }
        ensures refused { result_err result ≡ make_fault self.old.ledger.groups path.now }
        ensures unchanged { OnErr result (self.new ≡ self.old) }
        ensures visit { StaysVisited N.table self.old self.new }
        ensures steps { IfOk result (λ number. Makes N.table self.old (make_steps path.now number) self.new) }
    {
        prove_charges(&self.charges);
        let group = self.charges.make(path)?;
        let number = group.number();
        self.killed[number as usize] = false;
        let Some(path) = PathText::of(path) else {
            unreachable!()
        };
        make_step(tables, &mut self.past, &mut self.watch, || {
            (Action::Make { path }, Answer::Number(group))
        });
        Ok(group)
    }

    /// Removes an existing group other than the root, if it has no child and nothing charged.
    pub fn remove(&mut self, tables: &Tables<N>, group: GroupId)
        requires there { IsTrue (has_group self.old.ledger.groups group) }
        requires leaf { has_child self.old.ledger.groups group ≡ false }
        requires below_root { group ≢ 0 }
        requires empty { current_of self.old.ledger group ≡ 0 }
        requires held { IsHeld N.table self.old.run.past }
        ensures machine { self.new ≡ record self.old {
          ledger = with_group_removed self.old.ledger group;
          run = self.new.run;
        } }
        ensures visit { StaysVisited N.table self.old self.new }
        ensures steps { Makes N.table self.old (remove_steps group) self.new }
    {
        prove_charges(&self.charges);
        self.charges.remove(group);
        make_step(tables, &mut self.past, &mut self.watch, || {
            (Action::Remove { group }, Answer::Done)
        });
    }

    /// Gives a group other than the root another limit, in pages; None means no limit. Only later charges obey it.
    pub fn set_max(&mut self, tables: &Tables<N>, group: GroupId, limit: Option<u32>)
        requires there { IsTrue (has_group self.old.ledger.groups group) }
        requires below_root { group ≢ 0 }
        requires held { IsHeld N.table self.old.run.past }
        ensures machine { self.new ≡ record self.old {
          ledger = with_group_limit self.old.ledger group limit;
          run = self.new.run;
        } }
        ensures visit { StaysVisited N.table self.old self.new }
        ensures steps { Makes N.table self.old (set_max_steps group limit) self.new }
    {
        self.charges.set_max(group, limit);
        make_step(tables, &mut self.past, &mut self.watch, || {
            (Action::SetMax { group, limit }, Answer::Done)
        });
    }

    /// Sets whether a group other than the root is killed as a whole (memory.oom.group). Only later kills read it.
    pub fn set_oom_group(&mut self, tables: &Tables<N>, group: GroupId, oom_group: bool)
        requires there { IsTrue (has_group self.old.ledger.groups group) }
        requires below_root { group ≢ 0 }
        requires held { IsHeld N.table self.old.run.past }
        ensures machine { self.new ≡ record self.old {
          ledger = with_oom_flag self.old.ledger group oom_group;
          run = self.new.run;
        } }
        ensures visit { StaysVisited N.table self.old self.new }
        ensures steps { Makes N.table self.old (set_oom_group_steps group oom_group) self.new }
    {
        self.charges.set_oom_group(group, oom_group);
        make_step(tables, &mut self.past, &mut self.watch, || {
            (Action::SetFlag { group, oom_group }, Answer::Done)
        });
    }

    /// Sets memory.high, memory.low and memory.min of a group. This is no step: no rule reads them.
    pub fn set_settings(&mut self, group: GroupId, settings: ReclaimSettings)
        ensures machine { self.new ≡ record self.old { ledger = with_settings self.old.ledger group settings } }
        ensures visit { StaysVisited N.table self.old self.new }
        ensures steps { Makes N.table self.old [] self.new }
    {
        self.charges.set_settings(group, settings);
    }
}
