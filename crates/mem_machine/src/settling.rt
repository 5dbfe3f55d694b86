//! Settling the visited CPU: its fresh frames are kept, and the units of its back frames are freed.

ghost use Rattle.std.specs.Prelude.{◌≡◌, ◌≢◌, ◌-◌, ◌≤◌, ℕ, List, [], ◌∷◌, true, Some, slice_set};
ghost use Rattle.std.specs.List.{slice_index_or};
ghost use Rattle.boot_words.specs.{AreLegal, local_by_pasts, IsHeld, IsHolder};
ghost use Rattle.mem_machine.specs.Machines.{is_killed, stock_group};
ghost use Rattle.mem_machine.specs.Local.{Makes, Visits, visit_state};
ghost use Rattle.mem_machine.specs.Noted.{Records};
ghost use Rattle.mem_machine.specs.Settling.{HandsOver, KeepsFresh, DropsFresh, SettlesNext, SettlesAllFresh, Settles};
ghost use Rattle.mem_machine.specs.Settling.{ReturnsNext, ReturnsAllBack, LeavesOthers};
ghost use Rattle.mem_machine.specs.Settling.{MakesFreshSteps, MakesReturnSteps, keep_steps, drop_steps};
ghost use Rattle.mem_machine.specs.Settling.{all_fresh_steps, collect_steps, return_all_steps, settle_steps};
ghost use Rattle.step_watch.specs.Watched.{Watches};

use crate::frame_state::{FrameState, single_order};
use crate::freed::return_unit;
use crate::lists::join_list;
use crate::machine::Machine;
use crate::passed::collect_passed;
use crate::publishing::publish;
use boot_words::PastSeat;
use cpu_part::{BootName, CpuLists, Tables};
use frame_word::Frame;
use group_tree::group::GroupId;
use step_rules::phase::ChargedUnit;
use step_rules::step::{Action, Answer};
use step_watch::Watch;

// The watch takes the steps by which the zone took over a fresh frame of the CPU.
fn watch_collected(watch: &mut Watch, cpu: u32, frame: u32)
    ensures { Watches watch.old (collect_steps cpu frame) watch.new }
{
    watch.take(cpu, || (Action::PassBack { frame }, Answer::Done));
    watch.take(cpu, || (Action::Report { pages: 1 }, Answer::Done));
    watch.take(0, || (Action::Collect { frame, cpu }, Answer::Done));
    watch.take(0, || (Action::Absorb { cpu }, Answer::Pages(1)));
}

// Moves the oldest fresh frame of the visited CPU into the zone's hand. Its page is no longer booked to the CPU's
// stock, which is of this group, nor in the group's sum.
fn collect_fresh<N: BootName>(
    tables: &Tables<N>,
    cpu: &mut CpuLists<N>,
    past: &mut PastSeat,
    watch: &mut Watch,
    sums: &mut Vec<u32>,
    group: GroupId,
) -> Frame
    requires held { IsHeld N.table past.old }
    requires holder { IsHolder past.old cpu.old.number }
    requires absorbed { ((local_by_pasts N.table past.old).parts cpu.old.number).reported ≡ 0 }
    requires legal { (f : ℕ) (rest : List ℕ) → cpu.old.fresh ≡ f ∷ rest
        → AreLegal (local_by_pasts N.table past.old) (collect_steps cpu.old.number f) }
    requires fresh { cpu.old.fresh ≢ [] }
    requires booked { 1 ≤ slice_index_or sums.old.items group 0 }
    ensures cpu { HandsOver result cpu.old cpu.new }
    ensures sums { sums.new.items ≡ slice_set sums.old.items group (slice_index_or sums.old.items group 0 - 1) }
    ensures held { IsHeld N.table past.new }
    ensures notes { Records N.table (record { past = past.old; watch = watch.old })
        (collect_steps cpu.old.number result) (record { past = past.new; watch = watch.new }) }
{
    let cpu_number = cpu.number();
    let Some(frame) = cpu.give_back_fresh(tables, past) else {
        unreachable!()
    };
    let at = frame.number();
    watch_collected(watch, cpu_number, at);
    sums[group.number() as usize] -= 1;
    frame
}

impl<N: BootName> Machine<N> {
    // Keeps the oldest fresh frame for the group that paid for it.
    fn keep_one(&mut self, tables: &Tables<N>, cpu: &mut CpuLists<N>, group: GroupId) -> Frame
        requires visit { Visits N.table self.old cpu.old }
        requires fresh { cpu.old.fresh ≢ [] }
        requires group { stock_group N.table self.old cpu.old.number ≡ Some group }
        ensures keeps { KeepsFresh group result (visit_state self.old cpu.old) (visit_state self.new cpu.new) }
        ensures visit { Visits N.table self.new cpu.new }
        ensures steps { Makes N.table self.old (keep_steps cpu.old.number result) self.new }
    {
        let head = collect_fresh(
            tables,
            cpu,
            &mut self.past,
            &mut self.watch,
            &mut self.sums,
            group,
        );
        let frame = head.number();
        let order = single_order();
        self.frame_states[frame as usize] = FrameState::Head(ChargedUnit { group, order });
        join_list(
            &mut self.links,
            &mut self.lists,
            &mut self.clean,
            group,
            order,
            frame,
        );
        publish(tables, &mut self.past, &mut self.watch, head);
        head
    }

    // Frees the oldest fresh frame, whose group is killed, and uncharges its page from the group.
    fn drop_one(&mut self, tables: &Tables<N>, cpu: &mut CpuLists<N>, group: GroupId) -> Frame
        requires visit { Visits N.table self.old cpu.old }
        requires fresh { cpu.old.fresh ≢ [] }
        requires group { stock_group N.table self.old cpu.old.number ≡ Some group }
        requires killed { is_killed self.old.killed group ≡ true }
        ensures drops { DropsFresh group result (visit_state self.old cpu.old) (visit_state self.new cpu.new) }
        ensures visit { Visits N.table self.new cpu.new }
        ensures steps { Makes N.table self.old (drop_steps cpu.old.number result) self.new }
    {
        let frame = collect_fresh(
            tables,
            cpu,
            &mut self.past,
            &mut self.watch,
            &mut self.sums,
            group,
        );
        let at = frame.number();
        let order = single_order();
        let unit = ChargedUnit { group, order };
        return_unit(
            tables,
            &mut self.past,
            &mut self.watch,
            &mut self.zone,
            &mut self.frame_states,
            &mut self.charges,
            at,
            unit,
        );
        self.counts = self.counts.with_killed_fresh();
        frame
    }

    // Takes the oldest back frame, if there is one, into the zone's hand, and frees its unit.
    fn return_one(&mut self, tables: &Tables<N>, cpu: &mut CpuLists<N>) -> Option<Frame>
        requires { Visits N.table self.old cpu.old }
        ensures returns { ReturnsNext result (visit_state self.old cpu.old) (visit_state self.new cpu.new) }
        ensures visit { Visits N.table self.new cpu.new }
        ensures steps { MakesReturnSteps N.table result (visit_state self.old cpu.old) (visit_state self.new cpu.new) }
    {
        let cpu_number = cpu.number();
        let Some(frame) = cpu.pass_back_unit(tables, &mut self.past) else {
            return None;
        };
        collect_passed(tables, &mut self.past, &mut self.watch, cpu_number, frame);
        let at = frame.number();
        let FrameState::Head(unit) = self.frame_states[at as usize] else {
            unreachable!()
        };
        return_unit(
            tables,
            &mut self.past,
            &mut self.watch,
            &mut self.zone,
            &mut self.frame_states,
            &mut self.charges,
            at,
            unit,
        );
        self.counts = self.counts.with_last_put();
        Some(frame)
    }

    // Settles the oldest fresh frame, if there is one: it is kept for its group, or dropped if that group is killed.
    fn settle_one(&mut self, tables: &Tables<N>, cpu: &mut CpuLists<N>) -> Option<Frame>
        requires { Visits N.table self.old cpu.old }
        ensures settles { SettlesNext N.table result (visit_state self.old cpu.old) (visit_state self.new cpu.new) }
        ensures visit { Visits N.table self.new cpu.new }
        ensures steps { MakesFreshSteps N.table result (visit_state self.old cpu.old) (visit_state self.new cpu.new) }
    {
        if cpu.fresh_len() == 0 {
            return None;
        }
        let Some(group) = self.owners.group(cpu.number() as usize - 1) else {
            unreachable!()
        };
        if self.is_killed(group) {
            Some(self.drop_one(tables, cpu, group))
        } else {
            Some(self.keep_one(tables, cpu, group))
        }
    }

    // Settles all fresh frames, in the order in which they were taken.
    fn settle_fresh(&mut self, tables: &Tables<N>, cpu: &mut CpuLists<N>)
        requires { Visits N.table self.old cpu.old }
        ensures settles { SettlesAllFresh N.table cpu.old.fresh (visit_state self.old cpu.old)
            (visit_state self.new cpu.new) }
        ensures others { LeavesOthers cpu.old cpu.new }
        ensures back { cpu.new.back ≡ cpu.old.back }
        ensures none_fresh { cpu.new.fresh ≡ [] }
        ensures visit { Visits N.table self.new cpu.new }
        ensures steps { Makes N.table self.old (all_fresh_steps N.table (visit_state self.old cpu.old)) self.new }
    {
        while let Some(_frame) = self.settle_one(tables, cpu) {}
    }

    // Frees the units of all back frames, in the order of their last puts.
    fn settle_back(&mut self, tables: &Tables<N>, cpu: &mut CpuLists<N>)
        requires { Visits N.table self.old cpu.old }
        ensures returns { ReturnsAllBack cpu.old.back (visit_state self.old cpu.old) (visit_state self.new cpu.new) }
        ensures others { LeavesOthers cpu.old cpu.new }
        ensures fresh { cpu.new.fresh ≡ cpu.old.fresh }
        ensures none_back { cpu.new.back ≡ [] }
        ensures visit { Visits N.table self.new cpu.new }
        ensures steps { Makes N.table self.old (return_all_steps (visit_state self.old cpu.old)) self.new }
    {
        while let Some(_frame) = self.return_one(tables, cpu) {}
    }

    /// Settles the visited CPU. Each fresh frame, in the order in which they were taken, becomes a kept unit of the
    /// group that paid for it. If that group has been killed, the frame is freed and its page uncharged, which counts
    /// as a drop. Then the units of the back frames are freed, in the order of their last puts.
    pub fn settle(&mut self, tables: &Tables<N>, cpu: &mut CpuLists<N>)
        requires { Visits N.table self.old cpu.old }
        ensures settles { Settles N.table (visit_state self.old cpu.old) (visit_state self.new cpu.new) }
        ensures others { LeavesOthers cpu.old cpu.new }
        ensures none_fresh { cpu.new.fresh ≡ [] }
        ensures none_back { cpu.new.back ≡ [] }
        ensures visit { Visits N.table self.new cpu.new }
        ensures steps { Makes N.table self.old (settle_steps N.table (visit_state self.old cpu.old)) self.new }
    {
        self.settle_fresh(tables, cpu);
        self.settle_back(tables, cpu);
    }
}
