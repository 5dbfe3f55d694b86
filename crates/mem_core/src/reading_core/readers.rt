//! What can be read of a core's state, and so of each run that it shows.

ghost use Rattle.std.specs.Prelude.{◌≡◌, ℕ, ◌<◌, ◌^◌, Some, IsTrue, length, slice_get};
ghost use Rattle.zone_blocks.specs.Areas.{AreMaximalBlocks};
ghost use Rattle.group_tree.specs.declared.event.EventKey.{EventKey};
ghost use Rattle.group_tree.specs.{count_of, has_group, is_oom_group, limit_of};
ghost use Rattle.step_rules.specs.declared.step.FramePlace.{FramePlace};
ghost use Rattle.step_rules.specs.State.{State};
ghost use Rattle.step_rules.specs.{free_in, front_of, pins_of, usage_of, places_of, place_in, is_same_frame_place};
ghost use Rattle.step_rules.specs.{flag_given, limit_given, was_killed, Run, part_after, state_of, IsPeak, events_in};
ghost use Rattle.step_rules.specs.{events_local_in};
ghost use Rattle.mem_core.specs.Accounts.{account_in};
ghost use Rattle.mem_core.specs.Shown.{CoreState, ShowsRun, state_shown};
ghost use Rattle.mem_core.specs.Promise.{core_shown};

use super::Core;
use group_tree::event::EventCounts;
use group_tree::group::GroupId;
use group_tree::tree::Tree;
use step_rules::phase::{Hold, Phase};
use step_rules::step::FramePlace;
use zone_blocks::areas::FreeAreas;

impl Core {
    /// How many steps were made, with those that were answered Illegal.
    pub fn steps(&self) -> u64
        ensures now { result ≡ self.now.steps }
        ensures run { (run : Run) → ShowsRun self.now run → result ≡ length run }
    {
        self.steps
    }

    /// The groups.
    pub fn tree(&self) -> &Tree
        ensures now { result.now ≡ self.now.groups }
        ensures run { (run : Run) → ShowsRun self.now run → result.now ≡ (state_of self.now.zone run).groups }
    {
        &self.rows.tree
    }

    /// The free areas: the maximal blocks of the free frames.
    pub fn areas(&self) -> &FreeAreas
        ensures frames { result.now.frames ≡ self.now.zone.frames }
        ensures now { result.now.blocks ≡ self.now.areas }
        ensures run { (run : Run) → ShowsRun self.now run
            → AreMaximalBlocks (free_in self.now.zone (state_of self.now.zone run).phases) result.now.blocks }
    {
        &self.areas
    }

    /// The limit of an existing group (memory.max), in pages, or None if it has no limit.
    pub fn max(&self, group: GroupId) -> Option<u32>
        requires { IsTrue (has_group self.now.groups group) }
        ensures now { result ≡ limit_of self.now.groups group }
        ensures run { (run : Run) → ShowsRun self.now run → result ≡ limit_given run group }
    {
        self.rows.tree.max(group)
    }

    /// Whether an existing group is killed as a whole (memory.oom.group). A new group isn't.
    pub fn is_oom_group(&self, group: GroupId) -> bool
        requires { IsTrue (has_group self.now.groups group) }
        ensures now { result ≡ is_oom_group self.now.groups group }
        ensures run { (run : Run) → ShowsRun self.now run → result ≡ flag_given run group }
    {
        self.rows.tree.is_oom_group(group)
    }

    /// The place of a frame of the zone.
    pub fn place(&self, frame: u32) -> FramePlace
        requires { frame < self.now.zone.frames }
        ensures now { result ≡ place_in ((state_shown self.now).phases frame) }
        ensures run { (run : Run) → ShowsRun self.now run → (p : FramePlace)
            → places_of self.now.zone run frame p ≡ is_same_frame_place p result }
    {
        place_in(self.phase(frame))
    }

    /// Whether a group of this number is killed.
    pub fn is_killed(&self, group: GroupId) -> bool
        ensures now { result ≡ (state_shown self.now).killed group }
        ensures run { (run : Run) → ShowsRun self.now run → result ≡ (state_of self.now.zone run).killed group }
    {
        self.rows.is_killed(group)
    }

    /// The phase of a frame.
    pub fn phase(&self, frame: u32) -> Phase
        ensures now { result ≡ (state_shown self.now).phases frame }
        ensures run { (run : Run) → ShowsRun self.now run → result ≡ (state_of self.now.zone run).phases frame }
    {
        self.rows.phase(frame)
    }

    /// The references of a seat on a frame.
    pub fn references(&self, seat: u32, frame: u32) -> u32
        ensures now { result ≡ (state_shown self.now).references seat frame }
        ensures run { (run : Run) → ShowsRun self.now run
            → result ≡ (state_of self.now.zone run).references seat frame }
    {
        self.rows.references(seat, frame)
    }

    /// The front of a CPU's list; 0 if the list is empty.
    pub fn front(&self, cpu: u32) -> u32
        ensures now { result ≡ front_of ((state_shown self.now).parts cpu).list }
        ensures run { (run : Run) → ShowsRun self.now run → result ≡ front_of (part_after self.now.zone run cpu).list }
    {
        self.rows.front(cpu)
    }

    /// How many frames are on a CPU's list.
    pub fn list_len(&self, cpu: u32) -> usize
        ensures now { result ≡ length ((state_shown self.now).parts cpu).list }
        ensures run { (run : Run) → ShowsRun self.now run → result ≡ length (part_after self.now.zone run cpu).list }
    {
        self.rows.list_len(cpu)
    }

    /// The pages that a CPU reported and that aren't absorbed yet.
    pub fn reported(&self, cpu: u32) -> u128
        ensures now { result ≡ ((state_shown self.now).parts cpu).reported }
        ensures run { (run : Run) → ShowsRun self.now run → result ≡ (part_after self.now.zone run cpu).reported }
    {
        self.rows.reported(cpu)
    }

    /// The references of a seat on all frames; those of a CPU are its pins.
    pub fn pin_count(&self, seat: u32) -> u32
        ensures now { result ≡ pins_of (state_shown self.now) seat }
        ensures run { (run : Run) → ShowsRun self.now run → result ≡ pins_of (state_of self.now.zone run) seat }
    {
        self.rows.pin_count(seat)
    }

    /// The usage of a group (memory.current), in pages: the frames that it and its descendants keep, the pages
    /// prepaid for them, and those pending.
    pub fn current(&self, group: GroupId) -> u128
        ensures now { result ≡ usage_of (state_shown self.now) group }
        ensures shown { result ≡ (core_shown self.now).current group }
        ensures run { (run : Run) → ShowsRun self.now run → result ≡ usage_of (state_of self.now.zone run) group }
        ensures few { result < 2 ^ 108 }
    {
        self.rows.usage(group)
    }

    /// The greatest usage of an existing group since it was made (memory.peak), in pages; it is below 2^108.
    pub fn peak(&self, group: GroupId) -> u128
        requires { IsTrue (has_group self.now.groups group) }
        ensures now { result ≡ (account_in self.now.accounts group).peak }
        ensures few { result < 2 ^ 108 }
        ensures run { (run : Run) → ShowsRun self.now run → IsPeak self.now.zone run group result }
    {
        self.accounts[group.number() as usize].peak
    }

    /// The event counts of an existing group and all groups below it since it was made (memory.events).
    pub fn events(&self, group: GroupId) -> EventCounts
        requires { IsTrue (has_group self.now.groups group) }
        ensures now { result ≡ (account_in self.now.accounts group).events }
        ensures run { (run : Run) → ShowsRun self.now run → (key : EventKey)
            → count_of result key ≡ events_in key self.now.zone run group }
    {
        let account = self.accounts[group.number() as usize];
        account.events
    }

    /// The event counts of an existing group itself since it was made (memory.events.local).
    pub fn events_local(&self, group: GroupId) -> EventCounts
        requires { IsTrue (has_group self.now.groups group) }
        ensures now { result ≡ (account_in self.now.accounts group).events_local }
        ensures run { (run : Run) → ShowsRun self.now run → (key : EventKey)
            → count_of result key ≡ events_local_in key self.now.zone run group }
    {
        self.accounts[group.number() as usize].events_local
    }

    /// The frames on a CPU's list, the front first.
    pub fn list(&self, cpu: u32) -> &[u32]
        ensures now { result.now ≡ ((state_shown self.now).parts cpu).list }
        ensures run { (run : Run) → ShowsRun self.now run → result.now ≡ (part_after self.now.zone run cpu).list }
    {
        self.rows.list(cpu)
    }

    /// A CPU's fresh frames, the oldest first.
    pub fn fresh(&self, cpu: u32) -> &[u32]
        ensures now { result.now ≡ ((state_shown self.now).parts cpu).fresh }
        ensures run { (run : Run) → ShowsRun self.now run → result.now ≡ (part_after self.now.zone run cpu).fresh }
    {
        self.rows.fresh(cpu)
    }

    /// A CPU's back frames, the oldest first.
    pub fn back(&self, cpu: u32) -> &[u32]
        ensures now { result.now ≡ ((state_shown self.now).parts cpu).back }
        ensures run { (run : Run) → ShowsRun self.now run → result.now ≡ (part_after self.now.zone run cpu).back }
    {
        self.rows.back(cpu)
    }
}

// The place of a frame in this phase.
fn place_in(phase: Phase) -> FramePlace
    ensures { result ≡ place_in phase }
{
    match phase {
        Phase::InZone => FramePlace::Free,
        Phase::Lent { cpu, way: _ } => FramePlace::LentTo(cpu),
        Phase::Head { unit, stage: _ } => FramePlace::Charged(unit.group),
        Phase::Tail(group) => FramePlace::Charged(group),
    }
}
