//! Trying kept units: a unit is frozen and freed if nobody else has a reference.

ghost use Rattle.std.specs.Prelude.{◌<◌};
ghost use Rattle.boot_words.specs.Pasts.{IsHeld};
ghost use Rattle.mem_machine.specs.Machines.{HeadsKeptUnit};
ghost use Rattle.mem_machine.specs.Local.{Makes, StaysVisited};
ghost use Rattle.mem_machine.specs.Evicting.{Evicts, evict_steps};

use crate::frame_state::FrameState;
use crate::freed::return_unit;
use crate::lists::leave_list;
use crate::machine::Machine;
use cpu_part::{BootName, Tables};
use frame_word::Frame;
use step_rules::step::{Action, Answer};

impl<N: BootName> Machine<N> {
    /// Tries to take a kept unit out of use. If the zone's reference is the only one, nobody can get the unit any more:
    /// it is freed, and noted if `set_detail_notes` asked for that, and the result is its number of pages. Else the
    /// result is None, a miss, and the unit stays kept. `head` is the unit's head.
    pub fn evict(&mut self, tables: &Tables<N>, head: Frame) -> Option<u32>
        requires frame { head < N.table.frames }
        requires kept { HeadsKeptUnit self.old head }
        requires held { IsHeld N.table self.old.run.past }
        ensures evicts { Evicts head result self.old self.new }
        ensures visit { StaysVisited N.table self.old self.new }
        ensures steps { Makes N.table self.old (evict_steps head result) self.new }
    {
        let frame = head.number();
        if !tables.words.freeze(&mut self.past, head, 1) {
            self.watch
                .take(0, || (Action::Freeze { frame, count: 1 }, Answer::Missed));
            self.counts = self.counts.with_miss();
            return None;
        }
        self.watch
            .take(0, || (Action::Freeze { frame, count: 1 }, Answer::Done));
        let FrameState::Head(unit) = self.frame_states[frame as usize] else {
            unreachable!()
        };
        let group = unit.group;
        let order = unit.order;
        leave_list(
            &mut self.links,
            &mut self.lists,
            &mut self.clean,
            group,
            order,
            frame,
        );
        return_unit(
            tables,
            &mut self.past,
            &mut self.watch,
            &mut self.zone,
            &mut self.frame_states,
            &mut self.charges,
            frame,
            unit,
        );
        self.counts = self.counts.with_freeze();
        let pages = order.frames();
        self.notes.note_unit(group, frame, pages);
        Some(pages)
    }
}
