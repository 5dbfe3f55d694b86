//! Releasing kept units.

ghost use Rattle.std.specs.Prelude.{◌<◌};
ghost use Rattle.boot_words.specs.Pasts.{IsHeld};
ghost use Rattle.mem_machine.specs.Machines.{HeadsKeptUnit};
ghost use Rattle.mem_machine.specs.Local.{Makes, StaysVisited, Visits};
ghost use Rattle.mem_machine.specs.Releasing.{Releases, release_steps};

use crate::frame_state::FrameState;
use crate::freed::return_unit;
use crate::lists::leave_list;
use crate::machine::Machine;
use cpu_part::{BootName, CpuLists, Tables};
use frame_word::{Frame, Put};
use step_rules::step::{Action, Answer};

/// What a release left.
#[derive(Clone, Copy)]
pub enum Released {
    /// This many references of CPUs are left. The unit stays charged and isn't kept any more. After a CPU puts the last
    /// reference, the unit is freed when that CPU is settled.
    Left(u64),
    /// The unit was freed: its frames are free, and its pages are uncharged from its group.
    Returned,
}

impl<N: BootName> Machine<N> {
    /// Removes a kept unit from its list, and puts the zone's reference on it. If that was the last reference, the unit
    /// is freed. `head` is the unit's head. The call may be made in any CPU's visit.
    pub fn put_zone_reference(&mut self, tables: &Tables<N>, head: Frame) -> Released
        requires frame { head < N.table.frames }
        requires kept { HeadsKeptUnit self.old head }
        requires held { IsHeld N.table self.old.run.past }
        ensures releases { Releases head result self.old self.new }
        ensures visit { StaysVisited N.table self.old self.new }
        ensures steps { Makes N.table self.old (release_steps head result) self.new }
    {
        let at = head.number();
        let FrameState::Head(unit) = self.frame_states[at as usize] else {
            unreachable!()
        };
        leave_list(
            &mut self.links,
            &mut self.lists,
            &mut self.clean,
            unit.group,
            unit.order,
            at,
        );
        match tables.words.put_held(&mut self.past, 0, head) {
            Put::Left(left) => {
                let still = left as u32;
                self.watch
                    .take(0, || (Action::Put { frame: at }, Answer::Left(still)));
                Released::Left(left)
            }
            Put::Last => {
                self.watch
                    .take(0, || (Action::Put { frame: at }, Answer::Last));
                return_unit(
                    tables,
                    &mut self.past,
                    &mut self.watch,
                    &mut self.zone,
                    &mut self.frame_states,
                    &mut self.charges,
                    at,
                    unit,
                );
                self.counts = self.counts.with_last_put();
                Released::Returned
            }
        }
    }

    /// Releases a kept unit as `put_zone_reference` does, in the visit of this CPU.
    pub fn release(&mut self, tables: &Tables<N>, cpu: &CpuLists<N>, head: Frame) -> Released
        requires visit { Visits N.table self.old cpu.now }
        requires frame { head < N.table.frames }
        requires kept { HeadsKeptUnit self.old head }
        ensures releases { Releases head result self.old self.new }
        ensures visit { Visits N.table self.new cpu.now }
        ensures steps { Makes N.table self.old (release_steps head result) self.new }
    {
        self.put_zone_reference(tables, head)
    }
}
