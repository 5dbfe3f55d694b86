//! Moving frames between the free areas and the list of the visited CPU.

ghost use Rattle.std.specs.Prelude.{◌≡◌, ◌<◌, ◌≤◌, [], length, take};
ghost use Rattle.zone_blocks.specs.Areas.{HasNoneFrom};
ghost use Rattle.mem_machine.specs.declared.frame_state.FrameState.TheVariants.{Free};
ghost use Rattle.mem_machine.specs.FrameStates.{frame_state_at};
ghost use Rattle.mem_machine.specs.Lending.{HasListRoom, LendsIfFree, LendsFrame, Refills};
ghost use Rattle.mem_machine.specs.Lending.{UnlistsIfListed, UnlistsMany, unlist_front_steps};
ghost use Rattle.mem_machine.specs.Local.{Makes, Visits, visit_state};
ghost use Rattle.mem_machine.specs.Steps.{lend_steps};
ghost use Rattle.step_watch.specs.Watched.{Watches};

use crate::frame_state::{FrameState, single_order};
use crate::machine::Machine;
use crate::passed::collect_passed;
use crate::proving::prove_sizes;
use cpu_part::{BootName, CpuLists, Tables};
use frame_word::Frame;
use step_rules::step::{Action, Answer};
use step_watch::Watch;
use zone_blocks::block::Block;

// The watch takes the steps by which the zone lent the CPU a frame.
fn watch_lent(watch: &mut Watch, cpu: u32, frame: u32)
    ensures { Watches watch.old (lend_steps cpu frame) watch.new }
{
    watch.take(0, || (Action::PassOut { frame, cpu }, Answer::Done));
    watch.take(cpu, || (Action::TakeIn { frame }, Answer::Done));
}

impl<N: BootName> Machine<N> {
    // Lends one free frame to the CPU, if there is one, at the end of its list.
    fn lend_one(&mut self, tables: &Tables<N>, cpu: &mut CpuLists<N>) -> bool
        requires visit { Visits N.table self.old cpu.old }
        requires room { HasListRoom cpu.old 1 }
        ensures lends { LendsIfFree N.table result (visit_state self.old cpu.old) (visit_state self.new cpu.new) }
        ensures visit { Visits N.table self.new cpu.new }
    {
        let cpu_number = cpu.number();
        prove_sizes(tables); // A CPU's number fits a byte.
        let Some(block) = self.zone.take(single_order()) else {
            return false;
        };
        let Some(frame) = tables.words.frame(block.at) else {
            unreachable!()
        };
        let at = frame.number();
        cpu.borrow(tables, &mut self.past, frame);
        watch_lent(&mut self.watch, cpu_number, at);
        self.frame_states[at as usize] = FrameState::Lent(cpu_number as u8);
        true
    }

    /// Lends up to `batch` free frames to the visited CPU, one after the other, and returns how many it lent. They are
    /// added to the end of its list, which has room for them: listed and fresh frames are at most 256.
    pub fn refill(&mut self, tables: &Tables<N>, cpu: &mut CpuLists<N>, batch: u32) -> u32
        requires visit { Visits N.table self.old cpu.old }
        requires room { HasListRoom cpu.old batch }
        ensures at_most { result ≤ batch }
        ensures refills { Refills N.table result (visit_state self.old cpu.old) (visit_state self.new cpu.new) }
        ensures fewer_only_at_the_end { result < batch → HasNoneFrom self.new.blocks 0 }
        ensures visit { Visits N.table self.new cpu.new }
    {
        for lent in 0..batch {
            if !self.lend_one(tables, cpu) {
                return lent;
            }
        }
        batch
    }

    /// Lends this free frame to the visited CPU, at the end of its list. The list has room for it: listed and fresh
    /// frames are at most 256.
    pub fn lend(&mut self, tables: &Tables<N>, cpu: &mut CpuLists<N>, frame: Frame)
        requires visit { Visits N.table self.old cpu.old }
        requires frame { frame < N.table.frames }
        requires free { frame_state_at self.old.frame_states frame ≡ Free }
        requires room { HasListRoom cpu.old 1 }
        ensures lends { LendsFrame frame (visit_state self.old cpu.old) (visit_state self.new cpu.new) }
        ensures visit { Visits N.table self.new cpu.new }
        ensures steps { Makes N.table self.old (lend_steps cpu.old.number frame) self.new }
    {
        let cpu_number = cpu.number();
        prove_sizes(tables); // A CPU's number fits a byte.
        let given = frame.number();
        self.zone.take_frame(given);
        cpu.borrow(tables, &mut self.past, frame);
        watch_lent(&mut self.watch, cpu_number, given);
        self.frame_states[given as usize] = FrameState::Lent(cpu_number as u8);
    }

    // Frees the front of the CPU's list, if there is one.
    fn unlist_one(&mut self, tables: &Tables<N>, cpu: &mut CpuLists<N>) -> bool
        requires { Visits N.table self.old cpu.old }
        ensures takes { UnlistsIfListed N.table result (visit_state self.old cpu.old) (visit_state self.new cpu.new) }
        ensures visit { Visits N.table self.new cpu.new }
    {
        let cpu_number = cpu.number();
        let Some(frame) = cpu.pass_front(tables, &mut self.past) else {
            return false;
        };
        collect_passed(tables, &mut self.past, &mut self.watch, cpu_number, frame);
        let at = frame.number();
        self.frame_states[at as usize] = FrameState::Free;
        self.zone.give(Block {
            at,
            order: single_order(),
        });
        true
    }

    /// Returns up to `count` frames from the front of the visited CPU's list to the zone, one after the other, and
    /// reports how many. They are free again.
    pub fn drain_list(&mut self, tables: &Tables<N>, cpu: &mut CpuLists<N>, count: u32) -> u32
        requires { Visits N.table self.old cpu.old }
        ensures at_most { result ≤ count }
        ensures listed { result ≤ length cpu.old.list }
        ensures takes { UnlistsMany (take result cpu.old.list) (visit_state self.old cpu.old)
            (visit_state self.new cpu.new) }
        ensures fewer_only_at_the_end { result < count → cpu.new.list ≡ [] }
        ensures visit { Visits N.table self.new cpu.new }
        ensures steps { Makes N.table self.old (unlist_front_steps result (visit_state self.old cpu.old)) self.new }
    {
        for taken in 0..count {
            if !self.unlist_one(tables, cpu) {
                return taken;
            }
        }
        count
    }
}
