//! What the lock's holder can pay with: the pages of its own stock, and the room for more charges.

ghost use Rattle.std.specs.Prelude.{◌≡◌, ℕ, ◌<◌, ◌≤◌, [], length};
ghost use Rattle.stock_word.specs.Stock.{group_base};
ghost use Rattle.mem_machine.specs.Local.{Holds, Makes, Visits, visit_state};
ghost use Rattle.mem_machine.specs.Paying.{HasRoomFor, HoldsPage, IsOfSize, PaysForFront};
ghost use Rattle.mem_machine.specs.Showing.{stock_now};
ghost use Rattle.mem_machine.specs.Steps.{take_front_steps};

use crate::machine::Machine;
use crate::proving::prove_charges;
use cpu_part::{BootName, CpuLists, Tables};
use frame_word::Frame;
use group_tree::group::GroupId;
use step_rules::step::{Action, Answer};
use stock_word::Stock;

impl<N: BootName> Machine<N> {
    /// The stock of the CPU that holds the lock, as it is now: its group, its pages, and whether it was drained.
    /// Another CPU's visit may have drained it since the CPU itself last saw it. This is one load, and no step.
    pub fn look_at_stock(&mut self, tables: &Tables<N>, cpu: &CpuLists<N>) -> Stock
        requires holds { Holds N.table self.old cpu.now }
        ensures stock { result ≡ stock_now N.table self.old cpu.now.number }
        ensures machine { self.new ≡ self.old }
    {
        tables.words.look(&mut self.past, cpu.number())
    }

    /// Shows that 65,535 more pages can be charged in a zone of this size: all frames and all stocks together are far
    /// below 2^32 pages. It does nothing.
    pub fn prove_room(&self)
        requires size { IsOfSize N.table }
        ensures room { (pages : ℕ) → pages < group_base → HasRoomFor self.now pages }
    {
        prove_charges(&self.charges);
    }

    /// Takes the front of the visited CPU's list for `group`, and pays with a page of the CPU's stock, which is of that
    /// group. The frame is fresh now. The CPU has been settled, so no frame was fresh before.
    pub fn take_front(&mut self, tables: &Tables<N>, cpu: &mut CpuLists<N>, group: GroupId) -> Frame
        requires visit { Visits N.table self.old cpu.old }
        requires page { HoldsPage N.table self.old cpu.old.number group }
        requires front { 1 ≤ length cpu.old.list }
        requires none_fresh { cpu.old.fresh ≡ [] }
        ensures pays { PaysForFront N.table group result (visit_state self.old cpu.old)
            (visit_state self.new cpu.new) }
        ensures frame { result < N.table.frames }
        ensures visit { Visits N.table self.new cpu.new }
        ensures steps { Makes N.table self.old (take_front_steps cpu.old.number group) self.new }
    {
        let cpu_number = cpu.number();
        let frame = cpu.take_front(tables, &mut self.past, group.number());
        self.watch
            .take(cpu_number, || (Action::Consume { group }, Answer::Took));
        frame
    }
}
