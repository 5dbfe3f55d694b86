//! What the end of a boot needs: how many frames are charged, and that none is lent.

ghost use Rattle.std.specs.Prelude.{◌≡◌, ◌≤◌, []};
ghost use Rattle.mem_machine.specs.Local.{Holds};
ghost use Rattle.mem_machine.specs.Places.{frames_in_groups, NoneLentTo};

use crate::machine::Machine;
use crate::proving::{prove_charges, prove_sizes};
use cpu_part::{BootName, CpuLists, Tables};
use group_tree::group::GroupId;

impl<N: BootName> Machine<N> {
    /// How many frames are charged to a group. The sum is taken over the groups' charges: a zone has room for at most
    /// `MAX_GROUPS` groups, but for up to 1,048,576 frames.
    pub fn count_charged(&self, tables: &Tables<N>) -> u32
        ensures charged { result ≡ frames_in_groups self.now.frame_states }
        ensures at_most { result ≤ N.table.frames }
    {
        prove_sizes(tables);
        prove_charges(&self.charges);
        let mut charged = 0;
        for number in 0..self.room() {
            charged += self.frames_of(GroupId::of(number).unwrap());
        }
        charged as u32
    }

    /// Shows that no frame is lent to the CPU that holds the lock, if it has no listed and no fresh frame. It does
    /// nothing.
    pub fn prove_none_lent(&self, cpu: &CpuLists<N>)
        requires holds { Holds N.table self.now cpu.now }
        requires none_listed { cpu.now.list ≡ [] }
        requires none_fresh { cpu.now.fresh ≡ [] }
        ensures { NoneLentTo cpu.now.number self.now.frame_states }
    {
        self.prove_consistent();
        let _number = cpu.number();
    }
}
