//! Taking blocks of frames and charging them to a group.

ghost use Rattle.std.specs.Prelude.{◌≡◌, ◌+◌, ◌^◌, ◌≤◌, IfOk, IfErr, [], length};
ghost use Rattle.mem_machine.specs.Local.{Makes, Visits};
ghost use Rattle.mem_machine.specs.Paying.{MayCharge};
ghost use Rattle.mem_machine.specs.Blocks.{PlacesUnit, TakesBlock, RefusesBlock, block_steps};

use crate::frame_state::FrameState;
use crate::lists::join_list;
use crate::machine::Machine;
use crate::proving::prove_charges;
use crate::publishing::publish;
use crate::stepping::make_step;
use cpu_part::{BootName, CpuLists, Tables};
use frame_word::Frame;
use group_charge::charges::Over;
use group_tree::group::GroupId;
use step_rules::phase::ChargedUnit;
use step_rules::step::{Action, Answer};
use zone_blocks::block::Block;
use zone_blocks::order::Order;

/// Why no block was taken.
#[derive(Clone, Copy)]
pub enum TakeFault {
    /// A limit has no room for the block. It names the lowest such group.
    Over(Over),
    /// There is no free block of this order or above.
    NoBlock,
}

// Records the block as a unit of the group: its first frame is the head, the others are tails.
fn place_unit(frame_states: &mut Vec<FrameState>, block: Block, group: GroupId)
    requires { block.at + 2 ^ block.order ≤ length frame_states.old.items }
    ensures { PlacesUnit group block frame_states.old.items frame_states.new.items }
{
    let first = block.at as usize;
    let end = first + block.order.frames() as usize;
    for frame in first..end {
        frame_states[frame] = FrameState::Tail(group);
    }
    let order = block.order;
    frame_states[first] = FrameState::Head(ChargedUnit { group, order });
}

impl<N: BootName> Machine<N> {
    /// Charges 2^`order` pages to a group that isn't killed, and takes a block of that order for it. The block is in
    /// use: its head, which is returned, has one reference of the zone and is at the newest end of the group's inactive
    /// list. If a limit has no room, the error names the lowest such group, and nothing is charged. If no block is
    /// free, the pages are uncharged again, so only the peaks may be higher. At most 2^32 - 1 pages can be charged in
    /// all; `prove_room` shows that there is room. The CPU has been settled: it has no fresh and no back frame.
    pub fn take_block(
        &mut self,
        tables: &Tables<N>,
        cpu: &mut CpuLists<N>,
        group: GroupId,
        order: Order,
    ) -> Result<Frame, TakeFault>
        requires visit { Visits N.table self.old cpu.old }
        requires charges { MayCharge self.old group (2 ^ order) }
        requires none_fresh { cpu.old.fresh ≡ [] }
        requires none_back { cpu.old.back ≡ [] }
        ensures takes { IfOk result (λ head. TakesBlock group order head self.old self.new) }
        ensures refuses { IfErr result (λ fault. RefusesBlock group order fault self.old self.new) }
        ensures cpu { cpu.new ≡ cpu.old }
        ensures visit { Visits N.table self.new cpu.new }
        ensures steps { Makes N.table self.old (block_steps group order result) self.new }
    {
        let pages = order.frames();
        prove_charges(&self.charges);
        if let Err(over) = self.charges.try_charge(group, pages) {
            make_step(tables, &mut self.past, &mut self.watch, || {
                (Action::Grant { group, pages }, Answer::Over(over.group))
            });
            return Err(TakeFault::Over(over));
        }
        make_step(tables, &mut self.past, &mut self.watch, || {
            (Action::Grant { group, pages }, Answer::Granted)
        });
        let Some(block) = self.zone.take(order) else {
            make_step(tables, &mut self.past, &mut self.watch, || {
                (Action::PlaceBlock { group, order }, Answer::NoFreeBlock)
            });
            self.charges.uncharge(group, pages);
            make_step(tables, &mut self.past, &mut self.watch, || {
                (Action::Ungrant { group, pages }, Answer::Done)
            });
            return Err(TakeFault::NoBlock);
        };
        let Some(head) = tables.words.frame(block.at) else {
            unreachable!()
        };
        place_unit(&mut self.frame_states, block, group);
        make_step(tables, &mut self.past, &mut self.watch, || {
            (Action::PlaceBlock { group, order }, Answer::Placed(block))
        });
        join_list(
            &mut self.links,
            &mut self.lists,
            &mut self.clean,
            group,
            order,
            block.at,
        );
        publish(tables, &mut self.past, &mut self.watch, head);
        Ok(head)
    }
}
