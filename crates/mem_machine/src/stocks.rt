//! Draining and filling the CPUs' stocks.

ghost use Rattle.std.specs.Prelude.{◌≡◌, ◌<◌, [], IsTrue, OnOk, IfErr};
ghost use Rattle.boot_words.specs.Pasts.{IsHeld};
ghost use Rattle.group_tree.specs.Groups.{has_group};
ghost use Rattle.mem_machine.specs.Machines.{IsCpuOf, LacksRoom};
ghost use Rattle.mem_machine.specs.Local.{Makes, StaysVisited, Visits};
ghost use Rattle.mem_machine.specs.Stocks.{AreDrained, AreOwnDrained, FitsStock, IsDrained, stock_group};
ghost use Rattle.mem_machine.specs.Stocks.{AreDrainedIf, Drains, DrainsAllIf, is_chosen, test_of};
ghost use Rattle.mem_machine.specs.Stocks.{DrainsBySteps, DrainsGroup, DrainsNoted, DrainsSubtree};
ghost use Rattle.mem_machine.specs.Stocks.{Fills, RefusesGrant};
ghost use Rattle.mem_machine.specs.Paying.{MayCharge};
ghost use Rattle.mem_machine.specs.Steps.{drain_steps, fill_steps};

use crate::machine::Machine;
use crate::proving::{prove_charges, prove_sizes};
use crate::stepping::make_step;
use crate::subtrees::is_in_subtree;
use cpu_part::{BootName, CpuLists, Tables};
use group_charge::charges::Over;
use group_charge::note::Note;
use group_tree::group::GroupId;
use step_rules::step::{Action, Answer};

// Which stocks a call drains.
#[derive(Clone, Copy)]
enum Stocks {
    // Those of the group itself.
    OfGroup(GroupId),
    // Those of the group and of its descendants.
    OfSubtree(GroupId),
}

impl<N: BootName> Machine<N> {
    /// Drains the stock of any CPU of the boot, and returns how many pages were in it. They are no longer booked to
    /// the stock, nor charged to its group. That CPU may go on with its own calls meanwhile.
    pub fn drain_stock(&mut self, tables: &Tables<N>, cpu: u32) -> u32
        requires cpu { IsCpuOf N.table cpu }
        requires held { IsHeld N.table self.old.run.past }
        ensures drains { Drains N.table cpu result self.old self.new }
        ensures steps { Makes N.table self.old (drain_steps cpu (stock_group N.table self.old cpu) result) self.new }
        ensures visit { StaysVisited N.table self.old self.new }
    {
        prove_charges(&self.charges);
        let pages = tables.words.drain(&mut self.past, cpu);
        self.watch.take(
            0,
            || (Action::DrainStock { cpu }, Answer::Pages(pages as u128)),
        );
        if pages > 0 {
            let Some(group) = self.owners.group(cpu as usize - 1) else {
                unreachable!()
            };
            self.sums[group.number() as usize] -= pages;
            self.charges.uncharge(group, pages);
            make_step(tables, &mut self.past, &mut self.watch, || {
                (Action::Ungrant { group, pages }, Answer::Done)
            });
        }
        pages
    }

    // Drains the stock of the CPU, notes the drain, and returns how many pages were in it.
    fn drain_noted(&mut self, tables: &Tables<N>, cpu: u32) -> u32
        requires cpu { IsCpuOf N.table cpu }
        requires held { IsHeld N.table self.old.run.past }
        ensures drains { DrainsNoted N.table cpu result self.old self.new }
        ensures steps { Makes N.table self.old (drain_steps cpu (stock_group N.table self.old cpu) result) self.new }
        ensures visit { StaysVisited N.table self.old self.new }
    {
        let pages = self.drain_stock(tables, cpu);
        self.notes.note(Note::Stock { cpu, pages });
        pages
    }

    // Whether the CPU's stock is one of these.
    fn is_chosen(&self, stocks: &Stocks, cpu: u32) -> bool
        requires cpu { IsCpuOf N.table cpu }
        ensures { result ≡ is_chosen N.table (test_of stocks.now) self.now cpu }
    {
        let Some(owner) = self.owners.group(cpu as usize - 1) else {
            return false;
        };
        match stocks {
            Stocks::OfGroup(group) => owner == *group,
            Stocks::OfSubtree(group) => is_in_subtree(self.charges.tree(), *group, owner),
        }
    }

    // Drains and notes these stocks, by ascending CPU, and returns how many pages were in them.
    fn drain_chosen(&mut self, tables: &Tables<N>, stocks: &Stocks) -> u64
        requires held { IsHeld N.table self.old.run.past }
        ensures drains { DrainsBySteps N.table (DrainsAllIf N.table (test_of stocks.now) N.table.cpus) result self.old self.new }
        ensures drained { AreDrainedIf N.table (test_of stocks.now) N.table.cpus self.new }
        ensures visit { StaysVisited N.table self.old self.new }
    {
        prove_sizes(tables); // At most 64 stocks have at most 65,535 pages each.
        let mut pages = 0;
        for place in 0..tables.words.cpus() {
            let cpu = place + 1;
            if !self.is_chosen(stocks, cpu) {
                continue;
            }
            pages += u64::from(self.drain_noted(tables, cpu));
        }
        pages
    }

    /// Drains all stocks of groups in the subtree of `group`, empty ones included, and returns how many pages were in
    /// them. The pages are no longer booked to the stocks, nor charged to the groups, and each drain is noted. No other
    /// stock is looked at.
    pub fn drain_stocks(&mut self, tables: &Tables<N>, group: GroupId) -> u64
        requires there { IsTrue (has_group self.old.ledger.groups group) }
        requires held { IsHeld N.table self.old.run.past }
        ensures drains { DrainsSubtree N.table group result self.old self.new }
        ensures drained { AreDrained N.table group self.new }
        ensures visit { StaysVisited N.table self.old self.new }
    {
        self.drain_chosen(tables, &Stocks::OfSubtree(group))
    }

    /// Drains all stocks of the group itself, empty ones included, and returns how many pages were in them. They are
    /// no longer booked to the stocks, nor charged to the group, and each drain is noted. No other stock is looked at.
    pub fn drain_group_stocks(&mut self, tables: &Tables<N>, group: GroupId) -> u64
        requires held { IsHeld N.table self.old.run.past }
        ensures drains { DrainsGroup N.table group result self.old self.new }
        ensures drained { AreOwnDrained N.table group self.new }
        ensures visit { StaysVisited N.table self.old self.new }
    {
        self.drain_chosen(tables, &Stocks::OfGroup(group))
    }

    /// Charges `pages` pages (1 to 65,535) to a group that isn't killed, and fills the visited CPU's stock with them.
    /// That stock is drained, or was never filled. If a limit has no room, the error names the lowest such group, and
    /// nothing changed except what the watch saw. The CPU has no fresh frame. At most 2^32 - 1 pages can be charged in
    /// all; `prove_room` shows that there is room.
    pub fn fill_stock(
        &mut self,
        tables: &Tables<N>,
        cpu: &CpuLists<N>,
        group: GroupId,
        pages: u32,
    ) -> Result<(), Over>
        requires visit { Visits N.table self.old cpu.now }
        requires charges { MayCharge self.old group pages }
        requires pages { FitsStock pages }
        requires none_fresh { cpu.now.fresh ≡ [] }
        requires drained { IsDrained N.table self.old cpu.now.number }
        ensures fills { OnOk result (Fills N.table cpu.now.number group pages self.old self.new) }
        ensures steps { OnOk result (Makes N.table self.old (fill_steps cpu.now.number group pages) self.new) }
        ensures over { IfErr result (λ over. LacksRoom self.old group pages over.group) }
        ensures refused { IfErr result (λ over. RefusesGrant N.table group pages over.group self.old self.new) }
        ensures visit { Visits N.table self.new cpu.now }
    {
        let cpu_number = cpu.number();
        prove_charges(&self.charges);
        if let Err(over) = self.charges.try_charge(group, pages) {
            make_step(tables, &mut self.past, &mut self.watch, || {
                (Action::Grant { group, pages }, Answer::Over(over.group))
            });
            return Err(over);
        }
        make_step(tables, &mut self.past, &mut self.watch, || {
            (Action::Grant { group, pages }, Answer::Granted)
        });
        let owner = group.number();
        tables.words.fill(&mut self.past, cpu_number, owner, pages);
        self.watch.take(
            0,
            || (
                Action::Fill {
                    cpu: cpu_number,
                    group,
                    pages,
                },
                Answer::Done,
            ),
        );
        self.sums[owner as usize] += pages;
        self.owners.set(cpu_number as usize - 1, group);
        Ok(())
    }
}
