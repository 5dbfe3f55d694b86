//! The texts that a settled CPU gets of the zone.

ghost use Rattle.zone_threads.specs.Homes.{ServesBehind};
ghost use Rattle.zone_threads.specs.Shown.{SaysText, SaysUnits, SettlesAndSays};
ghost use Rattle.zone_threads.specs.declared.texts.TextCall.TheVariants.{Blocks, Show, Stock};

use crate::behind::Behind;
use cpu_part::{BootName, Tables};
use mem_system::{Cpu, blocks_text, serve_settle, show_text, write_own_stock, write_units_at};
use std::alloc::Global;

/// Which text a thread asks for. Its CPU is settled first.
#[derive(Drop)]
pub enum TextCall {
    /// The place of each frame, and the usage of each group.
    Show,
    /// The free blocks.
    Blocks,
    /// The CPU's stock, and how many frames and pins it has.
    Stock,
    /// The kept units of the group of this path.
    Units { path: Vec<u8> },
}

/// What it gets.
#[derive(Drop)]
pub enum TextAnswer {
    /// The text.
    Text(Vec<u8>),
    /// No group has the path.
    NoGroup,
    /// Memory ran out.
    NoMemory,
}

impl<N: BootName> Behind<N> {
    /// Settles a CPU, and returns a text.
    pub fn text(
        &mut self,
        alloc: Global,
        tables: &Tables<N>,
        cpu: &mut Cpu<N>,
        asked: TextCall,
    ) -> TextAnswer
        ensures { ServesBehind N.table (SettlesAndSays N.table (SaysText N.table asked result)) self.old self.new
            cpu.old cpu.new }
    {
        match asked {
            TextCall::Show => self.show(alloc, tables, cpu),
            TextCall::Blocks => self.blocks(alloc, tables, cpu),
            TextCall::Stock => self.stock(alloc, tables, cpu),
            TextCall::Units { path } => self.units(alloc, tables, cpu, &path),
        }
    }

    fn show(&mut self, alloc: Global, tables: &Tables<N>, cpu: &mut Cpu<N>) -> TextAnswer
        ensures { ServesBehind N.table (SettlesAndSays N.table (SaysText N.table Show result)) self.old self.new
            cpu.old cpu.new }
    {
        self.locked.prove_quiet();
        let shown = show_text(alloc, &mut self.locked, tables, cpu);
        self.locked.prove_quiet();
        let Ok(text) = shown else {
            return TextAnswer::NoMemory;
        };
        TextAnswer::Text(text)
    }

    fn blocks(&mut self, alloc: Global, tables: &Tables<N>, cpu: &mut Cpu<N>) -> TextAnswer
        ensures { ServesBehind N.table (SettlesAndSays N.table (SaysText N.table Blocks result)) self.old self.new
            cpu.old cpu.new }
    {
        self.locked.prove_quiet();
        let shown = blocks_text(alloc, &mut self.locked, tables, cpu);
        self.locked.prove_quiet();
        let Ok(text) = shown else {
            return TextAnswer::NoMemory;
        };
        TextAnswer::Text(text)
    }

    fn stock(&mut self, alloc: Global, tables: &Tables<N>, cpu: &mut Cpu<N>) -> TextAnswer
        ensures { ServesBehind N.table (SettlesAndSays N.table (SaysText N.table Stock result)) self.old self.new
            cpu.old cpu.new }
    {
        self.locked.prove_quiet();
        serve_settle(&mut self.locked, tables, cpu);
        self.locked.prove_quiet();
        let mut text = String::new(alloc);
        let shown = write_own_stock(&self.locked, cpu, &mut text);
        let Ok(()) = shown else {
            return TextAnswer::NoMemory;
        };
        TextAnswer::Text(text.into_bytes())
    }

    fn units(
        &mut self,
        alloc: Global,
        tables: &Tables<N>,
        cpu: &mut Cpu<N>,
        path: &[u8],
    ) -> TextAnswer
        ensures { ServesBehind N.table (SettlesAndSays N.table (SaysUnits N.table path.now result)) self.old self.new
            cpu.old cpu.new }
    {
        self.locked.prove_quiet();
        serve_settle(&mut self.locked, tables, cpu);
        self.locked.prove_quiet();
        let mut text = String::new(alloc);
        let shown = write_units_at(&mut self.locked, tables, path, &mut text);
        self.locked.prove_quiet();
        let Ok(is_there) = shown else {
            return TextAnswer::NoMemory;
        };
        if !is_there {
            return TextAnswer::NoGroup;
        }
        TextAnswer::Text(text.into_bytes())
    }
}
