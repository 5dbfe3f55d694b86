//! Texts of what a settled CPU finds, under the lock: its stock, and the kept units of a group.

ghost use Rattle.std.specs.Prelude.{◌≡◌, ◌++◌, false, true, IfOk, Ok};
ghost use Rattle.std.specs.String.{string_bytes};
ghost use Rattle.group_tree.specs.Groups.{number_at};
ghost use Rattle.machine_texts.specs.Stock.{stock_line_text};
ghost use Rattle.mem_machine.specs.Showing.{stock_left};
ghost use Rattle.mem_system.specs.Commands.{IsSettled};
ghost use Rattle.mem_system.specs.Shown.{ReadsAfterSettling, UnitsAt};

use crate::cpus::Cpu;
use crate::lock::Locked;
use crate::system::System;
use crate::visits::serve_settle;
use cpu_part::{BootName, Tables};
use machine_texts::{write_stock, write_units};
use std::alloc::AllocError;
use std::sync::Wait;

/// Adds a line about the CPU alone: its stock, and how many frames and pins it has. The CPU has just made a visit, so it
/// has seen its stock as it is. It fails only if memory runs out.
pub fn write_own_stock<N: BootName>(
    locked: &Locked<N>,
    cpu: &Cpu<N>,
    text: &mut String,
) -> Result<(), AllocError>
    requires last { cpu.now.last ≡ stock_left N.table locked.now.machine cpu.now.part.number }
    ensures { IfOk result (λ _. string_bytes text.new
        ≡ string_bytes text.old ++ stock_line_text N.table locked.now.machine cpu.now.part) }
{
    write_stock(locked.charges().tree(), &cpu.part, cpu.last_stock(), text)
}

/// Adds a line for each kept unit of the group of this path, or `none` if it has none, and returns true. If no group
/// has the path, it adds nothing and returns false. The word of each unit is loaded once. It fails only if memory runs
/// out; the words were loaded then all the same.
pub fn write_units_at<N: BootName>(
    locked: &mut Locked<N>,
    tables: &Tables<N>,
    path: &[u8],
    text: &mut String,
) -> Result<bool, AllocError>
    ensures units { UnitsAt N.table (number_at locked.old.machine.ledger.groups path.now)
        ((result ≡ Ok false) × (text.new ≡ text.old))
        (λ shown. IfOk result (λ is_there. (is_there ≡ true)
        × (string_bytes text.new ≡ string_bytes text.old ++ shown)))
        locked.old.machine locked.new.machine }
    ensures sizes { locked.new.sizes ≡ locked.old.sizes }
{
    let Some(group) = locked.find(path) else {
        return Ok(false);
    };
    write_units(&mut locked.machine, tables, group, text)?;
    Ok(true)
}

impl<N: BootName> System<N> {
    /// Settles the CPU, and then adds what `write_own_stock` adds, under the lock. No clause can name what lies behind
    /// the lock. So the contract says that some value was there, that the CPU was settled in it, and that the line is
    /// of what was left. If memory runs out, the text may have a part of it.
    pub fn stock_into<R: Wait>(
        &self,
        rt: &R,
        cpu: &mut Cpu<N>,
        text: &mut String,
    ) -> Result<(), AllocError>
        ensures text { ReadsAfterSettling N.table (λ settled machine.
            (IfOk result (λ _. string_bytes text.new
            ≡ string_bytes text.old ++ stock_line_text N.table settled.locked.machine settled.cpu.part))
            × (machine ≡ settled.locked.machine)) cpu.old cpu.new }
        ensures settled { IsSettled cpu.new.part }
    {
        let mut guard = self.lock(rt);
        let locked = &mut *guard;
        locked.prove_quiet();
        serve_settle(locked, &self.tables, cpu);
        locked.prove_quiet();
        let told = write_own_stock(locked, cpu, text);
        locked.prove_quiet();
        told
    }

    /// Settles the CPU, and then does what `write_units_at` does, under the lock. As with `stock_into`, the contract
    /// says that some value was behind the lock. If memory runs out, the text may have a part of the lines.
    pub fn units_into<R: Wait>(
        &self,
        rt: &R,
        cpu: &mut Cpu<N>,
        path: &[u8],
        text: &mut String,
    ) -> Result<bool, AllocError>
        ensures text { ReadsAfterSettling N.table (λ settled machine.
            UnitsAt N.table (number_at settled.locked.machine.ledger.groups path.now)
            ((result ≡ Ok false) × (text.new ≡ text.old))
            (λ shown. IfOk result (λ is_there. (is_there ≡ true)
            × (string_bytes text.new ≡ string_bytes text.old ++ shown)))
            settled.locked.machine machine) cpu.old cpu.new }
        ensures settled { IsSettled cpu.new.part }
    {
        let mut guard = self.lock(rt);
        let locked = &mut *guard;
        locked.prove_quiet();
        serve_settle(locked, &self.tables, cpu);
        locked.prove_quiet();
        let told = write_units_at(locked, &self.tables, path, text);
        locked.prove_quiet();
        told
    }
}
