//! The texts of the machine that a settled CPU gets.

ghost use Rattle.std.specs.Prelude.{◌≡◌, IfOk};
ghost use Rattle.machine_texts.specs.{blocks_text, show_text};
ghost use Rattle.mem_system.specs.Shown.{ReadsUnderLock, SettlesCaller};
ghost use Rattle.mem_system.specs.Commands.{IsSettled};
ghost use Rattle.mem_system.specs.Visits.{EndsVisit, locked_state};

use crate::cpus::Cpu;
use crate::lock::Locked;
use crate::system::System;
use crate::visits::serve_settle;
use cpu_part::{BootName, Tables};
use machine_texts::{write_blocks, write_show};
use std::alloc::{AllocError, Global};
use std::sync::Wait;

/// Serves `Settle`, and then writes a line for each longest run of frames with equal place, and a line for each group
/// except the root with its usage in bytes. `AllocError` is returned if memory runs out: the CPU stays settled, and
/// nothing else changed.
pub fn show_text<N: BootName>(
    alloc: Global,
    locked: &mut Locked<N>,
    tables: &Tables<N>,
    cpu: &mut Cpu<N>,
) -> Result<Vec<u8>, AllocError>
    ensures served { SettlesCaller N.table (locked_state locked.old cpu.old) (locked_state locked.new cpu.new) }
    ensures text { IfOk result (λ text. text.items ≡ show_text locked.new.machine) }
    ensures settled { IsSettled cpu.new.part }
    ensures ends { EndsVisit N.table (locked_state locked.old cpu.old) (locked_state locked.new cpu.new) }
{
    serve_settle(locked, tables, cpu);
    let mut text = String::new(alloc);
    write_show(&locked.machine, &mut text)?;
    Ok(text.into_bytes())
}

/// Serves `Settle`, and then writes a line for each free block, with its order and its first frame, or `none`.
/// `AllocError` is returned if memory runs out: the CPU stays settled, and nothing else changed.
pub fn blocks_text<N: BootName>(
    alloc: Global,
    locked: &mut Locked<N>,
    tables: &Tables<N>,
    cpu: &mut Cpu<N>,
) -> Result<Vec<u8>, AllocError>
    ensures served { SettlesCaller N.table (locked_state locked.old cpu.old) (locked_state locked.new cpu.new) }
    ensures text { IfOk result (λ text. text.items ≡ blocks_text locked.new.machine.blocks) }
    ensures settled { IsSettled cpu.new.part }
    ensures ends { EndsVisit N.table (locked_state locked.old cpu.old) (locked_state locked.new cpu.new) }
{
    serve_settle(locked, tables, cpu);
    let mut text = String::new(alloc);
    write_blocks(&locked.machine, &mut text)?;
    Ok(text.into_bytes())
}

impl<N: BootName> System<N> {
    /// What `show_text` returns, under the lock. No clause can name what lies behind the lock. So the contract says
    /// that some value was there, that the CPU was settled in it, and that the text is that of what was left.
    pub fn show_text<R: Wait>(
        &self,
        rt: &R,
        alloc: Global,
        cpu: &mut Cpu<N>,
    ) -> Result<Vec<u8>, AllocError>
        ensures text { ReadsUnderLock N.table
            (λ machine. IfOk result (λ text. text.items ≡ show_text machine)) cpu.old cpu.new }
        ensures settled { IsSettled cpu.new.part }
    {
        let mut guard = self.lock(rt);
        let locked = &mut *guard;
        locked.prove_quiet();
        let shown = show_text(alloc, locked, &self.tables, cpu);
        locked.prove_quiet();
        shown
    }

    /// What `blocks_text` returns, under the lock, as with `show_text`.
    pub fn blocks_text<R: Wait>(
        &self,
        rt: &R,
        alloc: Global,
        cpu: &mut Cpu<N>,
    ) -> Result<Vec<u8>, AllocError>
        ensures text { ReadsUnderLock N.table
            (λ machine. IfOk result (λ text. text.items ≡ blocks_text machine.blocks)) cpu.old cpu.new }
        ensures settled { IsSettled cpu.new.part }
    {
        let mut guard = self.lock(rt);
        let locked = &mut *guard;
        locked.prove_quiet();
        let shown = blocks_text(alloc, locked, &self.tables, cpu);
        locked.prove_quiet();
        shown
    }
}
