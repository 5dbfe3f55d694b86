//! The end of a boot: every pin that is still held is put, the boot ends, and its counts are reported.

ghost use Rattle.std.specs.Prelude.{◌≡◌, ◌++◌, ◌≤◌, OnOk, length};
ghost use Rattle.std.specs.String.{string_bytes};
ghost use Rattle.step_rules.specs.State.{times};
ghost use Rattle.mem_system.specs.Ends.{ForEachCpu, machine_and_cpu};
ghost use Rattle.script_replay.specs.Lines.{system_state};
ghost use Rattle.load_run.specs.Ending.{EndsChecked, EndsHeld, LeavesNothing, PutsAllPins, PutsHeldPin};
ghost use Rattle.load_run.specs.Ending.{audit_counts_text, audit_places_text, audit_text, held_text};

use cpu_part::{BootName, Tables};
use frame_word::{Frame, Put};
use mem_system::{Audit, Cpu, EmptiedBoot, Locked, Pinned, make_last_visits};
use std::alloc::AllocError;
use step_rules::step::{Action, Answer};

/// What a boot reports at its end.
#[derive(Clone, Copy, Debug, PartialEq, Eq)]
pub struct BootEnd {
    /// The pins that were still held, and were put then.
    pub held: u64,
    /// What was counted.
    pub audit: Audit,
}

/// What the watch saw of all steps of a boot, those of its end included.
#[derive(Clone, Copy, Debug, PartialEq, Eq)]
pub struct CheckedSteps {
    /// Whether each step was legal.
    pub is_legal: bool,
    /// How many steps the watch checked, with the one at which it stopped.
    pub steps: u64,
}

// Puts a pin of the frame. The zone and the CPU see the same run before it and after it, so the zone knows the step after
// all steps before it. The machine's watch takes it.
fn put_pin<N: BootName>(locked: &mut Locked<N>, tables: &Tables<N>, cpu: &mut Cpu<N>, frame: Frame)
    requires pinned { 1 ≤ times frame cpu.old.part.pins }
    ensures puts { PutsHeldPin frame (machine_and_cpu locked.old.machine cpu.old)
        (machine_and_cpu locked.new.machine cpu.new) }
    ensures sizes { locked.new.sizes ≡ locked.old.sizes }
{
    let cpu_number = cpu.number();
    locked.meet(tables, cpu);
    let answer = match cpu.put(tables, frame) {
        Put::Left(left) => Answer::Left(left as u32),
        Put::Last => Answer::Last,
    };
    locked.meet(tables, cpu); // The zone sees the step.
    let frame = frame.number();
    locked.take_step(cpu_number, Action::Put { frame }, answer);
}

// Puts every pin of the CPU.
fn put_pins<N: BootName>(locked: &mut Locked<N>, tables: &Tables<N>, cpu: &mut Cpu<N>)
    ensures puts { PutsAllPins (machine_and_cpu locked.old.machine cpu.old)
        (machine_and_cpu locked.new.machine cpu.new) }
    ensures sizes { locked.new.sizes ≡ locked.old.sizes }
{
    while let Some(frame) = cpu.first_pin() {
        put_pin(locked, tables, cpu, frame);
    }
}

// Puts every pin of the CPUs.
fn put_all_pins<N: BootName>(locked: &mut Locked<N>, tables: &Tables<N>, cpus: &mut [Cpu<N>])
    ensures puts { ForEachCpu PutsAllPins locked.old.machine cpus.old locked.new.machine cpus.new }
    ensures sizes { locked.new.sizes ≡ locked.old.sizes }
{
    for cpu in cpus.iter_mut() {
        put_pins(locked, tables, cpu);
    }
}

// Leaves nothing at any CPU. Pins that are still held are put first; returns how many they were.
pub(crate) fn empty_cpus<N: BootName>(
    locked: Locked<N>,
    tables: Tables<N>,
    cpus: Vec<Cpu<N>>,
) -> (u64, EmptiedBoot<N>)
    requires count { length cpus.items ≡ N.table.cpus }
    ensures leaves { LeavesNothing N.table (system_state locked cpus.items) result.0 result.1 }
{
    match make_last_visits(locked, tables, cpus) {
        Ok(emptied) => (0, emptied),
        Err(pinned) => {
            let Pinned {
                tables,
                mut locked,
                mut cpus,
                pins,
            } = pinned;
            put_all_pins(&mut locked, &tables, &mut cpus);
            match make_last_visits(locked, tables, cpus) {
                Ok(emptied) => (pins, emptied),
                Err(_) => unreachable!(),
            }
        }
    }
}

/// Ends a boot. Pins that are still held are put first.
pub fn end_boot<N: BootName>(locked: Locked<N>, tables: Tables<N>, cpus: Vec<Cpu<N>>) -> BootEnd
    requires count { length cpus.items ≡ N.table.cpus }
    ensures ends { EndsHeld N.table (system_state locked cpus.items) result }
{
    let (held, emptied) = empty_cpus(locked, tables, cpus);
    let audit = emptied.close();
    BootEnd { held, audit }
}

/// Ends a boot as `end_boot` does. Returns also what the machine's watch saw of all steps.
pub fn end_checked_boot<N: BootName>(
    locked: Locked<N>,
    tables: Tables<N>,
    cpus: Vec<Cpu<N>>,
) -> (BootEnd, CheckedSteps)
    requires count { length cpus.items ≡ N.table.cpus }
    ensures ends { EndsChecked N.table (system_state locked cpus.items) result.0 result.1 }
{
    let (held, emptied) = empty_cpus(locked, tables, cpus);
    let seen = CheckedSteps {
        is_legal: emptied.watch().is_legal(),
        steps: emptied.watch().steps(),
    };
    let audit = emptied.close();
    (BootEnd { held, audit }, seen)
}

/// Adds the text of the end: the pins that were held, if there were any, and the counts. It fails only if memory runs
/// out.
pub fn write_boot_end(ended: &BootEnd, text: &mut String) -> Result<(), AllocError>
    ensures told { OnOk result (string_bytes text.new
        ≡ string_bytes text.old ++ (held_text ended.now.held ++ audit_text ended.now.audit)) }
{
    write_held(ended.held, text)?;
    write_audit(&ended.audit, text)
}

// A line with the pins that were held, if there were any.
fn write_held(held: u64, text: &mut String) -> Result<(), AllocError>
    ensures { OnOk result (string_bytes text.new ≡ string_bytes text.old ++ held_text held) }
{
    if held == 0 {
        Ok(())
    } else {
        writeln!(text, "held {held}")
    }
}

// The two lines of what was counted.
fn write_audit(audit: &Audit, text: &mut String) -> Result<(), AllocError>
    ensures { OnOk result (string_bytes text.new ≡ string_bytes text.old ++ audit_text audit.now) }
{
    write_places(audit, text)?;
    write_counts(audit, text)
}

// The line with the number of frames, and how many are free and charged.
fn write_places(audit: &Audit, text: &mut String) -> Result<(), AllocError>
    ensures { OnOk result (string_bytes text.new ≡ string_bytes text.old ++ audit_places_text audit.now) }
{
    let frames = audit.frames;
    let free = audit.free;
    let charged = audit.charged;
    writeln!(text, "audit frames {frames} free {free} charged {charged}")
}

// The line of the units that ended, and that were freed.
fn write_counts(audit: &Audit, text: &mut String) -> Result<(), AllocError>
    ensures { OnOk result (string_bytes text.new ≡ string_bytes text.old ++ audit_counts_text audit.now) }
{
    let puts = audit.last_puts;
    let freezes = audit.freezes;
    let drops = audit.drops;
    let returns = audit.returns;
    writeln!(
        text,
        "audit puts {puts} freezes {freezes} drops {drops} returns {returns}"
    )
}
