//! A host of a whole system: two CPUs share a zone of 16 frames, with and without its lock. It prints the answers to
//! both.
#![tactic(auto)]

ghost use Rattle.std.specs.Prelude.{◌≡◌, IfOk};
ghost use Rattle.mem_system.specs.{IsOfZone, HasEnded};

use anyhow::{Context, Result, anyhow};
use cpu_part::BootName;
use mem_system::{Boot, Cpu, Outcome, System, SystemEnd, TextCommand, boot, serve_text};
use reply_texts::{write_fast, write_get, write_outcome, write_put};
use std::alloc::Global;
use std::marker::Brand;
use std::sync::Wait;
use zone_blocks::choices::Choices;
use zone_blocks::config::Config;

const SIZES: Config = Config {
    frames: 16,
    cpus: 2,
    batch: 4,
    high: 8,
    stock: 4,
    choices: Choices::NONE,
};

fn main(rt: HostRuntime) -> Result<()> {
    let boot = boot(rt.alloc(), SIZES).ok().context("no boot")?;
    let mut text = String::new(rt.alloc());
    let ended = run_system::<Brand, _>(&rt, rt.alloc(), boot, &mut text)?;
    let (free, charged) = (ended.audit.free, ended.audit.charged);
    println!(rt; "{text}at the end {free} frames are free and {charged} charged")?;
    Ok(())
}

// Starts the boot under a name of its tables, has both CPUs work, and shuts the system down, also if the work failed: a
// `Cpu` must not be dropped.
fn run_system<N: BootName, R: Wait>(
    rt: &R,
    alloc: Global,
    boot: Boot,
    text: &mut String,
) -> Result<SystemEnd>
    requires { boot.table ≡ N.table }
    ensures { IfOk result (HasEnded N.table) }
{
    let (system, mut cpus) = boot.start::<N>(alloc)?;
    let done = run_demo(rt, &system, &mut cpus, text);
    let ended = system.put_and_end(cpus);
    done?;
    Ok(ended)
}

// CPU 1 makes a group with a limit and allocates two frames for it: a dirty one, and one without the lock. CPU 2 takes a
// reference on the first, so that frame outlives its release. Then an allocation reaches the limit, once even the
// second frame was reclaimed, and a file is read.
fn run_demo<N: BootName, R: Wait>(
    rt: &R,
    system: &System<N>,
    cpus: &mut [Cpu<N>],
    text: &mut String,
) -> Result<()> {
    let (first, others) = cpus.split_first_mut().context("no cpu")?;
    let second = others.first_mut().context("no second cpu")?;
    let tables = system.tables();
    let (path, file, value): (&[u8], &[u8], &[u8]) = (b"/web", b"memory.max", b"32K");
    let Outcome::Group(group) = system.visit(rt, first, &TextCommand::Mkdir { path }) else {
        return Err(anyhow!("no group"));
    };
    ask(
        rt,
        system,
        first,
        &TextCommand::Write { path, file, value },
        text,
    )?;
    let Outcome::Frame(number) = system.alloc_dirty(rt, first, path, 0) else {
        return Err(anyhow!("no frame"));
    };
    let shared = tables.words.frame(number).context("no such frame")?;
    write_fast(&first.alloc_fast(tables, group.number()), text)?;
    ask(rt, system, first, &TextCommand::Settle, text)?;
    write_get(&second.get(tables, shared)?, text)?;
    let frame = shared.number();
    ask(rt, system, first, &TextCommand::Release { frame }, text)?;
    if second.has_pin(shared) {
        write_put(&second.put(tables, shared), text)?;
    }
    ask(
        rt,
        system,
        second,
        &TextCommand::Alloc { path, order: 4 },
        text,
    )?;
    let file: &[u8] = b"memory.current";
    ask(rt, system, second, &TextCommand::Read { path, file }, text)
}

// Takes the zone's lock, serves the command, and adds the text of its outcome before the lock is released.
fn ask<N: BootName, R: Wait>(
    rt: &R,
    system: &System<N>,
    cpu: &mut Cpu<N>,
    cmd: &TextCommand<'_>,
    text: &mut String,
) -> Result<()>
    requires { IsOfZone N.table cmd.now }
{
    let mut guard = system.lock(rt);
    let locked = &mut *guard;
    let outcome = serve_text(locked, system.tables(), cpu, cmd);
    Ok(write_outcome(locked.charges(), &outcome, text)?)
}
