//! A boot of 16 frames and two CPUs starts. Visits make, limit, read and remove a group.
ghost use Rattle.std.specs.Prelude.{◌≡◌, ◌<◌, length};
ghost use Rattle.mem_system.specs.{IsOfZone};

use cpu_part::BootName;
use group_tree::fault::Fault;
use group_tree::group::GroupId;
use mem_system::{Audit, Boot, Cpu, Outcome, System, TextCommand, boot, serve_text, shown_text};
use std::alloc::Global;
use std::marker::Brand;
use std::process::Abort;
use std::sync::Wait;
use zone_blocks::choices::Choices;
use zone_blocks::config::Config;

/// 16 frames and two CPUs.
pub const SIZES: Config = Config {
    frames: 16,
    cpus: 2,
    batch: 4,
    high: 8,
    stock: 4,
    choices: Choices::NONE,
};

/// The condition holds, or the test fails. A call is cheaper to prove than the macro in its place.
pub fn expect_true(rt: &impl Abort, condition: bool) {
    assert!(rt; condition);
}

// The outcome of a visit. This function drops the clauses of `System::visit`, so a caller that needs only the outcome
// doesn't pay for them.
fn visit<N: BootName, R: Wait>(
    rt: &R,
    system: &System<N>,
    cpu: &mut Cpu<N>,
    cmd: &TextCommand<'_>,
) -> Outcome
    requires { IsOfZone N.table cmd.now }
{
    system.visit(rt, cpu, cmd)
}

/// The CPU's visit has this outcome.
pub fn answers<N: BootName, R: Wait + Abort>(
    rt: &R,
    system: &System<N>,
    cpu: &mut Cpu<N>,
    cmd: &TextCommand<'_>,
    outcome: &Outcome,
)
    requires { IsOfZone N.table cmd.now }
{
    let told = visit(rt, system, cpu, cmd);
    expect_true(rt, told == *outcome);
}

// The limit of `/a` reads as this text, which is taken in the same hold of the lock.
fn reads_limit<N: BootName, R: Wait + Abort>(
    rt: &R,
    system: &System<N>,
    cpu: &mut Cpu<N>,
    text: &[u8],
) {
    let path: &[u8] = b"/a";
    let file: &[u8] = b"memory.max";
    let mut guard = system.lock(rt);
    let locked = &mut *guard;
    let read = TextCommand::Read { path, file };
    match serve_text(locked, system.tables(), cpu, &read) {
        Outcome::Text(group, file) => {
            let found = shown_text(locked.charges(), group, file);
            expect_true(rt, found.as_bytes() == text);
        }
        _ => panic!(rt; "no text"),
    }
}

// CPU 1 makes the group, limits it and reads its limit.
fn makes_and_reads<N: BootName, R: Wait + Abort>(rt: &R, system: &System<N>, cpu: &mut Cpu<N>) {
    let path: &[u8] = b"/a";
    let file: &[u8] = b"memory.max";
    let value: &[u8] = b"8K";
    let group = GroupId::of(1).expect(rt, "a group");
    expect_true(rt, system.find(rt, cpu, path).is_none());
    answers(
        rt,
        system,
        cpu,
        &TextCommand::Mkdir { path },
        &Outcome::Group(group),
    );
    expect_true(rt, system.find(rt, cpu, path) == Some(group));
    reads_limit(rt, system, cpu, b"max\n");
    let write = TextCommand::Write { path, file, value };
    answers(rt, system, cpu, &write, &Outcome::Done);
    reads_limit(rt, system, cpu, b"8192\n");
}

// All frames are free, and the group's usage is 0.
fn shows_all_free<N: BootName, R: Wait + Abort>(
    rt: &R,
    alloc: Global,
    system: &System<N>,
    cpu: &mut Cpu<N>,
) {
    let shown = system.show_text(rt, alloc, cpu).expect(rt, "memory");
    expect_true(
        rt,
        shown.as_slice() == b"0-15 free\ncurrent /a 0\n".as_slice(),
    );
    let blocks = system.blocks_text(rt, alloc, cpu).expect(rt, "memory");
    expect_true(rt, blocks.as_slice() == b"4:0\n".as_slice());
}

// CPU 2 finds the group and removes it.
fn removes_group<N: BootName, R: Wait + Abort>(rt: &R, system: &System<N>, cpu: &mut Cpu<N>) {
    let path: &[u8] = b"/a";
    let no_group = Outcome::Refused(Fault::NoGroup);
    expect_true(rt, system.find(rt, cpu, path) == GroupId::of(1));
    answers(
        rt,
        system,
        cpu,
        &TextCommand::Rmdir { path },
        &Outcome::Done,
    );
    answers(rt, system, cpu, &TextCommand::Rmdir { path }, &no_group);
}

/// Shuts the system down, in which no CPU has a pin.
pub fn ends<N: BootName>(rt: &impl Abort, system: System<N>, cpus: Vec<Cpu<N>>) -> Audit
    requires { length cpus.items ≡ N.table.cpus }
{
    match system.shutdown(cpus) {
        Ok(audit) => audit,
        Err(_held) => panic!(rt; "pins remain"),
    }
}

/// The counts of 16 frames if nothing was charged.
pub fn nothing_was_charged() -> Audit {
    Audit {
        frames: 16,
        free: 16,
        charged: 0,
        last_puts: 0,
        freezes: 0,
        drops: 0,
        returns: 0,
    }
}

// The whole life of a system, in which each of the two CPUs is served.
fn serves_each_cpu<N: BootName, R: Wait + Abort>(rt: &R, alloc: Global, boot: Boot)
    requires { boot.table ≡ N.table }
{
    let (system, mut cpus) = boot.start::<N>(alloc).expect(rt, "memory");
    expect_true(rt, cpus.len() == 2);
    let root: &[u8] = b"/";
    let first = cpus.first_mut().expect(rt, "a CPU");
    expect_true(rt, system.find(rt, first, root) == Some(GroupId::root()));
    visits(rt, alloc, &system, &mut cpus);
    expect_true(rt, ends(rt, system, cpus) == nothing_was_charged());
}

// What each of the two CPUs does.
fn visits<N: BootName, R: Wait + Abort>(
    rt: &R,
    alloc: Global,
    system: &System<N>,
    cpus: &mut [Cpu<N>],
) {
    for (at, cpu) in cpus.iter_mut().enumerate() {
        if at == 0 {
            makes_and_reads(rt, system, cpu);
            shows_all_free(rt, alloc, system, cpu);
        } else {
            removes_group(rt, system, cpu);
        }
    }
}

#[test]
fn a_group_is_made_and_read(rt: HostRuntime) {
    let boot = boot(rt.alloc(), SIZES).expect(&rt, "a boot");
    serves_each_cpu::<Brand, _>(&rt, rt.alloc(), boot);
}
