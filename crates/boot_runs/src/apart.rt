//! A system that is taken apart and put together again is unchanged, and so is one that can't be shut down because of
//! a pin.
ghost use Rattle.std.specs.Prelude.{◌≡◌, ◌<◌, length};

use crate::life::{SIZES, answers, ends, expect_true};
use cpu_part::BootName;
use frame_word::{Frame, Get};
use group_tree::group::GroupId;
use mem_system::{Boot, Cpu, Held, Outcome, System, TextCommand, boot};
use std::alloc::Global;
use std::marker::Brand;
use std::process::Abort;
use std::sync::Wait;

// What a host sees: all frames with the usage of the groups, the free blocks, and the number of `/a`.
#[derive(Drop)]
struct Seen {
    frames: Vec<u8>,
    blocks: Vec<u8>,
    group: Option<GroupId>,
}

// What the first CPU sees.
fn seen_by_first_cpu<N: BootName, R: Wait + Abort>(
    rt: &R,
    alloc: Global,
    system: &System<N>,
    cpus: &mut [Cpu<N>],
) -> Seen {
    let cpu = cpus.first_mut().expect(rt, "a CPU");
    let path: &[u8] = b"/a";
    Seen {
        frames: system.show_text(rt, alloc, cpu).expect(rt, "memory"),
        blocks: system.blocks_text(rt, alloc, cpu).expect(rt, "memory"),
        group: system.find(rt, cpu, path),
    }
}

// Both see the same.
fn are_same(rt: &impl Abort, one: &Seen, other: &Seen) {
    expect_true(rt, one.frames.as_slice() == other.frames.as_slice());
    expect_true(rt, one.blocks.as_slice() == other.blocks.as_slice());
    expect_true(rt, one.group == other.group);
}

fn first_frame<N: BootName>(rt: &impl Abort, system: &System<N>) -> Frame
    ensures { result < N.table.frames }
{
    system.tables().words.frame(0).expect(rt, "a frame")
}

// The first CPU makes `/a`, charges frame 0 to it and pins the frame.
fn charges_and_pins<N: BootName, R: Wait + Abort>(rt: &R, system: &System<N>, cpus: &mut [Cpu<N>]) {
    let cpu = cpus.first_mut().expect(rt, "a CPU");
    let path: &[u8] = b"/a";
    let group = GroupId::of(1).expect(rt, "a group");
    let frame = first_frame(rt, system);
    answers(
        rt,
        system,
        cpu,
        &TextCommand::Mkdir { path },
        &Outcome::Group(group),
    );
    answers(
        rt,
        system,
        cpu,
        &TextCommand::Alloc { path, order: 0 },
        &Outcome::Frame(0),
    );
    answers(rt, system, cpu, &TextCommand::Settle, &Outcome::Done);
    let got = cpu.get(system.tables(), frame);
    expect_true(rt, got == Ok(Get::Held));
}

fn unpins<N: BootName, R: Abort>(rt: &R, system: &System<N>, cpus: &mut [Cpu<N>]) {
    let cpu = cpus.first_mut().expect(rt, "a CPU");
    let frame = first_frame(rt, system);
    assert!(rt; cpu.has_pin(frame));
    let _ = cpu.put(system.tables(), frame);
}

// A pin keeps the system from being shut down.
fn shutdown_is_refused<N: BootName>(
    rt: &impl Abort,
    system: System<N>,
    cpus: Vec<Cpu<N>>,
) -> (System<N>, Vec<Cpu<N>>)
    requires { length cpus.items ≡ N.table.cpus }
    ensures { length result.1.items ≡ N.table.cpus }
{
    match system.shutdown(cpus) {
        Ok(_audit) => panic!(rt; "a pin remains"),
        Err(held) => {
            expect_true(rt, held.pins == 1);
            let Held {
                system,
                cpus,
                pins: _,
            } = held;
            (system, cpus)
        }
    }
}

// The life of a system that is taken apart and put together again. Then a pin prevents its shutdown. Neither changes
// it.
fn stays_unchanged<N: BootName, R: Wait + Abort>(rt: &R, alloc: Global, boot: Boot)
    requires { boot.table ≡ N.table }
{
    let (system, mut cpus) = boot.start::<N>(alloc).expect(rt, "memory");
    charges_and_pins(rt, &system, &mut cpus);
    let first = seen_by_first_cpu(rt, alloc, &system, &mut cpus);
    let (locked, tables) = system.into_parts();
    let system = System::of(locked, tables);
    let again = seen_by_first_cpu(rt, alloc, &system, &mut cpus);
    are_same(rt, &first, &again);
    let (system, mut cpus) = shutdown_is_refused(rt, system, cpus);
    let last = seen_by_first_cpu(rt, alloc, &system, &mut cpus);
    are_same(rt, &first, &last);
    unpins(rt, &system, &mut cpus);
    expect_true(rt, ends(rt, system, cpus).charged == 1);
}

#[test]
fn a_system_goes_on_as_it_was(rt: HostRuntime) {
    let boot = boot(rt.alloc(), SIZES).expect(&rt, "a boot");
    stays_unchanged::<Brand, _>(&rt, rt.alloc(), boot);
}
