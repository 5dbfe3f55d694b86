//! A boot of the greatest size, 1,048,576 frames and 64 CPUs. The last CPU is lent frames, which the end takes back.
ghost use Rattle.std.specs.Prelude.{◌≡◌};

use crate::life::{answers, ends, expect_true};
use cpu_part::{BootName, Dropped};
use group_tree::group::GroupId;
use mem_system::{Audit, Boot, Cpu, Outcome, System, TextCommand, boot};
use std::alloc::Global;
use std::marker::Brand;
use std::process::Abort;
use std::sync::Wait;
use zone_blocks::choices::Choices;
use zone_blocks::config::Config;

// All sizes are the greatest.
const LARGEST: Config = Config {
    frames: 1_048_576,
    cpus: 64,
    batch: 64,
    high: 256,
    stock: 64,
    choices: Choices::NONE,
};

// All frames are free again. One was paid for and dropped.
const ALL_FREE: Audit = Audit {
    frames: 1_048_576,
    free: 1_048_576,
    charged: 0,
    last_puts: 0,
    freezes: 0,
    drops: 1,
    returns: 1,
};

// An allocation by the CPU lends it this many frames, of which the first is paid for. That one is dropped, to the end
// of the list.
fn is_lent<N: BootName, R: Wait + Abort>(
    rt: &R,
    system: &System<N>,
    cpu: &mut Cpu<N>,
    frames: usize,
) {
    let path: &[u8] = b"/a";
    let group = GroupId::of(1).expect(rt, "a group");
    answers(
        rt,
        system,
        cpu,
        &TextCommand::Mkdir { path },
        &Outcome::Group(group),
    );
    let alloc = TextCommand::Alloc { path, order: 0 };
    answers(rt, system, cpu, &alloc, &Outcome::Frame(0));
    let tables = system.tables();
    let paid = tables.words.frame(0).expect(rt, "a frame");
    assert!(rt; cpu.has_fresh(paid));
    expect_true(rt, cpu.drop_fresh(tables, paid) == Dropped::Listed);
    expect_true(rt, cpu.list_len() == frames && cpu.fresh_len() == 0);
}

// The list of CPU 64 is filled with 64 frames. At the end all frames are free.
fn lends_and_takes_back<N: BootName, R: Wait + Abort>(rt: &R, alloc: Global, boot: Boot)
    requires { boot.table ≡ N.table }
{
    let (system, mut cpus) = boot.start::<N>(alloc).expect(rt, "memory");
    expect_true(rt, cpus.len() == 64);
    lends_to_last(rt, &system, &mut cpus);
    expect_true(rt, ends(rt, system, cpus) == ALL_FREE);
}

// Frames are lent to the last CPU.
fn lends_to_last<N: BootName, R: Wait + Abort>(rt: &R, system: &System<N>, cpus: &mut [Cpu<N>]) {
    let last = cpus.last_mut().expect(rt, "a CPU");
    expect_true(rt, last.number() == 64);
    is_lent(rt, system, last, 64);
}

#[test]
fn frames_are_lent_and_taken_back(rt: HostRuntime) {
    let boot = boot(rt.alloc(), LARGEST).expect(&rt, "a boot");
    lends_and_takes_back::<Brand, _>(&rt, rt.alloc(), boot);
}
