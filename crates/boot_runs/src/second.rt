//! If a boot fails because memory runs out, the next boot still runs to its end. The same holds for the texts of
//! `show` and `blocks`.
ghost use Rattle.std.specs.Prelude.{◌≡◌};

use crate::life::{SIZES, ends, nothing_was_charged};
use cpu_part::BootName;
use mem_system::{Audit, Boot, Cpu, System, boot};
use std::alloc::Global;
use std::marker::Brand;
use std::process::Abort;
use std::sync::Wait;
use std::test::Fail;

// Starts the boot and shuts it down; None if memory runs out.
fn starts_and_ends<N: BootName, R: Abort>(rt: &R, alloc: Global, boot: Boot) -> Option<Audit>
    requires { boot.table ≡ N.table }
{
    let (system, cpus) = boot.start::<N>(alloc).ok()?;
    Some(ends(rt, system, cpus))
}

// A boot's whole life; None if memory runs out.
fn boots_and_ends<R: Abort>(rt: &R, alloc: Global) -> Option<Audit> {
    let boot = boot(alloc, SIZES).ok()?;
    starts_and_ends::<Brand, _>(rt, alloc, boot)
}

// `tests/gate/refuse-memory` runs this with each of its allocations refused in turn, until the first life ends.
#[test]
fn a_second_boot_lives_where_the_first_was_refused(rt: HostRuntime) -> Result<(), Fail> {
    let mut audit = boots_and_ends(&rt, rt.alloc());
    if audit.is_none() {
        println!(rt; "the first life was refused")?;
        audit = boots_and_ends(&rt, rt.alloc());
    }
    assert!(&rt; audit == Some(nothing_was_charged()));
    Ok(())
}

// The texts of `show` and `blocks` for the first CPU, under the lock; None if memory runs out.
fn tells_both<N: BootName, R: Wait>(
    rt: &R,
    alloc: Global,
    system: &System<N>,
    cpus: &mut [Cpu<N>],
) -> Option<(Vec<u8>, Vec<u8>)> {
    let cpu = cpus.first_mut()?;
    let frames = system.show_text(rt, alloc, cpu).ok()?;
    let blocks = system.blocks_text(rt, alloc, cpu).ok()?;
    Some((frames, blocks))
}

// Starts the boot, gets both texts, and shuts it down; None if memory runs out.
fn starts_and_tells<N: BootName, R: Wait + Abort>(
    rt: &R,
    alloc: Global,
    boot: Boot,
) -> Option<(Vec<u8>, Vec<u8>)>
    requires { boot.table ≡ N.table }
{
    let (system, mut cpus) = boot.start::<N>(alloc).ok()?;
    let told = tells_both(rt, alloc, &system, &mut cpus);
    assert!(rt; ends(rt, system, cpus) == nothing_was_charged());
    told
}

// A boot's whole life with its texts; None if memory runs out.
fn boots_and_tells<R: Wait + Abort>(rt: &R, alloc: Global) -> Option<(Vec<u8>, Vec<u8>)> {
    let boot = boot(alloc, SIZES).ok()?;
    starts_and_tells::<Brand, _>(rt, alloc, boot)
}

// `tests/gate/refuse-memory` runs this too.
#[test]
fn a_second_boot_tells_where_the_first_was_refused(rt: HostRuntime) -> Result<(), Fail> {
    let mut told = boots_and_tells(&rt, rt.alloc());
    if told.is_none() {
        println!(rt; "the first life was refused")?;
        told = boots_and_tells(&rt, rt.alloc());
    }
    let (frames, blocks) = told.expect(&rt, "texts");
    assert!(&rt; frames.as_slice() == b"0-15 free\n".as_slice());
    assert!(&rt; blocks.as_slice() == b"4:0\n".as_slice());
    Ok(())
}
