//! Commands that are served by value: a caller that owns the state behind the lock doesn't need the lock.

ghost use Rattle.std.specs.Prelude.{◌≡◌};

use crate::life::{SIZES, expect_true, nothing_was_charged};
use cpu_part::BootName;
use group_tree::fault::Fault;
use group_tree::group::GroupId;
use mem_system::{Boot, Outcome, TextCommand, boot, end, serve_text};
use std::alloc::Global;
use std::marker::Brand;
use std::process::Abort;

// CPU 1 makes a group by value, and the boot ends.
fn serves_by_value<N: BootName, R: Abort>(rt: &R, alloc: Global, boot: Boot)
    requires { boot.table ≡ N.table }
{
    let (mut locked, tables, mut cpus) = boot.into_parts::<N>(alloc).expect(rt, "memory");
    let path: &[u8] = b"/a";
    expect_true(rt, locked.find(path).is_none());
    if let Some(cpu) = cpus.first_mut() {
        let mkdir = TextCommand::Mkdir { path };
        let made = serve_text(&mut locked, &tables, cpu, &mkdir);
        expect_true(rt, GroupId::of(1).map(Outcome::Group) == Some(made));
        let again = serve_text(&mut locked, &tables, cpu, &mkdir);
        expect_true(rt, again == Outcome::Refused(Fault::Exists));
    }
    expect_true(rt, locked.find(path) == GroupId::of(1));
    match end(locked, tables, cpus) {
        Ok(audit) => expect_true(rt, audit == nothing_was_charged()),
        Err(_pinned) => panic!(rt; "pins remain"),
    }
}

#[test]
fn a_command_is_served_by_value(rt: HostRuntime) {
    let boot = boot(rt.alloc(), SIZES).expect(&rt, "a boot");
    serves_by_value::<Brand, _>(&rt, rt.alloc(), boot);
}
