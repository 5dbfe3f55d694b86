//! The lines that the README of `group_charge` shows.

use crate::calls::{charge_pages, expect_group, expect_true};
use group_charge::charges::{Charges, Over};
use group_tree::event::EventKey;
use group_tree::group::GroupId;
use std::process::Abort;
use std::test::Fail;

// The group has five pages, and its limit refused one charge.
fn tells_five_pages(rt: &impl Abort, charges: &Charges, web: GroupId) {
    expect_group(rt, charges.tree(), web);
    expect_true(rt, charges.current(web) == 5);
    expect_true(rt, charges.peak(web) == 5);
    expect_true(rt, charges.events(web).count(EventKey::Max) == 1);
}

#[test]
fn the_first_lines_of_use(rt: HostRuntime) -> Result<(), Fail> {
    let mut charges = Charges::new(rt.alloc(), 8)?;
    let web = charges.make(b"/web")?;
    charges.set_max(web, Some(8));
    charge_pages(&rt, &mut charges, web, 5, Ok(()));
    charge_pages(&rt, &mut charges, web, 4, Err(Over { group: web }));
    tells_five_pages(&rt, &charges, web);
    Ok(())
}
