//! The lines that the README of `control_files` shows, and what no script can ask.

use crate::calls::{charge_pages, expect_group, expect_true};
use control_files::file::{File, file_text};
use control_files::flag::{read_flag, write_flag};
use control_files::limit::{read_limit, write_limit};
use group_charge::charges::Charges;
use group_tree::fault::Fault;
use group_tree::group::GroupId;
use std::process::Abort;
use std::test::Fail;

// The file of the group has this text.
fn file_reads(rt: &impl Abort, charges: &Charges, group: GroupId, file: File, text: &[u8]) {
    expect_group(rt, charges.tree(), group);
    match file_text(charges, group, file) {
        Ok(found) => expect_true(rt, found.as_bytes() == text),
        Err(_) => expect_true(rt, false),
    }
}

// The lines of the README.
#[test]
fn the_first_lines_of_use(rt: HostRuntime) -> Result<(), Fail> {
    let mut charges = Charges::new(rt.alloc(), 8)?;
    let web = charges.make(b"/web")?;
    charges.set_max(web, read_limit(b"1M\n")?);
    charge_pages(&rt, &mut charges, web, 5, Ok(()));
    file_reads(&rt, &charges, web, File::Max, b"1048576\n");
    file_reads(&rt, &charges, web, File::Current, b"20480\n");
    expect_true(&rt, read_limit(b"1 M") == Err(Fault::BadLimit));
    Ok(())
}

// In a script no value can end with a line feed, so no script tests this.
#[test]
fn limits_and_flags_may_end_with_a_line_feed(rt: HostRuntime) {
    expect_true(&rt, read_limit(b"max\n") == Ok(None));
    expect_true(&rt, write_limit(None).as_bytes() == b"max\n".as_slice());
    expect_true(&rt, read_flag(b" 1\t\n") == Ok(true));
    expect_true(&rt, read_flag(b" \n") == Err(Fault::BadLimit));
    expect_true(&rt, write_flag(true).as_bytes() == b"1\n".as_slice());
}
