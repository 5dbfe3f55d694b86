//! The lines that the README of `group_tree` shows, and the texts of all refusals, also as `--explain` writes them.

ghost use Rattle.std.specs.Prelude.{IsTrue};
ghost use Rattle.group_tree.specs.Groups.{has_group};

use crate::calls::expect_true;
use group_tree::fault::Fault;
use group_tree::group::{GroupId, MAX_GROUPS};
use group_tree::path::PathText;
use group_tree::tree::Tree;
use machine_texts::write_refused;
use std::process::Abort;
use std::test::Fail;

// The lines of the README: the group /web/one below /web.
fn is_one_of_web(rt: &impl Abort, tree: &Tree, web: GroupId, one: GroupId)
    requires { IsTrue (has_group tree.now one) }
{
    assert!(rt; tree.find(b"/web/one") == Some(one));
    assert!(rt; tree.parent(one) == Some(web));
    assert!(rt; tree.path_of(one).as_bytes() == b"/web/one".as_slice());
    assert!(rt; tree.depth(one) == 2);
    goes_up(rt, tree, web, one);
}

// The walk from /web/one up to the root.
fn goes_up(rt: &impl Abort, tree: &Tree, web: GroupId, one: GroupId)
    requires { IsTrue (has_group tree.now one) }
{
    let mut walk = tree.ancestors(one);
    assert!(rt; walk.next() == Some(one));
    assert!(rt; walk.next() == Some(web));
    assert!(rt; walk.next() == Some(GroupId::root()));
    assert!(rt; walk.next() == None);
}

#[test]
fn the_first_lines_of_use(rt: HostRuntime) -> Result<(), Fail> {
    let mut tree = Tree::new(rt.alloc(), 8)?;
    let web = tree.make(b"/web")?;
    let one = tree.make(b"/web/one")?;
    is_one_of_web(&rt, &tree, web, one);
    assert!(rt; tree.make(b"/other/one") == Err(Fault::NoParent));
    Ok(())
}

#[test]
fn a_text_has_at_most_512_bytes(rt: HostRuntime) -> Result<(), Fail> {
    let long = [b'x'; 513];
    expect_true(&rt, PathText::of(&long).is_none());
    let text = PathText::of(&long[..512]).ok_or("too long")?;
    expect_true(&rt, text.as_bytes().len() == 512);
    Ok(())
}

// Number, name and text of each refusal.
const TEXTS: &str = "\
1 NoParent: the parent group is not there
2 Exists: the group is there already
3 BadName: the path is malformed or that of the root
4 TreeFull: there is no room for one more group
5 TooDeep: the path has more than 8 names
6 NoGroup: the group is not there
7 HasChildren: the group has children
8 Busy: the group still has pages
9 PinsFull: the CPU holds too many references
10 NoFile: the group has no such file
11 ReadOnly: the file cannot be written
12 BadLimit: the text is no limit
13 BadNumber: the limit is too great a number
14 BadConfig: the configuration is out of range
15 OverLimit: the charge goes over the limit of a group
16 NoFrames: the zone has no free block that is great enough
17 Again: fewer pages were given back than asked
18 Killed: the group was killed
19 BadOrder: the order is above 10
20 NotKept: the frame is not the head of a kept unit
21 NotPinned: the CPU holds no reference on the frame
22 WriteOnly: the file cannot be read
";

// What the line that explains refusal 12 says beside the text.
const VALUES: &str =
    "; memory.max, memory.high, memory.low, memory.min and memory.reclaim take whole bytes, with K M G T P E, \
    all but the last also max; memory.oom.group takes 0 or 1";

// The refusals, by their numbers.
fn refusals(group: GroupId) -> [Fault; 22] {
    [
        Fault::NoParent,
        Fault::Exists,
        Fault::BadName,
        Fault::TreeFull,
        Fault::TooDeep,
        Fault::NoGroup,
        Fault::HasChildren,
        Fault::Busy,
        Fault::PinsFull,
        Fault::NoFile,
        Fault::ReadOnly,
        Fault::BadLimit,
        Fault::BadNumber,
        Fault::BadConfig,
        Fault::OverLimit { group },
        Fault::NoFrames,
        Fault::Again,
        Fault::Killed,
        Fault::BadOrder,
        Fault::NotKept,
        Fault::NotPinned,
        Fault::WriteOnly,
    ]
}

#[test]
fn each_refusal_has_its_number_name_and_text(rt: HostRuntime) -> Result<(), Fail> {
    let group = GroupId::of(63).ok_or("no group")?;
    expect_true(&rt, GroupId::of(MAX_GROUPS as u32).is_none());
    let mut told = String::new(rt.alloc());
    for fault in refusals(group) {
        let line = format!(in rt.alloc(); "{} {}: {fault}\n", fault.number(), fault.name())?;
        told.push_str(line.as_str())?;
        let mut reason = String::new(rt.alloc());
        write_refused(&fault, None, &mut reason)?;
        let values = match fault {
            Fault::BadLimit => VALUES,
            _ => "",
        };
        let shown = format!(in rt.alloc(); "# refused {}: {fault}{values}\n", fault.number())?;
        expect_true(&rt, reason.as_str() == shown.as_str());
    }
    expect_true(&rt, told.as_str() == TEXTS);
    Ok(())
}
