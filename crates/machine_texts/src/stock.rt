//! One CPU's stock, and how many frames and pins it has.

ghost use Rattle.std.specs.Prelude.{◌≡◌, ◌++◌, None, IfOk, IsTrue, MatchOption};
ghost use Rattle.std.specs.String.{string_bytes};
ghost use Rattle.control_files.specs.Strings.{AddsBytes};
ghost use Rattle.group_tree.specs.Groups.{has_group, path_of};
ghost use Rattle.machine_texts.specs.Stock.{counts_text, cpu_text, owner_text, stock_text};

use crate::characters::push_characters;
use control_files::text::PAGE_BYTES;
use cpu_part::{BootName, CpuLists};
use group_tree::group::GroupId;
use group_tree::tree::Tree;
use mem_machine::prove_groups;
use std::alloc::AllocError;
use stock_word::Stock;

/// Adds a line about a CPU that has this stock: the CPU's number, the path of the stock's group with the bytes that are
/// prepaid, and how many frames are on its list, fresh or back, and its pins. In place of the path and the bytes it has
/// `none` if the stock was never filled, and `drained` and the path if it was drained. It fails only if memory runs
/// out.
pub fn write_stock<N: BootName>(
    tree: &Tree,
    cpu: &CpuLists<N>,
    stock: Stock,
    text: &mut String,
) -> Result<(), AllocError>
    ensures { IfOk result (λ _. string_bytes text.new ≡ string_bytes text.old ++ cpu_text tree.now cpu.now stock) }
{
    let number = cpu.number();
    write!(text, "cpu {number} stock ")?;
    write_stock_state(tree, stock, text)?;
    write_counts(cpu, text)?;
    text.push_str("\n")
}

// The stock alone.
fn write_stock_state(tree: &Tree, stock: Stock, text: &mut String) -> Result<(), AllocError>
    ensures { AddsBytes result text.old text.new (stock_text tree.now stock) }
{
    match stock {
        Stock::NoGroup => text.push_str("none"),
        Stock::HeldBy { group, pages } => {
            write_owner(tree, group, text)?;
            let bytes = u64::from(pages) * PAGE_BYTES;
            write!(text, " {bytes}")
        }
        Stock::DrainedOf { group } => {
            text.push_str("drained ")?;
            write_owner(tree, group, text)
        }
    }
}

// The path of the group of this number; a hyphen if there is no such group.
fn write_owner(tree: &Tree, number: u32, text: &mut String) -> Result<(), AllocError>
    ensures { AddsBytes result text.old text.new (owner_text tree.now number) }
{
    match group_of(tree, number) {
        Some(group) => push_characters(tree.path_of(group).as_bytes(), text),
        None => text.push_str("-"),
    }
}

// The group that has this number, if there is one.
fn group_of(tree: &Tree, number: u32) -> Option<GroupId>
    ensures { MatchOption result (path_of tree.now number ≡ None)
        (λ group. (group ≡ number) × IsTrue (has_group tree.now group)) }
{
    prove_groups(tree);
    let Some(group) = GroupId::of(number) else {
        return None;
    };
    if tree.contains(group) {
        Some(group)
    } else {
        None
    }
}

// How many frames and pins the CPU has.
fn write_counts<N: BootName>(cpu: &CpuLists<N>, text: &mut String) -> Result<(), AllocError>
    ensures { AddsBytes result text.old text.new (counts_text cpu.now) }
{
    let list = cpu.list_len();
    let fresh = cpu.fresh_len();
    let back = cpu.back_len();
    let pins = cpu.pin_count();
    write!(text, " list {list} fresh {fresh} back {back} pins {pins}")
}
