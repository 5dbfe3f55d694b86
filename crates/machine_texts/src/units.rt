//! The kept units of a group.

ghost use Rattle.std.specs.Prelude.{◌≡◌, ◌<◌, [], false, true, IfOk, IsOk, length};
ghost use Rattle.control_files.specs.Strings.{AddsBytes};
ghost use Rattle.mem_machine.specs.{Rests, listed, units_in};
ghost use Rattle.machine_texts.specs.Units.{ReadsLines, ReadsUnits, list_text, order_at, pins_text, rest_text};
ghost use Rattle.machine_texts.specs.Units.{text_if, unit_text};

use cpu_part::{BootName, Tables};
use frame_word::Frame;
use group_tree::group::GroupId;
use lru_lists::record::{Entry, LruList};
use mem_machine::Machine;
use std::alloc::AllocError;

/// Adds a line for each kept unit of the group, or `none`: the inactive ones and then the active ones, each from the
/// oldest to the newest. A line has the unit's first frame, its order, its list, `dirty` and `marked` if it is so, and
/// the number of its pins if there are any. The pins are those that one load of the unit's word found. It fails only if
/// memory runs out; each word was loaded then all the same.
pub fn write_units<N: BootName>(
    machine: &mut Machine<N>,
    tables: &Tables<N>,
    group: GroupId,
    text: &mut String,
) -> Result<(), AllocError>
    requires rests { Rests N.table machine.old }
    ensures units { ReadsUnits N.table group
        (λ shown. AddsBytes result text.old text.new shown) machine.old machine.new }
{
    if keeps_none(machine, group) {
        return text.push_str("none\n");
    }
    let inactive = write_list(machine, tables, group, LruList::Inactive, text);
    let active = write_list(machine, tables, group, LruList::Active, text);
    first_error(inactive, active)
}

// Whether the group keeps no unit.
fn keeps_none<N: BootName>(machine: &Machine<N>, group: GroupId) -> bool
    ensures none { result ≡ true → units_in machine.now group ≡ [] }
    ensures some { result ≡ false → 0 < length (units_in machine.now group) }
{
    let inactive = machine.list_len(group, LruList::Inactive);
    let active = machine.list_len(group, LruList::Active);
    inactive == 0 && active == 0
}

// A line for each unit of one of the group's lists. If memory runs out for a line, the words of the other units are
// loaded all the same.
fn write_list<N: BootName>(
    machine: &mut Machine<N>,
    tables: &Tables<N>,
    group: GroupId,
    list: LruList,
    text: &mut String,
) -> Result<(), AllocError>
    requires rests { Rests N.table machine.old }
    ensures lines { ReadsLines N.table group list
        (λ shown. AddsBytes result text.old text.new shown) machine.old machine.new }
{
    let count = machine.list_len(group, list);
    let mut next = machine.oldest(group, list);
    let mut written = Ok(());
    for _seen in 0..count {
        machine.prove_consistent();
        let Some(entry) = next else { unreachable!() };
        let Some(head) = tables.words.frame(entry.number) else {
            unreachable!()
        };
        next = machine.newer(group, list, head);
        let order = order_of(machine, head);
        let pins = machine.pins_on(tables, head);
        let line = write_unit(list, &entry, order, pins, text);
        written = first_error(written, line);
    }
    written
}

// The first of the two errors, if there is one.
fn first_error(
    first: Result<(), AllocError>,
    second: Result<(), AllocError>,
) -> Result<(), AllocError>
    ensures first { IfOk result (λ _. IsOk first) }
    ensures second { IfOk result (λ _. IsOk second) }
{
    first?;
    second
}

// The order of the unit that the frame heads.
fn order_of<N: BootName>(machine: &Machine<N>, head: Frame) -> u32
    requires { head < N.table.frames }
    ensures { result ≡ order_at machine.now head }
{
    match machine.unit(head) {
        Some(unit) => unit.order.exponent(),
        None => 0,
    }
}

// The line of a unit.
fn write_unit(
    list: LruList,
    entry: &Entry,
    order: u32,
    pins: u32,
    text: &mut String,
) -> Result<(), AllocError>
    ensures { AddsBytes result text.old text.new (unit_text order (listed list entry.now) pins) }
{
    let number = entry.number;
    write!(text, "{number} {order}")?;
    write_of_list(list, text)?;
    write_rest(entry, pins, text)
}

// What follows the list in the line of a unit.
fn write_rest(entry: &Entry, pins: u32, text: &mut String) -> Result<(), AllocError>
    ensures { AddsBytes result text.old text.new (rest_text entry.now pins) }
{
    write_if(entry.is_dirty, " dirty", text)?;
    write_if(entry.is_marked, " marked", text)?;
    write_pins(pins, text)?;
    text.push_str("\n")
}

// The name of the list.
fn write_of_list(list: LruList, text: &mut String) -> Result<(), AllocError>
    ensures { AddsBytes result text.old text.new (list_text list) }
{
    match list {
        LruList::Inactive => text.push_str(" inactive"),
        LruList::Active => text.push_str(" active"),
    }
}

// The word, if it is so.
fn write_if(is_so: bool, word: &str, text: &mut String) -> Result<(), AllocError>
    ensures { AddsBytes result text.old text.new (text_if is_so word.now) }
{
    if is_so {
        text.push_str(word)?;
    }
    Ok(())
}

// The number of pins; nothing for none.
fn write_pins(pins: u32, text: &mut String) -> Result<(), AllocError>
    ensures { AddsBytes result text.old text.new (pins_text pins) }
{
    if pins == 0 {
        return Ok(());
    }
    write!(text, " pins {pins}")
}
