//! The places of the frames, and what the groups use.

ghost use Rattle.std.specs.Prelude.{◌≡◌, ◌*◌, IsTrue};
ghost use Rattle.control_files.specs.{AddsBytes, page_bytes};
ghost use Rattle.group_tree.specs.Groups.{has_group};
ghost use Rattle.group_charge.specs.Charges.{current_of};
ghost use Rattle.machine_texts.specs.Show.{show_text, usage_text};

use crate::characters::push_characters;
use crate::places::write_places;
use control_files::text::PAGE_BYTES;
use cpu_part::BootName;
use group_charge::charges::Charges;
use group_tree::group::{Group, GroupId};
use mem_machine::Machine;
use std::alloc::AllocError;

/// Adds a line for each longest span of frames with equal place, by ascending frame. Then it adds one for each group
/// except the root, in order of making, with its usage in bytes. It fails only if memory runs out.
pub fn write_show<N: BootName>(machine: &Machine<N>, text: &mut String) -> Result<(), AllocError>
    ensures { AddsBytes result text.old text.new (show_text machine.now) }
{
    let charges = machine.charges();
    write_places(machine.frame_states(), charges.tree(), text)?;
    for group in charges.tree().groups() {
        write_usage(charges, group, text)?;
    }
    Ok(())
}

// A line with the usage of a group in bytes; none for the root.
fn write_usage(charges: &Charges, group: &Group, text: &mut String) -> Result<(), AllocError>
    requires { IsTrue (has_group charges.now.groups group.now.number) }
    ensures { AddsBytes result text.old text.new (usage_text charges.now group.now) }
{
    if group.number == GroupId::root() {
        return Ok(());
    }
    let bytes = bytes_used(charges, group.number);
    text.push_str("current ")?;
    push_characters(group.path.as_bytes(), text)?;
    writeln!(text, " {bytes}")
}

// The memory now used by a group and its descendants, in bytes.
fn bytes_used(charges: &Charges, group: GroupId) -> u64
    requires { IsTrue (has_group charges.now.groups group) }
    ensures { result ≡ current_of charges.now group * page_bytes }
{
    u64::from(charges.current(group)) * PAGE_BYTES
}
