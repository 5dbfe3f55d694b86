//! The line that says why a command is refused.

ghost use Rattle.std.specs.Prelude.{◌≡◌};
ghost use Rattle.control_files.specs.Strings.{AddsBytes};
ghost use Rattle.machine_texts.specs.Refused.{lent_text, refused_text, sentence_of, values_of};

use crate::parts::push_count;
use group_tree::fault::Fault;
use std::alloc::AllocError;

/// Adds the line of a refusal: its number, its sentence, and what the files take if a text is no value of one. If the
/// refused command names a frame that is lent to a CPU, that CPU is `lent`, and the line names it. It fails only if memory
/// runs out.
pub fn write_refused(fault: &Fault, lent: Option<u32>, text: &mut String) -> Result<(), AllocError>
    ensures { AddsBytes result text.old text.new (refused_text fault.now lent) }
{
    push_count("# refused ", u128::from(fault.number()), text)?;
    text.push_str(": ")?;
    text.push_str(sentence(fault))?;
    text.push_str(values(fault))?;
    push_lent(lent, text)?;
    text.push_str("\n")
}

// What the files take, if a text is no value of one.
fn values(fault: &Fault) -> &'static str
    ensures { result.now ≡ values_of fault.now }
{
    match fault {
        Fault::BadLimit => {
            "; memory.max, memory.high, memory.low, memory.min and memory.reclaim take whole bytes, with K M G \
            T P E, all but the last also max; memory.oom.group takes 0 or 1"
        }
        _ => "",
    }
}

// Adds where a lent frame is.
#[tactic(auto, unfolding(crate::specs::Refused::lent_text))]
fn push_lent(lent: Option<u32>, text: &mut String) -> Result<(), AllocError>
    ensures { AddsBytes result text.old text.new (lent_text lent) }
{
    let Some(cpu) = lent else {
        return Ok(());
    };
    push_count("; it is on CPU ", u128::from(cpu), text)?;
    push_count("'s list, or fresh there until CPU ", u128::from(cpu), text)?;
    text.push_str(" settles")
}

// The sentence of a refusal, as its `Display` has it. What a derive writes has no contract, so the sentences stand here
// once more, and a test compares them.
fn sentence(fault: &Fault) -> &'static str
    ensures { result.now ≡ sentence_of fault.now }
{
    match fault {
        Fault::NoParent => "the parent group is not there",
        Fault::Exists => "the group is there already",
        Fault::BadName => "the path is malformed or that of the root",
        Fault::TreeFull => "there is no room for one more group",
        Fault::TooDeep => "the path has more than 8 names",
        Fault::NoGroup => "the group is not there",
        Fault::HasChildren => "the group has children",
        Fault::Busy => "the group still has pages",
        Fault::PinsFull => "the CPU holds too many references",
        Fault::NoFile => "the group has no such file",
        Fault::ReadOnly => "the file cannot be written",
        Fault::BadLimit => "the text is no limit",
        Fault::BadNumber => "the limit is too great a number",
        Fault::BadConfig => "the configuration is out of range",
        Fault::OverLimit { .. } => "the charge goes over the limit of a group",
        Fault::NoFrames => "the zone has no free block that is great enough",
        Fault::Again => "fewer pages were given back than asked",
        Fault::Killed => "the group was killed",
        Fault::BadOrder => "the order is above 10",
        Fault::NotKept => "the frame is not the head of a kept unit",
        Fault::NotPinned => "the CPU holds no reference on the frame",
        Fault::WriteOnly => "the file cannot be read",
    }
}
