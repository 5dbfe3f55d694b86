//! What is written for a refusal.

ghost use Rattle.std.specs.Prelude.{◌≡◌, ◌++◌, IfOk};
ghost use Rattle.std.specs.String.{string_bytes};
ghost use Rattle.reply_texts.specs.Replies.{over_limit_text, refusal_words, refusal_text};

use control_files::number::push_number;
use group_tree::fault::Fault;
use group_tree::group::GroupId;
use group_tree::path::PathText;
use machine_texts::push_characters;
use std::alloc::AllocError;

/// Adds the line of a refusal: its number and its name. It fails only if memory runs out.
pub fn write_refusal(fault: &Fault, text: &mut String) -> Result<(), AllocError>
    ensures { IfOk result (λ _. string_bytes text.new ≡ string_bytes text.old ++ refusal_text fault.now) }
{
    text.push_str(refusal_line(fault))
}

// The line of a charge over the limit of a group, which has this path.
pub(crate) fn write_over_limit(
    group: GroupId,
    path: &PathText,
    text: &mut String,
) -> Result<(), AllocError>
    ensures { IfOk result (λ _. string_bytes text.new ≡ string_bytes text.old ++ over_limit_text group path.now) }
{
    push_words(&Fault::OverLimit { group }, text)?;
    text.push_str(" ")?;
    push_characters(path.as_bytes(), text)?;
    text.push_str("\n")
}

// The words of a refusal, without a line feed.
fn push_words(fault: &Fault, text: &mut String) -> Result<(), AllocError>
    ensures { IfOk result (λ _. string_bytes text.new ≡ string_bytes text.old ++ refusal_words fault.now) }
{
    text.push_str("refused ")?;
    push_number(u64::from(fault.number()), text)?;
    text.push_str(" ")?;
    text.push_str(fault.name())
}

// The line of a refusal, whole. In most scripts many lines are refused, and a number and a name that are added piece by
// piece cost several times as much.
fn refusal_line(fault: &Fault) -> &'static str
    ensures { result.now ≡ refusal_text fault.now }
{
    match fault {
        Fault::NoParent => "refused 1 NoParent\n",
        Fault::Exists => "refused 2 Exists\n",
        Fault::BadName => "refused 3 BadName\n",
        Fault::TreeFull => "refused 4 TreeFull\n",
        Fault::TooDeep => "refused 5 TooDeep\n",
        Fault::NoGroup => "refused 6 NoGroup\n",
        Fault::HasChildren => "refused 7 HasChildren\n",
        Fault::Busy => "refused 8 Busy\n",
        Fault::PinsFull => "refused 9 PinsFull\n",
        Fault::NoFile => "refused 10 NoFile\n",
        Fault::ReadOnly => "refused 11 ReadOnly\n",
        Fault::BadLimit => "refused 12 BadLimit\n",
        Fault::BadNumber => "refused 13 BadNumber\n",
        Fault::BadConfig => "refused 14 BadConfig\n",
        Fault::OverLimit { .. } => "refused 15 OverLimit\n",
        Fault::NoFrames => "refused 16 NoFrames\n",
        Fault::Again => "refused 17 Again\n",
        Fault::Killed => "refused 18 Killed\n",
        Fault::BadOrder => "refused 19 BadOrder\n",
        Fault::NotKept => "refused 20 NotKept\n",
        Fault::NotPinned => "refused 21 NotPinned\n",
        Fault::WriteOnly => "refused 22 WriteOnly\n",
    }
}
