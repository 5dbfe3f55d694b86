//! Numbers in texts.

ghost use Rattle.control_files.specs.Strings.{AddsBytes};

use itoa::{Buffer, Integer};
use std::alloc::AllocError;

/// Adds a number in decimal. It fails only if memory runs out.
#[inline(always)]
pub fn push_number<I: Integer>(number: I, text: &mut String) -> Result<(), AllocError>
    ensures { AddsBytes result text.old text.new (I.text number) }
{
    let mut buffer = Buffer::new();
    text.push_str(buffer.format(number))
}
