//! Numbers in texts.

ghost use Rattle.std.specs.Prelude.{◌≡◌, ◌++◌, IfOk};

use itoa::{Buffer, Integer};
use std::alloc::AllocError;

// Adds a number in decimal.
pub(crate) fn push_number<I: Integer>(number: I, text: &mut Vec<u8>) -> Result<(), AllocError>
    ensures { IfOk result (λ _. text.new.items ≡ text.old.items ++ I.text number) }
{
    let mut buffer = Buffer::new();
    text.extend_from_slice(buffer.format(number).as_bytes())
}
