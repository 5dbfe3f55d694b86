//! A buffer of the host: it gets all of a text, or nothing.

ghost use Rattle.std.specs.Prelude.{◌≡◌, ◌≤◌, ◌↔◌, ◌++◌, IsTrue, drop, false, length, true};

/// Writes the text at the start of the buffer, if the buffer is long enough, and returns whether it is. What follows
/// the text in the buffer stays.
pub fn copy_answers(text: &[u8], buffer: &mut [u8]) -> bool
    ensures fits { IsTrue result ↔ (length text.now ≤ length buffer.old) }
    ensures put { result ≡ true → buffer.new ≡ text.now ++ drop (length text.now) buffer.old }
    ensures stays { result ≡ false → buffer.new ≡ buffer.old }
{
    let length = text.len();
    if length <= buffer.len() {
        buffer[..length].copy_from_slice(text);
        true
    } else {
        false
    }
}
