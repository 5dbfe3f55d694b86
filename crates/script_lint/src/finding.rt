//! What is found in a script: the lines that are bad, and why.

use script_lines::verb::Verb;

/// Why no good line goes on at some byte. The first that holds there is found, in this order.
#[derive(Clone, Copy, PartialEq, Eq)]
pub enum Cause {
    /// The text begins with the byte order mark of UTF-8.
    ByteOrderMark,
    /// The text is UTF-16: it begins with the byte order mark of UTF-16, or there is a byte 0.
    WideText,
    /// The text begins as a file of gzip does.
    Gzip,
    /// A comment doesn't begin the line.
    LateComment,
    /// The line doesn't begin with the number of a CPU, and isn't `go`.
    NoCpu,
    /// There is no CPU of this number.
    CpuOutOfRange,
    /// No command has this name.
    UnknownCommand,
    /// The line ends, and something is due.
    TooFewWords,
    /// A word follows the last one that is due.
    TooManyWords,
    /// There are two spaces.
    TwoSpaces,
    /// A space is at the beginning or at the end of the line.
    SpaceAtEnd,
    /// There is a tab.
    Tab,
    /// There is a carriage return.
    CarriageReturn,
    /// There is no number of 32 bits.
    NumberOutOfRange,
    /// The zone has no frame of this number.
    FrameOutOfZone,
    /// No group of the zone can have this number.
    GroupOutOfRange,
    /// A path or a file's name has a byte outside the printable ASCII.
    UnprintableByte,
    /// The line has more than 1,024 bytes.
    LineTooLong,
    /// The script has more than 1,048,576 bytes, and this line has the byte after them.
    InputTooLong,
    /// There was a `go` before.
    SecondGo,
}

/// Where a line goes wrong.
#[derive(Clone, Copy, PartialEq, Eq)]
pub struct Spot {
    /// How many bytes of the line are right: the next one, or the end of the line, is where it goes wrong.
    pub place: usize,
    /// Why.
    pub cause: Cause,
}

/// A bad line.
#[derive(Clone, Copy, PartialEq, Eq)]
pub struct Finding<'a> {
    /// The number of the line, from 1.
    pub line: usize,
    /// The text of the line.
    pub text: &'a [u8],
    /// Where it goes wrong.
    pub spot: Spot,
    /// The command that may be meant, if the line names none.
    pub near: Option<Verb>,
}
