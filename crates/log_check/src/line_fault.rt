//! Why no log continues with a line.

ghost use Rattle.std.specs.Prelude.{◌≡◌};
ghost use Rattle.log_check.specs.Verdicts.{begins_as_gzip, is_marked, is_returned, is_wide};

use thiserror::Error;

/// Why no log continues with a line.
#[derive(Clone, Copy, Debug, PartialEq, Eq, Error)]
pub enum LineFault {
    /// The log ends, and no line gave the sizes of the zone.
    #[error("the sizes are missing")]
    NoSizes,
    /// The log ends after a line without a line feed.
    #[error("it has no line feed")]
    NoLineFeed,
    /// The line is too long.
    #[error("it has more than 1024 bytes")]
    TooLong,
    /// The text is that of no line: it begins with the byte order mark of UTF-8.
    #[error("it begins with a UTF-8 byte order mark: a log is plain ASCII")]
    ByteOrderMark,
    /// The text is that of no line: it begins as a file of gzip does.
    #[error("it looks like gzip: a log is plain ASCII")]
    Gzip,
    /// The text is that of no line: it has a byte 0, as UTF-16 has.
    #[error("it looks like UTF-16: a log is plain ASCII")]
    WideText,
    /// The text is that of no line: it ends with a carriage return.
    #[error("it ends with a carriage return: the log has Windows line ends")]
    CarriageReturn,
    /// The text is that of no line for another reason.
    #[error("it is neither a step nor sizes")]
    NoLine,
    /// The sizes of the zone were given before.
    #[error("the sizes were given before")]
    SizesAgain,
    /// A step comes before the sizes of the zone.
    #[error("the sizes come first")]
    StepFirst,
}

impl LineFault {
    ghost use Rattle.std.specs.Prelude.{◌≡◌};
    ghost use Rattle.log_check.specs.Texts.{why_text};
    ghost use Rattle.log_check.specs.Verdicts.{fault_of};

    /// Why a text that is that of no line is none: by its marks of another encoding, if it has one.
    pub(crate) fn of_text(text: &[u8]) -> LineFault
        ensures { result ≡ fault_of text.now }
    {
        if is_marked(text) {
            LineFault::ByteOrderMark
        } else if begins_as_gzip(text) {
            LineFault::Gzip
        } else if is_wide(text) {
            LineFault::WideText
        } else if is_returned(text) {
            LineFault::CarriageReturn
        } else {
            LineFault::NoLine
        }
    }

    /// What follows the number of the line: a colon, the reason, and a line feed.
    pub fn ending(&self) -> &'static str
        ensures { result.now ≡ why_text self.now }
    {
        match self {
            LineFault::NoSizes => ": the sizes are missing\n",
            LineFault::NoLineFeed => ": it has no line feed\n",
            LineFault::TooLong => ": it has more than 1024 bytes\n",
            LineFault::ByteOrderMark => {
                ": it begins with a UTF-8 byte order mark: a log is plain ASCII\n"
            }
            LineFault::Gzip => ": it looks like gzip: a log is plain ASCII\n",
            LineFault::WideText => ": it looks like UTF-16: a log is plain ASCII\n",
            LineFault::CarriageReturn => {
                ": it ends with a carriage return: the log has Windows line ends\n"
            }
            LineFault::NoLine => ": it is neither a step nor sizes\n",
            LineFault::SizesAgain => ": the sizes were given before\n",
            LineFault::StepFirst => ": the sizes come first\n",
        }
    }
}

// Whether the text begins with the byte order mark of UTF-8.
fn is_marked(text: &[u8]) -> bool
    ensures { result ≡ is_marked text.now }
{
    text.starts_with(&[0xEF, 0xBB, 0xBF])
}

// Whether the text begins as a file of gzip does.
fn begins_as_gzip(text: &[u8]) -> bool
    ensures { result ≡ begins_as_gzip text.now }
{
    text.starts_with(&[0x1F, 0x8B])
}

// Whether the text has a byte 0, as the letters of UTF-16 have.
fn is_wide(text: &[u8]) -> bool
    ensures { result ≡ is_wide text.now }
{
    text.contains(&0)
}

// Whether the text ends with a carriage return.
fn is_returned(text: &[u8]) -> bool
    ensures { result ≡ is_returned text.now }
{
    text.last().copied().is_some_and(|byte| byte == b'\r')
}
