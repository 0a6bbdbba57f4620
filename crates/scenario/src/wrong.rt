//! What is wrong with a line.
ghost use Rattle.std.specs.Prelude.{◌≡◌, Some};
ghost use Rattle.scenario.specs.Wrong.{wrong_text};
ghost use Rattle.scenario.specs.declared.wrong.Stop.TheVariants.{Wrong as StoppedWrong, Memory as StoppedMemory};

use std::alloc::AllocError;
use std::error::Error;
use std::fmt;

/// What should stand in a line and does not, or stands there and should not.
#[derive(Clone, Copy, Debug, PartialEq, Eq)]
pub enum Wrong<'a> {
    /// No line of a scenario begins so.
    Command(&'a str),
    /// No frame has a form of this name.
    Form(&'a str),
    /// Two spaces in a row, or one at the end.
    Gap,
    /// The line ends too early.
    Missing(&'a str),
    /// A word of the form is not the one that stands here.
    Word { wanted: &'a str, found: &'a str },
    /// This should be a number.
    Number(&'a str),
    /// This should be bytes.
    Bytes(&'a str),
    /// The line should have ended before this.
    Rest(&'a str),
}

impl fmt::Display for Wrong<'_> {
    ghost output = { λ x. Some (wrong_text x) };

    fn fmt<W: fmt::Write>(&self, f: &mut fmt::Formatter<W>) -> fmt::Result {
        match *self {
            Wrong::Command(found) => write!(f, "unknown command `{found}`"),
            Wrong::Form(found) => write!(
                f,
                "unknown form `{found}`; a form is conn, ack, nack, udata or frag"
            ),
            Wrong::Gap => write!(f, "words stand apart by one space, and none ends the line"),
            Wrong::Missing(wanted) => write!(f, "too few words: {wanted} should follow"),
            Wrong::Word { wanted, found } => {
                write!(f, "expected the word `{wanted}`, found `{found}`")
            }
            Wrong::Number(found) => {
                write!(f, "`{found}` is not a number; a number is decimal digits")
            }
            Wrong::Bytes(found) => write!(
                f,
                "`{found}` is not bytes; bytes are upper-case pairs without spaces, as AABB, or - for none"
            ),
            Wrong::Rest(found) => write!(f, "too many words: `{found}` follows a whole line"),
        }
    }
}

impl Error for Wrong<'_> {}

/// Why a line is not understood: it is wrong, or memory ran out.
#[derive(Clone, Copy, Debug, PartialEq, Eq)]
pub enum Stop<'a> {
    /// The line is wrong.
    Wrong(Wrong<'a>),
    /// Memory ran out.
    Memory(AllocError),
}

impl<'a> From<Wrong<'a>> for Stop<'a> {
    ghost from_gives = { λ w s. s ≡ StoppedWrong w };

    fn from(wrong: Wrong<'a>) -> Stop<'a> {
        Stop::Wrong(wrong)
    }
}

impl<'a> From<AllocError> for Stop<'a> {
    ghost from_gives = { λ e s. s ≡ StoppedMemory e };

    fn from(error: AllocError) -> Stop<'a> {
        Stop::Memory(error)
    }
}
