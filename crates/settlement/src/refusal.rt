//! Why a line of the output is not written.
ghost use Rattle.std.specs.Prelude.{◌≡◌, Some};
ghost use Rattle.settlement.specs.Output.{output_refusal_number, output_words};

use std::error::Error;
use std::fmt;

/// The refusal of a writer of a line of the output.
#[derive(Clone, Copy, PartialEq, Eq, Debug)]
pub enum OutputRefusal {
    /// The slice has not the room that the writer asks for.
    Room,
}

impl OutputRefusal {
    // A `match` is as short as a conversion to a number, and the number stands beside its case.
    /// The refusal's number.
    pub fn number(self) -> u8
        ensures { result ≡ output_refusal_number self }
    {
        match self {
            OutputRefusal::Room => 27,
        }
    }
}

// By hand: a derive of the kit states no words, and these are proved.
impl fmt::Display for OutputRefusal {
    ghost output = { λ refusal. Some (output_words refusal) };

    fn fmt<W: fmt::Write>(&self, f: &mut fmt::Formatter<W>) -> fmt::Result {
        match self {
            OutputRefusal::Room => write!(f, "the slice has less room than the line asks for"),
        }
    }
}

impl Error for OutputRefusal {}
