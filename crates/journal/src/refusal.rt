//! Why a line is not read or not written.
ghost use Rattle.std.specs.Prelude.{◌≡◌, Some};
ghost use Rattle.journal.specs.Refusals.{line_fault_words, read_refusal_field, read_refusal_number, read_words, write_refusal_number, write_words};
ghost use Rattle.journal.specs.declared.refusal.ReadRefusal.TheVariants.{Form};

use fields::{Place, WrongField};
use std::error::Error;
use std::fmt;

/// The refusal of the reader of a line.
#[derive(Clone, Copy, PartialEq, Eq, Debug)]
pub enum ReadRefusal {
    /// The line has not its line feed or not seven fields.
    Fields,
    /// A field is not spelled as its column asks in a line of this kind.
    Form {
        /// The number of the first such field, counted from 1.
        field: usize,
    },
}

impl ReadRefusal {
    // A `match` is as short as a conversion to a number, and each number stands beside its case.
    /// The refusal's number.
    pub fn number(self) -> u8
        ensures { result ≡ read_refusal_number self }
    {
        match self {
            ReadRefusal::Fields => 25,
            ReadRefusal::Form { .. } => 26,
        }
    }

    /// The number of the first field that has not its form, where a field is meant.
    pub fn field(self) -> Option<usize>
        ensures { result ≡ read_refusal_field self }
    {
        match self {
            ReadRefusal::Fields => None,
            ReadRefusal::Form { field } => Some(field),
        }
    }
}

// By hand, here and below: a derive of the kit states no words, and these are proved.
impl fmt::Display for ReadRefusal {
    ghost output = { λ refusal. Some (read_words refusal) };

    fn fmt<W: fmt::Write>(&self, f: &mut fmt::Formatter<W>) -> fmt::Result {
        match self {
            ReadRefusal::Fields => write!(f, "this is no whole line of seven fields"),
            ReadRefusal::Form { .. } => {
                write!(f, "this is not written as its place in the line asks")
            }
        }
    }
}

impl Error for ReadRefusal {}

/// The fault of a line that is not read.
#[derive(Clone, Copy, PartialEq, Eq, Debug)]
pub struct LineFault {
    /// The number of the line.
    pub line: usize,
    /// Why it is not read.
    pub refusal: ReadRefusal,
}

impl fmt::Display for LineFault {
    ghost output = { λ fault. Some (line_fault_words fault) };

    fn fmt<W: fmt::Write>(&self, f: &mut fmt::Formatter<W>) -> fmt::Result {
        let LineFault { line, refusal } = *self;
        let field = refusal.field();
        let place = Place { line, field };
        write!(f, "{place}: {refusal}")
    }
}

impl Error for LineFault {}

// By hand: a derive would not state the case that `?` makes.
impl From<WrongField> for LineFault {
    ghost from_gives = { λ wrong r. r ≡ record { line = wrong.line; refusal = Form wrong.number } };

    fn from(wrong: WrongField) -> LineFault {
        LineFault {
            line: wrong.line,
            refusal: ReadRefusal::Form {
                field: wrong.number,
            },
        }
    }
}

/// The refusal of a writer of a line.
#[derive(Clone, Copy, PartialEq, Eq, Debug)]
pub enum WriteRefusal {
    /// A number of the line has more than nine digits, or its day is past the last.
    Form,
    /// The slice has not the room that the writer asks for.
    Room,
}

impl WriteRefusal {
    // A `match`, as in `ReadRefusal`.
    /// The refusal's number.
    pub fn number(self) -> u8
        ensures { result ≡ write_refusal_number self }
    {
        match self {
            WriteRefusal::Form => 26,
            WriteRefusal::Room => 27,
        }
    }
}

impl fmt::Display for WriteRefusal {
    ghost output = { λ refusal. Some (write_words refusal) };

    fn fmt<W: fmt::Write>(&self, f: &mut fmt::Formatter<W>) -> fmt::Result {
        match self {
            WriteRefusal::Form => write!(
                f,
                "a number of the line has more than nine digits, or its day comes after 2099"
            ),
            WriteRefusal::Room => {
                write!(
                    f,
                    "no room is left for 64 bytes, the most that a line takes"
                )
            }
        }
    }
}

impl Error for WriteRefusal {}
