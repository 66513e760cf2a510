//! Where and why a run stops.
ghost use Rattle.std.specs.Prelude.{◌≡◌, Some};
ghost use Rattle.settlement.specs.Faults.{fault_at, run_fault_words, run_refusal_field, run_refusal_layer, run_refusal_number, run_refusal_words};
ghost use Rattle.settlement.specs.declared.fault.RunRefusal.TheVariants as refused;

use fields::Place;
use group::BookRefusal;
use journal::{LineFault, ReadRefusal};
use std::error::Error;
use std::fmt;

// The line of a fault until the loop over the lines tells it.
pub(crate) const NO_LINE: usize = 0;

/// Which part of a run a fault comes from.
#[derive(Clone, Copy, PartialEq, Eq, Debug)]
pub enum Layer {
    /// The book.
    Book,
    /// The text.
    Text,
}

/// Why a run stops.
#[derive(Clone, Copy, PartialEq, Eq, Debug)]
pub enum RunRefusal {
    /// The text is too long for a journal, or does not begin with the line of names.
    Journal,
    /// The line has not its form.
    Line(ReadRefusal),
    /// The book refuses what the line says.
    Book(BookRefusal),
    /// The output has not the room that the line asks for.
    Room,
}

impl RunRefusal {
    /// The refusal's number.
    pub fn number(self) -> u8
        ensures { result ≡ run_refusal_number self }
    {
        match self {
            RunRefusal::Journal => 24,
            RunRefusal::Line(refusal) => refusal.number(),
            RunRefusal::Book(refusal) => refusal.number(),
            RunRefusal::Room => 27,
        }
    }

    /// The number of the first field that has not its form, where a field is meant.
    pub fn field(self) -> Option<usize>
        ensures { result ≡ run_refusal_field self }
    {
        match self {
            RunRefusal::Line(refusal) => refusal.field(),
            _ => None,
        }
    }

    /// The part of the run that refuses.
    pub fn layer(self) -> Layer
        ensures { result ≡ run_refusal_layer self }
    {
        match self {
            RunRefusal::Book(_) => Layer::Book,
            RunRefusal::Journal | RunRefusal::Line(_) | RunRefusal::Room => Layer::Text,
        }
    }
}

// By hand, here and below: a derive of the kit states no words, and these are proved.
impl fmt::Display for RunRefusal {
    ghost output = { λ refusal. Some (run_refusal_words refusal) };

    fn fmt<W: fmt::Write>(&self, f: &mut fmt::Formatter<W>) -> fmt::Result {
        match self {
            RunRefusal::Journal => write!(
                f,
                "the journal is over 65536 bytes, or does not begin with its line of names"
            ),
            RunRefusal::Line(refusal) => write!(f, "{refusal}"),
            RunRefusal::Book(refusal) => write!(f, "{refusal}"),
            RunRefusal::Room => write!(f, "the output has under 4096 bytes left"),
        }
    }
}

impl Error for RunRefusal {}

/// Where and why a run stops.
#[derive(Clone, Copy, PartialEq, Eq, Debug)]
pub struct RunFault {
    /// The line of the journal, counted from 1; 0 until the run tells it.
    pub line: usize,
    /// The number of the first field that has not its form, where a field is meant.
    pub field: Option<usize>,
    /// The part of the run that refuses.
    pub layer: Layer,
    /// The refusal, whole.
    pub refusal: RunRefusal,
}

impl RunFault {
    /// The fault of a refusal at a line.
    pub fn new(line: usize, refusal: RunRefusal) -> RunFault
        ensures { result ≡ fault_at line refusal }
    {
        RunFault {
            line,
            field: refusal.field(),
            layer: refusal.layer(),
            refusal,
        }
    }
}

impl fmt::Display for RunFault {
    ghost output = { λ fault. Some (run_fault_words fault) };

    fn fmt<W: fmt::Write>(&self, f: &mut fmt::Formatter<W>) -> fmt::Result {
        let RunFault {
            line,
            field,
            refusal,
            ..
        } = *self;
        let number = refusal.number();
        let place = Place { line, field };
        write!(f, "{place}: {refusal} ({number})")
    }
}

impl Error for RunFault {}

// Each by hand: a derive would not state the fault that `?` makes.
impl From<LineFault> for RunFault {
    ghost from_gives = { λ fault r. r ≡ fault_at fault.line (refused.Line fault.refusal) };

    fn from(fault: LineFault) -> RunFault {
        RunFault::new(fault.line, RunRefusal::Line(fault.refusal))
    }
}

impl From<BookRefusal> for RunFault {
    ghost from_gives = { λ refusal r. r ≡ fault_at 0 (refused.Book refusal) };

    fn from(refusal: BookRefusal) -> RunFault {
        RunFault::new(NO_LINE, RunRefusal::Book(refusal))
    }
}
