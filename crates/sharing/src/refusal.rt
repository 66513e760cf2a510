//! Why a rule's call is turned away.
ghost use Rattle.std.specs.Prelude.{◌≡◌, Some};
ghost use Rattle.sharing.specs.Refusals.{meaning, refusal_text};

use std::error::Error;
use std::fmt;

/// The refusals of a sharing rule's call.
#[derive(Clone, Copy, PartialEq, Eq, Debug)]
pub enum ShareRefusal {
    /// Nobody asks, more than 32 ask, or the shares have too few or too many places.
    Count,
    /// More than 1,000,000,000 kWh are to be shared, or a place asks for more than 2,000,000.
    Size,
}

impl ShareRefusal {
    // By `match`: it is as short as a conversion to a number, and each number stands beside its case.
    /// The refusal's number.
    pub fn number(self) -> u8
        ensures { result ≡ (meaning self).number }
    {
        match self {
            ShareRefusal::Count => 7,
            ShareRefusal::Size => 8,
        }
    }

    // What the refusal stands for, in words.
    fn words(self) -> &'static str
        ensures { result.now ≡ (meaning self).words }
    {
        match self {
            ShareRefusal::Count => "there are not 1 to 32 needs, or not as many places for shares",
            ShareRefusal::Size => "the pool is over 1000000000 kWh or a need over 2000000 kWh",
        }
    }
}

// By hand: a derive of the kit states no words (`thiserror` states no `output`), and these are proved.
impl fmt::Display for ShareRefusal {
    ghost output = { λ refusal. Some (refusal_text (meaning refusal)) };

    fn fmt<W: fmt::Write>(&self, f: &mut fmt::Formatter<W>) -> fmt::Result {
        write!(f, "{}: {}", self.number(), self.words())
    }
}

impl Error for ShareRefusal {}
