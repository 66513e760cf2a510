//! Why the call that sets the parts is turned away.
ghost use Rattle.std.specs.Prelude.{◌≡◌, Some};
ghost use Rattle.sharing.specs.Refusals.{parts_meaning, refusal_text};

use std::error::Error;
use std::fmt;

/// The refusal of the call that sets the parts.
#[derive(Clone, Copy, PartialEq, Eq, Debug)]
pub enum PartsRefusal {
    /// The list is not one part for each place, or gives away more than the whole pool.
    Parts,
}

impl PartsRefusal {
    // By `match`: it is as short as a conversion to a number, and each number stands beside its case.
    /// The refusal's number.
    pub fn number(self) -> u8
        ensures { result ≡ (parts_meaning self).number }
    {
        match self {
            PartsRefusal::Parts => 9,
        }
    }

    // What the refusal stands for, in words.
    fn words(self) -> &'static str
        ensures { result.now ≡ (parts_meaning self).words }
    {
        match self {
            PartsRefusal::Parts => "there are not 32 parts, or they add up to over 10000",
        }
    }
}

// By hand: a derive of the kit states no words (`thiserror` states no `output`), and these are proved.
// Like that of `ShareRefusal`: no one `Display` can serve every type of a trait.
impl fmt::Display for PartsRefusal {
    ghost output = { λ refusal. Some (refusal_text (parts_meaning refusal)) };

    fn fmt<W: fmt::Write>(&self, f: &mut fmt::Formatter<W>) -> fmt::Result {
        write!(f, "{}: {}", self.number(), self.words())
    }
}

impl Error for PartsRefusal {}
