//! Why there is no table.
ghost use Rattle.std.specs.Prelude.{◌≡◌, Some};
ghost use Rattle.comparison.specs.Words.{problem_words};
ghost use Rattle.comparison.specs.declared.problem.Problem.TheVariants.{Memory, OfParts, OfRule};

use crate::question::Fault;
use sharing::{PartsRefusal, ShareRefusal};
use std::alloc::{AllocError, AllocFailed};
use std::error::Error;
use std::fmt;

/// Why there is no table.
#[derive(Clone, Copy, PartialEq, Eq, Debug)]
pub enum Problem {
    /// The text asks no question.
    At(Fault),
    /// A rule refused the pool and the needs.
    OfRule(ShareRefusal),
    /// The parts were refused.
    OfParts(PartsRefusal),
    /// There was no memory.
    Memory,
}

// By hand: a derive of the kit states no words (`thiserror` states no `output`), and these are proved.
impl fmt::Display for Problem {
    ghost output = { λ problem. Some (problem_words problem) };

    fn fmt<W: fmt::Write>(&self, f: &mut fmt::Formatter<W>) -> fmt::Result {
        match self {
            Problem::At(fault) => write!(f, "{fault}"),
            Problem::OfRule(refusal) => write!(f, "refused by {refusal}"),
            Problem::OfParts(refusal) => write!(f, "refused by {refusal}"),
            Problem::Memory => write!(f, "there is no memory"),
        }
    }
}

impl Error for Problem {}

// Each `From` by hand: a derive states nothing of the case that `?` makes, and `from_gives` says it.
impl From<ShareRefusal> for Problem {
    ghost from_gives = { λ e r. r ≡ OfRule e };

    fn from(e: ShareRefusal) -> Problem {
        Problem::OfRule(e)
    }
}

impl From<PartsRefusal> for Problem {
    ghost from_gives = { λ e r. r ≡ OfParts e };

    fn from(e: PartsRefusal) -> Problem {
        Problem::OfParts(e)
    }
}

// `AllocError` and `AllocFailed` apart: one for every error of memory would overlap with those of the refusals.
impl From<AllocError> for Problem {
    ghost from_gives = { λ _ r. r ≡ Memory };

    fn from(_e: AllocError) -> Problem {
        Problem::Memory
    }
}

impl<T: Drop> From<AllocFailed<T>> for Problem {
    ghost from_gives = { λ _ r. r ≡ Memory };

    fn from(_e: AllocFailed<T>) -> Problem {
        Problem::Memory
    }
}
