//! What stands between two commas of a line, told by its look.
ghost use Rattle.fields.specs.Tokens.{IsTokenOf};

use crate::numbers::{NINE, ZERO};
use crate::separators::HYPHEN;

/// A part of a text by what it looks like, which it need not be.
#[derive(Clone, Copy, Debug)]
pub enum Token<'a> {
    /// A hyphen alone, for what is missing.
    Missing,
    /// What looks like none of the others.
    Word(&'a [u8]),
    /// What begins with a digit or a minus.
    Number(&'a [u8]),
    /// Ten bytes with hyphens where a date has them.
    Date(&'a [u8]),
}

/// The token of a part.
pub fn token_of(part: &[u8]) -> Token<'_>
    ensures { IsTokenOf part.now result }
{
    match part {
        [HYPHEN] => Token::Missing,
        [_, _, _, _, HYPHEN, _, _, HYPHEN, _, _] => Token::Date(part),
        [HYPHEN | ZERO..=NINE, ..] => Token::Number(part),
        _ => Token::Word(part),
    }
}
