//! The parts of a text: what its commas separate, where its lines end, its numbers, dates and months.
#![tactic(auto)]

mod column;
mod dates;
mod field;
mod numbers;
mod place;
mod separators;
mod token;

pub use column::{Column, Dated, MOST_NUMBER, Missing, Number, Signed};
pub use dates::{day, month};
pub use field::{Field, WrongField};
pub use numbers::{BASE, ZERO, number, signed_number};
pub use place::Place;
pub use separators::{COMMA, HYPHEN, LINE_FEED, cut, cut_into, line, next_line_feed};
pub use token::{Token, token_of};
