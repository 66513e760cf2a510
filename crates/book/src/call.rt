//! The calls that a book takes in one phase alone.

use calendar::Month;

// A call, with what the table of phases asks of it. An entry comes in as it is.
#[derive(Clone, Copy, PartialEq, Eq, Debug)]
pub(crate) enum Call {
    // The opening, in a month.
    Open { start: Month },
    // A drawing, with so many places for its bills.
    Draw { places: usize },
    // An issue, with so many places for its bills, and whether its draft is current.
    Issue { places: usize, current: bool },
    // The closing of a year, or the question of what it would post.
    Close,
}
