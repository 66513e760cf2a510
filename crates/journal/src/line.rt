//! What a line of a journal says.

use ledger::Entry;

/// A line of a journal.
#[derive(Clone, Copy, PartialEq, Eq, Debug)]
pub enum Line {
    /// An entry into the open month.
    Enter(Entry),
    /// The issue of the month's bills.
    Issue,
    /// The closing of the year.
    Year,
}
