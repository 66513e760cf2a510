//! The line of names, the lines of bills and those of year ends.
ghost use Rattle.std.specs.Prelude.{◌≡◌, ℕ, ◌≤◌, List, length, map};
ghost use Rattle.cells.specs.Cells.{cell_text};
ghost use Rattle.fields.specs.Rows.{line_of};
ghost use Rattle.settlement.specs.Output.{WritesText, bill_line, output_names, year_line};

use crate::refusal::OutputRefusal;
use calendar::Month;
use cells::{Cell, write_cell, write_row};
use ledger::{Bill, YearEnd};

const NAMES: &[u8] = b"line,month,place,dayb,nightb,dayc,nightc,drams,debt\n";

/// Writes the line of names of the output from `at` on, and answers the place after it; or refuses, with the slice as it was, exactly where there is no room.
pub fn write_names(out: &mut [u8], at: usize) -> Result<usize, OutputRefusal>
    ensures { WritesText output_names at out.old out.new result }
{
    write_cell(Cell::Word(NAMES), out, at).ok_or(OutputRefusal::Room)
}

/// The figures of a member that have a line of the output: a bill or a year end.
pub trait Figures: Copy {
    // The line of the figures for a month, of the member at a place.
    ghost line: { ℕ → ℕ → Self → List ℕ };

    // The bound stands on the call and is no law, since a law would not know the ranges of the figures.
    /// The cells of the line of the figures for a month, of the member at a place.
    fn cells(self, month: Month, place: usize) -> [Cell<'static>; 9]
        ensures cells { line_of (map cell_text result) ≡ line month place self }
        ensures within_128 { length (line month place self) ≤ 128 };
}

impl Figures for Bill {
    ghost line = { bill_line };

    #[tactic(auto, using(crate::proofs::Lengths::lengths))]
    fn cells(self, month: Month, place: usize) -> [Cell<'static>; 9] {
        [
            Cell::Word(b"BILL"),
            Cell::Month(month),
            Cell::Number(place as u64),
            Cell::Number(self.billed.day as u64),
            Cell::Number(self.billed.night as u64),
            Cell::Number(self.covered.day as u64),
            Cell::Number(self.covered.night as u64),
            Cell::Signed(self.drams),
            Cell::Signed(self.debt),
        ]
    }
}

impl Figures for YearEnd {
    ghost line = { year_line };

    #[tactic(auto, using(crate::proofs::Lengths::lengths))]
    fn cells(self, month: Month, place: usize) -> [Cell<'static>; 9] {
        [
            Cell::Word(b"YEAR"),
            Cell::Month(month),
            Cell::Number(place as u64),
            Cell::Number(self.paid.day),
            Cell::Number(self.paid.night),
            Cell::Missing,
            Cell::Missing,
            Cell::Signed(self.drams),
            Cell::Signed(self.debt),
        ]
    }
}

// The month, the member's place and the figures are the line's own, and are told apart in it; the slice and the place in it are passed as to the writer of rows.
/// Writes the line of a member's figures from `at` on, and answers the place after it; or refuses, with the slice as it was, exactly where there is no room.
pub fn write_figures<F: Figures>(
    month: Month,
    place: usize,
    figures: F,
    out: &mut [u8],
    at: usize,
) -> Result<usize, OutputRefusal>
    ensures written { WritesText (F.line month place figures) at out.old out.new result }
    ensures within_128 { length (F.line month place figures) ≤ 128 }
{
    write_row(&figures.cells(month, place), out, at).ok_or(OutputRefusal::Room)
}
