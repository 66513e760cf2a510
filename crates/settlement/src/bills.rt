//! The lines of the output that a line of a journal writes.
ghost use Rattle.std.specs.Prelude.{◌≡◌, ◌+◌, ◌≤◌, length};
ghost use Rattle.group.specs.Groups.{most_members};
ghost use Rattle.cells.specs.Cells.{overwritten_text};
ghost use Rattle.settlement.specs.Steps.{output_room};
ghost use Rattle.settlement.specs.Texts.{bills_text};

use crate::output::{Figures, write_figures};
use calendar::Month;
use ledger::Bill;

// Writes the line of a member's figures from `at` on, where any such line has room, and answers the place after it.
pub(crate) fn write_whole<F: Figures>(
    month: Month,
    place: usize,
    figures: F,
    out: &mut [u8],
    at: usize,
) -> usize
    requires { at + 128 ≤ length out.old }
    ensures end { result ≡ at + length (F.Figures.line month place figures) }
    ensures text { out.new ≡ overwritten_text out.old at (F.Figures.line month place figures) }
    ensures within_128 { length (F.Figures.line month place figures) ≤ 128 }
{
    let Ok(end) = write_figures(month, place, figures, out, at) else {
        unreachable!()
    };
    end
}

// Writes the lines of a month's bills from `at` on, where any 32 such lines have room, and answers the place after them.
pub(crate) fn write_bills(month: Month, bills: &[Bill], out: &mut [u8], at: usize) -> usize
    requires few { length bills.now ≤ most_members }
    requires room { at + output_room ≤ length out.old }
    ensures end { result ≡ at + length (bills_text month bills.now) }
    ensures text { out.new ≡ overwritten_text out.old at (bills_text month bills.now) }
    ensures within_room { length (bills_text month bills.now) ≤ output_room }
{
    let mut end = at;
    for (place, bill) in bills.iter().enumerate() {
        end = write_whole(month, place, *bill, out, end);
    }
    end
}
