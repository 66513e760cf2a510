//! Writes a line of cells into a slice.
ghost use Rattle.std.specs.Prelude.{◌≡◌, ◌+◌, ◌^◌, ◌<◌, ◌≤◌, ◌↔◌, map, length, IsTrue};
ghost use Rattle.cells.specs.Cells.{Puts, WritesWhereItFits, cell_text};
ghost use Rattle.fields.specs.Rows.{line_of};
ghost use Rattle.std.specs.Option.{SomeIff};

use crate::texts::{Buffer, length_of};
use calendar::{Date, Month};
use fields::{COMMA, LINE_FEED};

/// What stands between two commas of a line that is to be written.
#[derive(Clone, Copy, Debug)]
pub enum Cell<'a> {
    /// Nothing, told by a hyphen.
    Missing,
    /// A word.
    Word(&'a [u8]),
    /// A number, with just the digits that it needs.
    Number(u64),
    /// A signed number, with a minus where it is below 0.
    Signed(i64),
    /// A date, as 2024-01-31.
    Date(Date),
    /// A month, as 2024-01.
    Month(Month),
}

/// Writes the cells as a line into the slice from `at` on, and answers the place after it; or none, with the slice as it was, exactly where there is no room.
#[tactic(auto, using(crate::proofs::Joining::joining))]
pub fn write_row(cells: &[Cell<'_>], out: &mut [u8], at: usize) -> Option<usize>
    ensures { WritesWhereItFits out.old at (line_of (map cell_text cells.now)) out.new result }
{
    // A refusal leaves the slice as it was, so the room is looked at before the first byte is written.
    if !has_room(out, at, row_length(cells)?) {
        return None;
    }
    let mut buffer = Buffer::new();
    let mut end = at;
    for (i, cell) in cells.iter().enumerate() {
        if i > 0 {
            end = put(&[COMMA], out, end);
        }
        end = put(buffer.text(*cell), out, end);
    }
    Some(put(&[LINE_FEED], out, end))
}

/// Writes a cell into the slice from `at` on, and answers the place after it; or none, with the slice as it was, exactly where there is no room.
pub fn write_cell(cell: Cell<'_>, out: &mut [u8], at: usize) -> Option<usize>
    ensures { WritesWhereItFits out.old at (cell_text cell.entry) out.new result }
{
    if !has_room(out, at, length_of(cell)) {
        return None;
    }
    let mut buffer = Buffer::new();
    Some(put(buffer.text(cell), out, at))
}

// Whether the slice has room for so many bytes from `at` on.
fn has_room(out: &[u8], at: usize, needed: usize) -> bool
    ensures { IsTrue result ↔ (at + needed ≤ length out.now) }
{
    at.checked_add(needed).is_some_and(|end| end <= out.len())
}

// How many bytes the line of the cells takes, or none where that leaves 64 bits.
#[tactic(auto, using(crate::proofs::Joining::joining))]
fn row_length(cells: &[Cell<'_>]) -> Option<usize>
    ensures { let line = line_of (map cell_text cells.now) in
        SomeIff result (length line < 2 ^ 64) (length line) }
{
    let mut length: usize = 0;
    for cell in cells {
        // One more for the comma or the line feed after the cell.
        length = length.checked_add(length_of(*cell))?.checked_add(1)?;
    }
    // No cells are the line feed alone.
    Some(length.max(1))
}

// Writes the text. A struct of the slice and the place would be no plainer: each contract would say besides that it holds the same slice.
fn put(text: &[u8], out: &mut [u8], at: usize) -> usize
    requires { at + length text.now ≤ length out.old }
    ensures { Puts out.old at text.now out.new result }
{
    // One byte, as a comma, a hyphen or a digit, is set: to copy it would be a call.
    if let [byte] = text {
        out[at] = *byte;
        return at + 1;
    }
    let end = at + text.len();
    out[at..end].copy_from_slice(text);
    end
}
