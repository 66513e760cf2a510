//! Writes a line of a journal.
ghost use Rattle.std.specs.Prelude.{◌≡◌, ◌≤◌, ◌↔◌, ◌∷◌, decimal, length, map, IsTrue};
ghost use Rattle.calendar.specs.Gregorian.{last_day};
ghost use Rattle.calendar.specs.Dates.{date_of_day};
ghost use Rattle.cells.specs.Cells.{cell_text};
ghost use Rattle.cells.specs.declared.rows.Cell.TheVariants as cells;
ghost use Rattle.ledger.specs.declared.entry.Entry.TheVariants as entries;
ghost use Rattle.journal.specs.Lines.{IsWritable, kind_of, line_text, others};
ghost use Rattle.journal.specs.Words.{flow_word, kind_word, zone_word};
ghost use Rattle.journal.specs.Writing.{WritesLine, WritesBackRead, ReadsBackWritten};
ghost use Rattle.journal.specs.declared.line.Line.TheVariants as lines;

use crate::kind::Kind;
use crate::line::Line;
use crate::refusal::WriteRefusal;
use crate::words::Worded;
use calendar::{Day, LAST_DAY, date_of};
use cells::{Cell, write_row};
use fields::MOST_NUMBER;
use ledger::{Entry, MemberRegister};

/// The room that the writer of a line asks for.
pub const LINE_ROOM: usize = 64;

/// Writes a line of a journal at the slice's start, and answers its length; or refuses and leaves the slice as it was.
pub fn write_line(line: Line, out: &mut [u8]) -> Result<usize, WriteRefusal>
    ensures written { WritesLine line out.old out.new result }
    ensures within_64 { IsWritable line → length (line_text line) ≤ 64 }
    ensures written_then_read { ReadsBackWritten line out.new result }
    ensures read_then_written { WritesBackRead line out.old out.new result }
{
    put_tested(line, out)
}

// Writes the line where its numbers and its day are in range and there is room for any; what else its caller promises follows.
fn put_tested(line: Line, out: &mut [u8]) -> Result<usize, WriteRefusal>
    ensures { WritesLine line out.old out.new result }
{
    if !is_writable(line) {
        return Err(WriteRefusal::Form);
    }
    if out.len() < LINE_ROOM {
        return Err(WriteRefusal::Room);
    }
    // No such line is longer than that, so the writer of the row does not refuse.
    write_row(&cells_of(line), out, 0).ok_or(WriteRefusal::Room)
}

// Whether the numbers of the line have up to nine digits, and its day is one of the calendar.
fn is_writable(line: Line) -> bool
    ensures { IsTrue result ↔ IsWritable line }
{
    match line {
        Line::Enter(entry) => is_entry_writable(entry),
        Line::Issue | Line::Year => true,
    }
}

// The same of an entry.
fn is_entry_writable(entry: Entry) -> bool
    ensures { IsTrue result ↔ IsWritable (lines.Enter entry) }
{
    match entry {
        Entry::Reading {
            register,
            day,
            value,
        } => is_short(register.place as u64) && is_short(value as u64) && day <= LAST_DAY,
        Entry::Change {
            register,
            day,
            value,
            start,
        } => {
            is_short(register.place as u64)
                && is_short(value as u64)
                && is_short(start as u64)
                && day <= LAST_DAY
        }
        Entry::Correction { register, quantity } => {
            is_short(register.place as u64) && is_short(quantity.unsigned_abs() as u64)
        }
        Entry::Payment { place, drams } => is_short(place as u64) && is_short(drams as u64),
    }
}

// Whether a number has up to nine digits.
fn is_short(n: u64) -> bool
    ensures { IsTrue result ↔ (n ≤ 999999999) }
{
    n <= MOST_NUMBER as u64
}

// The cells of a line, by its seven fields.
fn cells_of(line: Line) -> [Cell<'static>; 7]
    requires { IsWritable line }
    ensures { map cell_text result ≡ kind_word (kind_of line) ∷ others line }
{
    match line {
        Line::Enter(entry) => entry_cells(entry),
        Line::Issue => bare_cells(Kind::Issue),
        Line::Year => bare_cells(Kind::Year),
    }
}

// The same of an entry.
fn entry_cells(entry: Entry) -> [Cell<'static>; 7]
    requires { IsWritable (lines.Enter entry) }
    ensures { let line = lines.Enter entry in
        map cell_text result ≡ kind_word (kind_of line) ∷ others line }
{
    match entry {
        Entry::Reading {
            register,
            day,
            value,
        } => register_cells(
            Kind::Reading,
            register,
            [Cell::Number(value as u64), Cell::Missing, date_cell(day)],
        ),
        Entry::Change {
            register,
            day,
            value,
            start,
        } => register_cells(
            Kind::Change,
            register,
            [
                Cell::Number(value as u64),
                Cell::Number(start as u64),
                date_cell(day),
            ],
        ),
        Entry::Correction { register, quantity } => register_cells(
            Kind::Correction,
            register,
            [Cell::Signed(quantity as i64), Cell::Missing, Cell::Missing],
        ),
        Entry::Payment { place, drams } => payment_cells(place, drams),
    }
}

// The cells of a line of this kind for a register, of which these are the last three.
fn register_cells(
    kind: Kind,
    register: MemberRegister,
    rest: [Cell<'static>; 3],
) -> [Cell<'static>; 7]
    ensures { map cell_text result ≡ kind_word kind ∷ decimal register.place
        ∷ zone_word register.zone ∷ flow_word register.flow ∷ map cell_text rest.entry }
{
    let [value, second, date] = rest;
    [
        Cell::Word(kind.word()),
        Cell::Number(register.place as u64),
        Cell::Word(register.zone.word()),
        Cell::Word(register.flow.word()),
        value,
        second,
        date,
    ]
}

// The cells of a payment.
fn payment_cells(place: usize, drams: u32) -> [Cell<'static>; 7]
    ensures { let line = lines.Enter (entries.Payment place drams) in
        map cell_text result ≡ kind_word (kind_of line) ∷ others line }
{
    [
        Cell::Word(Kind::Payment.word()),
        Cell::Number(place as u64),
        Cell::Missing,
        Cell::Missing,
        Cell::Number(drams as u64),
        Cell::Missing,
        Cell::Missing,
    ]
}

// The cells of a line of which no field after the kind is filled.
fn bare_cells(kind: Kind) -> [Cell<'static>; 7]
    ensures { map cell_text result ≡ kind_word kind ∷ others lines.Issue }
{
    let mut cells = [Cell::Missing; 7];
    cells[0] = Cell::Word(kind.word());
    cells
}

// The cell of a day's date, which a writable line has.
fn date_cell(day: Day) -> Cell<'static>
    requires { day ≤ last_day }
    ensures { result ≡ cells.Date (date_of_day day) }
{
    Cell::Date(date_of(day).unwrap())
}
