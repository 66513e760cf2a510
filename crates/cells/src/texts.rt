//! Makes the text of a cell.
ghost use Rattle.std.specs.Prelude.{◌≡◌, ◌+◌, ◌%◌, ◌≤◌, ◌∷◌, [], decimal, length};
ghost use Rattle.cells.specs.Cells.{cell_text};
ghost use Rattle.std.specs.Fmt.{signed_decimal};
ghost use Rattle.fields.specs.Texts.{date_text, four_digits, two_digits};

use crate::rows::Cell;
use calendar::{Date, first_date_of};
use fields::{HYPHEN, ZERO};

const DATE_LENGTH: usize = 10;

const MONTH_LENGTH: usize = 7;

// Holds the text of a cell that is made of a number, a date or a month.
#[derive(Clone, Copy)]
pub(crate) struct Buffer {
    digits: itoa::Buffer,
    date: [u8; DATE_LENGTH],
}

impl Buffer {
    pub(crate) fn new() -> Buffer {
        Buffer {
            digits: itoa::Buffer::new(),
            date: [0; DATE_LENGTH],
        }
    }

    // The text of a cell. No `Display`: std promises nothing of an error of `fmt`, so a writer through it could not say when it answers none.
    pub(crate) fn text<'a>(&'a mut self, cell: Cell<'a>) -> &'a [u8]
        ensures { result.now ≡ cell_text cell.entry }
    {
        match cell {
            Cell::Missing => b"-",
            Cell::Word(word) => word,
            Cell::Number(n) => self.digits.format(n).as_bytes(),
            Cell::Signed(z) => self.digits.format(z).as_bytes(),
            Cell::Date(date) => {
                self.date = date_bytes(date);
                &self.date
            }
            // A month is the front of any date in it.
            Cell::Month(month) => {
                self.date = date_bytes(first_date_of(month));
                &self.date[..MONTH_LENGTH]
            }
        }
    }
}

// How many bytes a cell takes. They are counted: to measure its text would be to make it twice for a line, once to see that there is room.
pub(crate) fn length_of(cell: Cell<'_>) -> usize
    ensures { result ≡ length (cell_text cell.entry) }
{
    match cell {
        Cell::Missing => 1,
        Cell::Word(word) => word.len(),
        Cell::Number(n) => digits(n),
        Cell::Signed(z) => signed_length(z),
        Cell::Date(_) => DATE_LENGTH,
        Cell::Month(_) => MONTH_LENGTH,
    }
}

// How many digits a number needs.
fn digits(n: u64) -> usize
    ensures digits { result ≡ length (decimal n) }
    ensures few { result ≤ 20 }
{
    match n.checked_ilog10() {
        Some(power) => power as usize + 1,
        None => 1,
    }
}

// How many bytes a signed number takes.
fn signed_length(z: i64) -> usize
    ensures { result ≡ length (signed_decimal z) }
{
    let digits = digits(z.unsigned_abs());
    if z < 0 { digits + 1 } else { digits }
}

// The text of a date.
fn date_bytes(date: Date) -> [u8; DATE_LENGTH]
    ensures { result ≡ date_text date }
{
    let [y0, y1, y2, y3] = four(date.year);
    let [m0, m1] = two(date.month as u16);
    let [d0, d1] = two(date.day as u16);
    [y0, y1, y2, y3, HYPHEN, m0, m1, HYPHEN, d0, d1]
}

// The last four digits of a number.
fn four(n: u16) -> [u8; 4]
    ensures { result ≡ four_digits n }
{
    let [thousands, hundreds] = two(n / 100);
    let [tens, ones] = two(n);
    [thousands, hundreds, tens, ones]
}

// The last two digits of a number.
fn two(n: u16) -> [u8; 2]
    ensures { result ≡ two_digits n }
{
    [digit(n / 10), digit(n)]
}

// The last digit of a number.
fn digit(n: u16) -> u8
    ensures { result ≡ 48 + n % 10 }
{
    ZERO + (n % 10) as u8
}
