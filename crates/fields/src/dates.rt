//! Reads the dates and the months of a text.
ghost use Rattle.std.specs.Prelude.{◌≤◌};
ghost use Rattle.calendar.specs.Gregorian.{last_day, last_month};
ghost use Rattle.fields.specs.Digits.{ReadsFourDigits, ReadsTwoDigits};
ghost use Rattle.fields.specs.Reads.{Reads};
ghost use Rattle.fields.specs.Texts.{IsSpellable, date_text, day_text, month_text};

use crate::numbers::digit;
use crate::separators::HYPHEN;
use calendar::{Date, Day, Month, day_of, month_in};

const TEN: u8 = 10;

const HUNDRED: u16 = 100;

// Functions and no `TryFrom`: a day and a month are plain numbers, and a conversion to them would not say of what.

/// The day of the date that `part` spells as 2024-01-31, or none where it spells no date from 2000-01-01 to 2099-12-31.
pub fn day(part: &[u8]) -> Option<Day>
    ensures { Reads (λ d. d ≤ last_day) day_text part.now result }
{
    day_of(date(part)?)
}

/// The month that `part` spells as 2024-01, or none where it spells none from 2000-01 to 2099-12.
pub fn month(part: &[u8]) -> Option<Month>
    ensures { Reads (λ m. m ≤ last_month) month_text part.now result }
{
    let [y0, y1, y2, y3, HYPHEN, m0, m1] = part else {
        return None;
    };
    let year = four_digits(*y0, *y1, *y2, *y3)?;
    let month = two_digits(*m0, *m1)?;
    month_in(year, month)
}

// The date that the part spells, whether or not there is such a day.
fn date(part: &[u8]) -> Option<Date>
    ensures { Reads IsSpellable date_text part.now result }
{
    let [y0, y1, y2, y3, HYPHEN, m0, m1, HYPHEN, d0, d1] = part else {
        return None;
    };
    let year = four_digits(*y0, *y1, *y2, *y3)?;
    let month = two_digits(*m0, *m1)?;
    let day = two_digits(*d0, *d1)?;
    Some(Date { year, month, day })
}

// The number that four digits write.
fn four_digits(thousands: u8, hundreds: u8, tens: u8, ones: u8) -> Option<u16>
    ensures { ReadsFourDigits thousands hundreds tens ones result }
{
    let front = two_digits(thousands, hundreds)?;
    let back = two_digits(tens, ones)?;
    Some(front as u16 * HUNDRED + back as u16)
}

// The number that two digits write. Each is read by itself, since the pattern of a date names them.
fn two_digits(tens: u8, ones: u8) -> Option<u8>
    ensures { ReadsTwoDigits tens ones result }
{
    let tens = digit(tens)?;
    let ones = digit(ones)?;
    Some(tens * TEN + ones)
}
