//! Dates by year, month and day of the month.
ghost use Rattle.std.specs.Prelude.{◌≡◌, ◌+◌, ◌-◌, ◌<◌, ◌≤◌, if◌then◌else◌, Some, None, nat_le};
ghost use Rattle.std.specs.Option.{SomeIff};
ghost use Rattle.calendar.specs.Dates.{Agree, IsDateOf, IsMonthIn, date_in, date_of_day, day_of_date};
ghost use Rattle.calendar.specs.Gregorian.{first_day, last_day, last_month, length_of};

use crate::days::{Day, Month, first, month_of};

/// The first year of the calendar.
pub const FIRST_YEAR: u16 = 2000;

/// The last year of the calendar.
pub const LAST_YEAR: u16 = 2099;

/// How many months a year has.
pub const MONTHS: Month = 12;

/// A year, a month from 1 to 12 and a day of the month from 1, which need not be a date.
#[derive(Clone, Copy, PartialEq, Eq, Debug)]
pub struct Date {
    /// The year.
    pub year: u16,
    /// The month of the year, January being 1.
    pub month: u8,
    /// The day of the month.
    pub day: u8,
}

/// The month of a year, January being 1, or none where there is no such month from 2000 to 2099.
pub fn month_in(year: u16, month: u8) -> Option<Month>
    ensures { IsMonthIn year month result }
{
    let month = month as Month;
    if year < FIRST_YEAR || year > LAST_YEAR || month == 0 || month > MONTHS {
        return None;
    }
    Some((year - FIRST_YEAR) * MONTHS + (month - 1))
}

/// The date of the first day of a month.
pub fn first_date_of(month: Month) -> Date
    ensures { result ≡ date_in month 0 }
{
    Date {
        year: FIRST_YEAR + month / MONTHS,
        month: (month % MONTHS + 1) as u8,
        day: 1,
    }
}

// A day is a plain number, so `TryFrom<Date> for u32` would say less than these two names.

/// The day of a date, or none where it is no date from 2000-01-01 to 2099-12-31.
pub fn day_of(date: Date) -> Option<Day>
    ensures { result ≡ day_of_date date }
{
    day_in(month_in(date.year, date.month)?, date.day)
}

// The day of a month so counted from 1, or none where the month has no such day.
fn day_in(month: Month, day: u8) -> Option<Day>
    requires { month ≤ last_month }
    ensures { SomeIff result ((1 ≤ day) × (day ≤ length_of month)) (first_day month + (day - 1)) }
{
    let begins = first(month);
    // The table has the month's length, so that the leap years need no test here.
    let length = first(month + 1) - begins;
    let after = (day as Day).checked_sub(1)?;
    (after < length).then(|| begins + after)
}

/// The date of a day, or none past the last day; dates and days agree, there and back.
pub fn date_of(day: Day) -> Option<Date>
    ensures date { IsDateOf day result }
    ensures named { result ≡ (if nat_le day last_day then Some (date_of_day day) else None) }
    ensures agree { Agree }
{
    let month = month_of(day)?;
    Some(date_in(month, day - first(month)))
}

// The date in a month so many days after its first.
fn date_in(month: Month, after: Day) -> Date
    requires { after < 31 }
    ensures { result ≡ date_in month after }
{
    Date {
        day: (after + 1) as u8,
        ..first_date_of(month)
    }
}
