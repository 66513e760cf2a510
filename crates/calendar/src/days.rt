//! Days and months by their numbers: day 0 is 1 January 2000, and month 0 is January 2000.
ghost use Rattle.std.specs.Prelude.{◌≡◌, ◌+◌, ◌≤◌, ◌↔◌, IsTrue, if◌then◌else◌, Some, None, nat_le};
ghost use Rattle.calendar.specs.Dates.{IsMonthOf};
ghost use Rattle.calendar.specs.Gregorian.{first_day, last_day, last_month, lies_in};

use crate::table::FIRST_DAYS;

/// A day, counted from 1 January 2000.
pub type Day = u32;

/// A month, counted from January 2000.
pub type Month = u16;

/// 31 December 2099.
pub const LAST_DAY: Day = 36_524;

/// December 2099.
pub const LAST_MONTH: Month = 1_199;

// The first day of a month up to January 2100.
pub(crate) fn first(month: Month) -> Day
    requires { month ≤ last_month + 1 }
    ensures { result ≡ first_day month }
{
    FIRST_DAYS[month as usize]
}

/// The first day of a month, or none past the last month.
pub fn first_day_of(month: Month) -> Option<Day>
    ensures { result ≡ (if nat_le month last_month then Some (first_day month) else None) }
{
    (month <= LAST_MONTH).then(|| first(month))
}

/// Whether a day lies in a month; none lies in a month past the last.
pub fn is_in(day: Day, month: Month) -> bool
    ensures { result ≡ lies_in day month }
{
    month <= LAST_MONTH && first(month) <= day && day < first(month + 1)
}

/// The month in which a day lies, or none past the last day.
pub fn month_of(day: Day) -> Option<Month>
    ensures { IsMonthOf day result }
{
    // A day past the last is not looked for in the table.
    (day <= LAST_DAY).then(|| month_with(day))
}

// The month in which a day lies.
fn month_with(day: Day) -> Month
    requires { day ≤ last_day }
    ensures { IsMonthOf day (Some result) }
{
    // January 2000 has begun on each day, so the month's number is how many later months have.
    let month = FIRST_DAYS[1..].partition_point(
        |first|
            ensures { IsTrue result ↔ (first.now ≤ day) }
        { *first <= day },
    );
    month as Month
}
