//! The edges of the calendar, and every day of it in turn.
use crate::date::{Date, date_of, day_of};
use crate::days::{first_day_of, is_in, month_of};

// A date with its day, or none where it is no date.
#[derive(Clone, Copy)]
struct Case(u16, u8, u8, Option<u32>);

const DATES: [Case; 17] = [
    Case(2000, 1, 1, Some(0)),
    Case(2000, 2, 29, Some(59)),
    Case(2000, 3, 1, Some(60)),
    Case(2001, 2, 28, Some(424)),
    Case(2001, 3, 1, Some(425)),
    Case(2024, 2, 29, Some(8825)),
    Case(2099, 12, 31, Some(36_524)),
    Case(2001, 2, 29, None),
    Case(2023, 2, 29, None),
    Case(2000, 4, 31, None),
    Case(2000, 1, 0, None),
    Case(2000, 1, 32, None),
    Case(2000, 0, 1, None),
    Case(2000, 13, 1, None),
    Case(1999, 12, 31, None),
    Case(2100, 1, 1, None),
    Case(65_535, 255, 255, None),
];

#[test]
fn dates_at_the_edges(rt: HostRuntime) {
    for case in DATES.iter() {
        let Case(year, month, day, expected) = *case;
        assert_eq!(rt; day_of(Date { year, month, day }), expected);
    }
}

// A day, its month, and the first day of that month.
const MONTHS: [(u32, u16, u32); 6] = [
    (0, 0, 0),
    (30, 0, 0),
    (31, 1, 31),
    (59, 1, 31),
    (60, 2, 60),
    (36_524, 1199, 36_494),
];

#[test]
fn months_at_the_edges(rt: HostRuntime) {
    for (day, month, first) in MONTHS.iter().copied() {
        assert_eq!(rt; month_of(day), Some(month));
        assert_eq!(rt; first_day_of(month), Some(first));
        assert!(rt; is_in(day, month));
        assert!(rt; !is_in(day, month.wrapping_add(1)));
        assert!(rt; !is_in(day, month.wrapping_sub(1)));
    }
    assert_eq!(rt; month_of(36_525), None);
    assert_eq!(rt; month_of(u32::MAX), None);
    assert_eq!(rt; date_of(36_525), None);
    assert_eq!(rt; first_day_of(1200), None);
    assert_eq!(rt; first_day_of(u16::MAX), None);
    assert!(rt; !is_in(36_525, 1200));
}

fn is_leap(year: u16) -> bool {
    year % 4 == 0 && (year % 100 != 0 || year % 400 == 0)
}

fn length(year: u16, month: u8) -> u8 {
    match month {
        4 | 6 | 9 | 11 => 30,
        2 if is_leap(year) => 29,
        2 => 28,
        _ => 31,
    }
}

// The date after a date.
fn next(date: Date) -> Date {
    let Date { year, month, day } = date;
    if day < length(year, month) {
        return Date {
            year,
            month,
            day: day.wrapping_add(1),
        };
    }
    if month < 12 {
        return Date {
            year,
            month: month.wrapping_add(1),
            day: 1,
        };
    }
    Date {
        year: year.wrapping_add(1),
        month: 1,
        day: 1,
    }
}

#[test]
fn every_day_in_turn(rt: HostRuntime) {
    let mut date = Date {
        year: 2000,
        month: 1,
        day: 1,
    };
    for day in 0..36_525 {
        assert_eq!(rt; date_of(day), Some(date));
        assert_eq!(rt; day_of(date), Some(day));
        date = next(date);
    }
    assert_eq!(rt; day_of(date), None);
}
