//! The parts of a text: line feeds, cuts, numbers, dates and months, and cells that are written.
use crate::slices::{BLANK, check_written};
use calendar::Date;
use cells::{Cell, write_cell};
use fields::{cut, cut_into, day, month, next_line_feed, number, signed_number};
use std::test::Fail;

// A text, a start in it, and the next line feed from there.
const FEEDS: [(&[u8], usize, Option<usize>); 9] = [
    (b"", 0, None),
    (b"", 1, None),
    (b"\n", 0, Some(0)),
    (b"\n", 1, None),
    (b"ab\ncd\n", 0, Some(2)),
    (b"ab\ncd\n", 2, Some(2)),
    (b"ab\ncd\n", 3, Some(5)),
    (b"ab\ncd\n", 6, None),
    (b"ab\ncd\n", usize::MAX, None),
];

#[test]
fn line_feeds_from_a_start(rt: HostRuntime) {
    for (text, from, found) in FEEDS.iter().copied() {
        assert_eq!(rt; next_line_feed(text, from), found);
    }
}

#[test]
fn a_text_is_cut_at_its_first_comma(rt: HostRuntime) -> Result<(), Fail> {
    let (field, rest) = cut(b",a,b").ok_or("no comma")?;
    assert!(rt; field == b"".as_slice());
    assert!(rt; rest == b"a,b".as_slice());
    assert!(rt; cut(b"a;b").is_none());
    Ok(())
}

// What a slice of three holds before a cut, and after one that is refused.
const BEFORE: [&[u8]; 3] = [b"x", b"y", b"z"];

// A text, whether it has just three fields, and what the slice holds after the cut.
const CUTS: [(&[u8], bool, [&[u8]; 3]); 9] = [
    (b"", false, BEFORE),
    (b"a", false, BEFORE),
    (b"a,b", false, BEFORE),
    (b"a,b,c", true, [b"a", b"b", b"c"]),
    (b",,", true, [b"", b"", b""]),
    (b"a,,c\n", true, [b"a", b"", b"c\n"]),
    (b"a,b,c,", false, BEFORE),
    (b"a,b,c,d", false, BEFORE),
    (b"a;b;c", false, BEFORE),
];

#[test]
fn a_text_is_cut_into_three_fields(rt: HostRuntime) {
    for (text, done, after) in CUTS.iter().copied() {
        let mut fields = BEFORE;
        assert_eq!(rt; cut_into(text, &mut fields).is_some(), done);
        for place in 0..3 {
            assert!(rt; fields[place] == after[place]);
        }
    }
}

#[test]
fn no_text_is_cut_into_no_field(rt: HostRuntime) {
    for text in [b"".as_slice(), b"a", b"a,b"] {
        assert!(rt; cut_into(text, &mut []).is_none());
    }
}

const NUMBERS: [(&[u8], Option<u64>, Option<i64>); 9] = [
    (b"0", Some(0), Some(0)),
    (b"65535", Some(65_535), Some(65_535)),
    (b"65536", None, None),
    (b"-1", None, Some(-1)),
    (b"-65535", None, Some(-65_535)),
    (b"-65536", None, None),
    (b"-0", None, None),
    (b"", None, None),
    (b"-", None, None),
];

#[test]
fn numbers_within_a_limit(rt: HostRuntime) {
    for (text, unsigned, signed) in NUMBERS.iter().copied() {
        assert_eq!(rt; number(text, 65_535), unsigned);
        assert_eq!(rt; signed_number(text, 65_535), signed);
    }
}

const MONTHS: [(&[u8], Option<u16>); 9] = [
    (b"2000-01", Some(0)),
    (b"2024-01", Some(288)),
    (b"2099-12", Some(1199)),
    (b"1999-12", None),
    (b"2100-01", None),
    (b"2024-00", None),
    (b"2024-13", None),
    (b"2024-1", None),
    (b"2024 01", None),
];

#[test]
fn months_and_dates(rt: HostRuntime) {
    for (text, found) in MONTHS.iter().copied() {
        assert_eq!(rt; month(text), found);
    }
    assert_eq!(rt; day(b"2000-03-01"), Some(60));
    assert_eq!(rt; day(b"2001-03-01"), Some(425));
    assert_eq!(rt; day(b"2001-02-29"), None);
}

const DATE: Date = Date {
    year: 2024,
    month: 2,
    day: 9,
};

const CELLS: [(Cell<'static>, &[u8]); 8] = [
    (Cell::Missing, b"-"),
    (Cell::Word(b"DAY"), b"DAY"),
    (Cell::Number(0), b"0"),
    (Cell::Number(u64::MAX), b"18446744073709551615"),
    (Cell::Signed(-10), b"-10"),
    (Cell::Signed(i64::MIN), b"-9223372036854775808"),
    (Cell::Date(DATE), b"2024-02-09"),
    (Cell::Month(288), b"2024-01"),
];

#[test]
fn cells_are_written(rt: HostRuntime) -> Result<(), Fail> {
    for (cell, text) in CELLS.iter().copied() {
        let mut out = [BLANK; 22];
        let end = write_cell(cell, &mut out, 1).ok_or("no room")?;
        check_written(&rt, &out, 1, end, text);
        assert_eq!(rt; write_cell(cell, &mut out, 22), None);
    }
    Ok(())
}
