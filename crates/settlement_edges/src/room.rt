//! The room that an issue and a year closing ask of the output.
use crate::fixture::{
    DECEMBER, ISSUE, JANUARY, MARK, OUTPUT_NAMES, PAYMENT, PlainBook, Stop, YEAR, check_fault,
    check_output, journal, of_book, of_text, open, runs, seen,
};
use calendar::Month;
use group::BookRefusal;
use journal::ReadRefusal;
use settlement::{RunRefusal, run};
use std::process::Abort;
use std::test::Fail;

// Runs lines over a book of one member, with so many bytes of output, and compares what is written behind the line of names.
fn runs_within<R: Abort + AllocGlobal>(
    rt: &R,
    book: &mut PlainBook,
    lines: &[u8],
    bytes: usize,
    text: &[u8],
    stop: Option<Stop>,
) -> Result<(), Fail> {
    let mut out = [MARK; 8_192];
    let lines = journal(rt, &[lines])?;
    let outcome = run(book, &lines, &mut out[..bytes.min(8_192)]);
    match stop {
        Some(stop) => check_fault(rt, outcome.fault, stop),
        None => assert_eq!(rt; outcome.fault, None),
    }
    let text = [OUTPUT_NAMES, text].concat(rt.alloc())?;
    check_output(rt, &out, outcome.written, &text);
    Ok(())
}

// Each of these lines has 27 bytes.
const JANUARY_BILL: &[u8] = b"BILL,2024-01,0,0,0,0,0,0,0\n";

const BOTH_BILLS: &[u8] = b"BILL,2024-01,0,0,0,0,0,0,0\nBILL,2024-02,0,0,0,0,0,0,0\n";

const DECEMBER_BILL: &[u8] = b"BILL,2024-12,0,0,0,0,0,0,0\n";

const TWO_ISSUES: &[u8] = b"ISSUE,-,-,-,-,-,-\nISSUE,-,-,-,-,-,-\n";

const ISSUE_AND_YEAR: &[u8] = b"ISSUE,-,-,-,-,-,-\nYEAR,-,-,-,-,-,-\n";

const ISSUED_AND_CLOSED: &[u8] = b"BILL,2024-12,0,0,0,0,0,0,0\nYEAR,2024-12,0,0,0,-,-,0,0\n";

// The start month, the lines, the bytes of the output, what is written of lines and which line finds no room, if one does.
#[derive(Clone, Copy)]
struct Case(Month, &'static [u8], usize, &'static [u8], Option<usize>);

const NONE: &[u8] = b"";

const CASES: [Case; 10] = [
    // 52 + 4,096 bytes for the first issue.
    Case(JANUARY, ISSUE, 4_096, NONE, Some(2)),
    Case(JANUARY, ISSUE, 4_147, NONE, Some(2)),
    Case(JANUARY, ISSUE, 4_148, JANUARY_BILL, None),
    // 27 more for the second one.
    Case(JANUARY, TWO_ISSUES, 4_147, NONE, Some(2)),
    Case(JANUARY, TWO_ISSUES, 4_148, JANUARY_BILL, Some(3)),
    Case(JANUARY, TWO_ISSUES, 4_174, JANUARY_BILL, Some(3)),
    Case(JANUARY, TWO_ISSUES, 4_175, BOTH_BILLS, None),
    // And so for the closing of a year.
    Case(DECEMBER, ISSUE_AND_YEAR, 4_148, DECEMBER_BILL, Some(3)),
    Case(DECEMBER, ISSUE_AND_YEAR, 4_174, DECEMBER_BILL, Some(3)),
    Case(DECEMBER, ISSUE_AND_YEAR, 4_175, ISSUED_AND_CLOSED, None),
];

#[test]
fn lines_that_write_find_4096_bytes(rt: HostRuntime) -> Result<(), Fail> {
    for case in CASES.iter().copied() {
        let Case(start, lines, bytes, text, refused) = case;
        let stop = refused.map(|line| of_text(line, RunRefusal::Room, 27));
        let mut book = open(&rt, 1, start, 0);
        runs_within(&rt, &mut book, lines, bytes, text, stop)?;
    }
    Ok(())
}

// Entries write nothing, and are taken with 4,044 bytes left.
#[test]
fn entries_ask_for_no_room(rt: HostRuntime) -> Result<(), Fail> {
    let entries: &[u8] =
        b"PAY,0,-,-,1,-,-\nCORR,0,DAY,USE,7,-,-\nREAD,0,DAY,GIVE,9,-,2024-01-31\nSWAP,0,NIGHT,USE,9,1,2024-01-31\n";
    let mut book = open(&rt, 1, JANUARY, 0);
    runs_within(&rt, &mut book, entries, 4_096, NONE, None)?;
    assert_eq!(rt; book.entries(), 4);
    let lines = [entries, ISSUE].concat(rt.alloc())?;
    let stop = of_text(6, RunRefusal::Room, 27);
    let mut book = open(&rt, 1, JANUARY, 0);
    runs_within(&rt, &mut book, &lines, 4_096, NONE, Some(stop))?;
    assert_eq!(rt; book.entries(), 4);
    Ok(())
}

// Lines that write, or would if they were right, with too little room, in an open month: the text and the book refuse first.
#[test]
fn other_refusals_come_before_the_room(rt: HostRuntime) -> Result<(), Fail> {
    let fields = of_text(2, RunRefusal::Line(ReadRefusal::Fields), 25);
    let form = Stop {
        field: Some(7),
        ..of_text(2, RunRefusal::Line(ReadRefusal::Form { field: 7 }), 26)
    };
    let cases: [(&[u8], Stop); 6] = [
        (b"ISSUE,-,-,-,-,-,-", fields),
        (b"YEAR,-,-,-,-,-\n", fields),
        (b"ISSUE,-,-,-,-,-,0\n", form),
        (b"YEAR,-,-,-,-,-,0\n", form),
        (YEAR, of_book(2, BookRefusal::NoYearEnd, 12)),
        (b"PAY,1,-,-,1,-,-\n", of_book(2, BookRefusal::Place, 13)),
    ];
    for (line, stop) in cases.iter().copied() {
        let mut book = open(&rt, 1, JANUARY, 0);
        let before = seen(&book);
        runs_within(&rt, &mut book, line, 4_096, NONE, Some(stop))?;
        assert_eq!(rt; seen(&book), before);
    }
    Ok(())
}

// 52 + 27 of 4,174 bytes are written, and 4,095 left.
#[test]
fn no_month_is_issued_twice_with_too_little_room(rt: HostRuntime) -> Result<(), Fail> {
    let cases = [
        (ISSUE, of_book(3, BookRefusal::NoMonth, 11)),
        (PAYMENT, of_book(3, BookRefusal::NoMonth, 11)),
        (YEAR, of_text(3, RunRefusal::Room, 27)),
    ];
    for (line, stop) in cases {
        let lines = [ISSUE, line].concat(rt.alloc())?;
        let mut book = open(&rt, 1, DECEMBER, 0);
        runs_within(&rt, &mut book, &lines, 4_174, DECEMBER_BILL, Some(stop))?;
    }
    Ok(())
}

const NEED_AND_ISSUE: &[u8] = b"CORR,0,NIGHT,USE,2,-,-\nISSUE,-,-,-,-,-,-\n";

// 2 * 35.07 = 70.14.
const NEED_BILL: &[u8] = b"BILL,2024-01,0,0,2,0,0,70,70\n";

#[test]
fn a_month_that_found_no_room_is_issued_later(rt: HostRuntime) -> Result<(), Fail> {
    let mut book = open(&rt, 1, JANUARY, 0);
    let stop = of_text(3, RunRefusal::Room, 27);
    runs_within(&rt, &mut book, NEED_AND_ISSUE, 4_147, NONE, Some(stop))?;
    runs(&rt, &mut book, ISSUE, NEED_BILL)?;
    let mut like = open(&rt, 1, JANUARY, 0);
    runs_within(&rt, &mut like, NEED_AND_ISSUE, 4_148, NEED_BILL, None)?;
    assert_eq!(rt; seen(&book), seen(&like));
    Ok(())
}

const SURPLUS_AND_YEAR: &[u8] = b"CORR,0,DAY,GIVE,120,-,-\nISSUE,-,-,-,-,-,-\nYEAR,-,-,-,-,-,-\n";

// 120 * 20.00 = 2,400.00.
const CLOSED: &[u8] = b"YEAR,2024-12,0,120,0,-,-,-2400,-2400\n";

#[test]
fn a_year_that_found_no_room_is_closed_later(rt: HostRuntime) -> Result<(), Fail> {
    let mut book = open(&rt, 1, DECEMBER, 0);
    let stop = of_text(4, RunRefusal::Room, 27);
    runs_within(
        &rt,
        &mut book,
        SURPLUS_AND_YEAR,
        4_174,
        DECEMBER_BILL,
        Some(stop),
    )?;
    let before = seen(&book);
    let stop = of_text(2, RunRefusal::Room, 27);
    runs_within(&rt, &mut book, YEAR, 4_147, NONE, Some(stop))?;
    assert_eq!(rt; seen(&book), before);
    runs_within(&rt, &mut book, YEAR, 4_148, CLOSED, None)
}
