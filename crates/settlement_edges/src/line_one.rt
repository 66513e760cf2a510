//! The first line of a journal: its size, the line of names, and the room of the output.
use crate::fixture::{
    ISSUE, JANUARY, MARK, NAMES, OUTPUT_NAMES, PAYMENT, check_fault, check_output, debt, journal,
    of_text, open, runs, stops_at_line_1,
};
use journal::ReadRefusal;
use settlement::{RunRefusal, run};
use std::process::Abort;
use std::test::Fail;

// What begins otherwise than with the line of names and its line feed.
const NO_JOURNALS: [&[u8]; 11] = [
    b"",
    b"\n",
    b"kind,member,zone,flow,value,second,date",
    b"kind,member,zone,flow,value,second,date\r\n",
    b" kind,member,zone,flow,value,second,date\n",
    b"\nkind,member,zone,flow,value,second,date\n",
    b"Kind,member,zone,flow,value,second,date\n",
    b"kind,member,zone,flow,value,second,dates\n",
    b"kind,member,zone,flow,value,second\nISSUE,-,-,-,-,-,-\n",
    b"line,month,place,dayb,nightb,dayc,nightc,drams,debt\n",
    b"ISSUE,-,-,-,-,-,-\n",
];

#[test]
fn a_journal_begins_with_its_names(rt: HostRuntime) {
    let stop = of_text(1, RunRefusal::Journal, 24);
    for text in NO_JOURNALS.iter().copied() {
        stops_at_line_1(&rt, text, &mut [MARK; 4_148], stop);
        // Before the room is looked at.
        stops_at_line_1(&rt, text, &mut [MARK; 4_095], stop);
        stops_at_line_1(&rt, text, &mut [], stop);
    }
}

#[test]
fn an_output_has_4096_bytes(rt: HostRuntime) -> Result<(), Fail> {
    let stop = of_text(1, RunRefusal::Room, 27);
    stops_at_line_1(&rt, NAMES, &mut [], stop);
    stops_at_line_1(&rt, NAMES, &mut [MARK; 4_095], stop);
    // Before the next line is read.
    let lines = journal(&rt, &[b"SELL\n"])?;
    stops_at_line_1(&rt, &lines, &mut [MARK; 4_095], stop);
    let mut out = [MARK; 4_096];
    let mut book = open(&rt, 1, JANUARY, 0);
    let outcome = run(&mut book, NAMES, &mut out);
    assert_eq!(rt; outcome.fault, None);
    check_output(&rt, &out, outcome.written, OUTPUT_NAMES);
    Ok(())
}

// A thousand payments and the issue of their month, four times over, and 89 payments more:
// 40 + 4 * (1,000 * 16 + 18) + 89 * 16 = 65,536 bytes.
fn longest(rt: &impl AllocGlobal) -> Result<Vec<u8>, Fail> {
    let month = PAYMENT.repeat(rt.alloc(), 1_000)?;
    let month = [month.as_slice(), ISSUE].concat(rt.alloc())?;
    let months = month.repeat(rt.alloc(), 4)?;
    let rest = PAYMENT.repeat(rt.alloc(), 89)?;
    Ok([months.as_slice(), rest.as_slice()].concat(rt.alloc())?)
}

const FOUR_MONTHS: &[u8] = b"BILL,2024-01,0,0,0,0,0,0,-1000
BILL,2024-02,0,0,0,0,0,0,-2000
BILL,2024-03,0,0,0,0,0,0,-3000
BILL,2024-04,0,0,0,0,0,0,-4000
";

#[test]
fn the_longest_journal_is_run(rt: HostRuntime) -> Result<(), Fail> {
    let lines = longest(&rt)?;
    assert_eq!(rt; journal(&rt, &[&lines])?.len(), 65_536);
    let mut book = open(&rt, 1, JANUARY, 0);
    runs(&rt, &mut book, &lines, FOUR_MONTHS)?;
    assert_eq!(rt; book.entries(), 89);
    assert_eq!(rt; debt(&book, 0), Some(-4_089));
    Ok(())
}

// A further line, a line without its line feed, and an empty line.
const FURTHER: [&[u8]; 3] = [PAYMENT, b"x", b"\n"];

fn refuse<R: Abort + AllocGlobal>(rt: &R, lines: &[u8], further: &[u8]) -> Result<(), Fail> {
    let longer = journal(rt, &[lines, further])?;
    let stop = of_text(1, RunRefusal::Journal, 24);
    stops_at_line_1(rt, &longer, &mut [MARK; 4_148], stop);
    Ok(())
}

#[test]
fn a_longer_journal_is_refused(rt: HostRuntime) -> Result<(), Fail> {
    let lines = longest(&rt)?;
    for further in FURTHER.iter().copied() {
        refuse(&rt, &lines, further)?;
    }
    Ok(())
}

// One line of 65,496 bytes: the size of the journal is fine, and the line is none.
#[test]
fn the_longest_line_is_read(rt: HostRuntime) -> Result<(), Fail> {
    let line = b"x".as_slice().repeat(rt.alloc(), 65_496)?;
    let mut out = [MARK; 4_096];
    let mut book = open(&rt, 1, JANUARY, 0);
    let outcome = run(&mut book, &journal(&rt, &[&line])?, &mut out);
    let stop = of_text(2, RunRefusal::Line(ReadRefusal::Fields), 25);
    check_fault(&rt, outcome.fault, stop);
    check_output(&rt, &out, outcome.written, OUTPUT_NAMES);
    refuse(&rt, &line, b"\n")
}
