//! Runs to the end: a worked month, a worked year end, a winter, and the same lines in two runs.
use crate::fixture::{
    Answers, DECEMBER, ISSUE, JANUARY, MARK, OUTPUT_NAMES, PlainBook, YEAR, check_fault,
    check_output, debt, journal, of_text, open, runs, seen,
};
use journal::ReadRefusal;
use settlement::{RunRefusal, run};
use std::process::Abort;
use std::test::Fail;
use two::settle_two;

// The second member needs 1,000 kWh by day and 33 by night, and the first has 700 over by day.
const MONTH: &[u8] = b"READ,1,DAY,USE,1000,-,2024-01-31
READ,1,NIGHT,USE,33,-,2024-01-31
READ,0,DAY,GIVE,700,-,2024-01-31
ISSUE,-,-,-,-,-,-
";

// 300 * 45.00 + 33 * 35.07 + 700 * 10.00 = 13,500.00 + 1,157.31 + 7,000.00 = 21,657.31.
const MONTH_BILLS: &[u8] = b"BILL,2024-01,0,0,0,0,0,0,0
BILL,2024-01,1,300,33,700,0,21657,21657
";

#[test]
fn a_month_of_two(rt: HostRuntime) -> Result<(), Fail> {
    let mut book = open(&rt, 2, JANUARY, 0);
    runs(&rt, &mut book, MONTH, MONTH_BILLS)?;
    let mut out = [MARK; 4_148];
    let outcome = settle_two(&journal(&rt, &[MONTH])?, &mut out);
    assert_eq!(rt; outcome.fault, None);
    let text = [OUTPUT_NAMES, MONTH_BILLS].concat(rt.alloc())?;
    check_output(&rt, &out, outcome.written, &text);
    Ok(())
}

// The same month with a fault at its sixth line, after which another month would be issued.
#[test]
fn a_month_of_two_and_a_fault(rt: HostRuntime) -> Result<(), Fail> {
    let mut out = [MARK; 8_192];
    let lines = journal(&rt, &[MONTH, b"ISSUE\n", ISSUE])?;
    let outcome = settle_two(&lines, &mut out);
    let stop = of_text(6, RunRefusal::Line(ReadRefusal::Fields), 25);
    check_fault(&rt, outcome.fault, stop);
    let text = [OUTPUT_NAMES, MONTH_BILLS].concat(rt.alloc())?;
    check_output(&rt, &out, outcome.written, &text);
    Ok(())
}

// 120 * 20.00 + 45 * 15.00 = 2,400.00 + 675.00 = 3,075.00 are paid.
#[test]
fn a_year_of_one(rt: HostRuntime) -> Result<(), Fail> {
    let lines = b"READ,0,DAY,GIVE,120,-,2024-12-31
READ,0,NIGHT,GIVE,45,-,2024-12-01
ISSUE,-,-,-,-,-,-
YEAR,-,-,-,-,-,-
";
    let text = b"BILL,2024-12,0,0,0,0,0,0,0
YEAR,2024-12,0,120,45,-,-,-3075,-3075
";
    let mut book = open(&rt, 1, DECEMBER, 0);
    runs(&rt, &mut book, lines, text)
}

// November 2024 to January 2025 of three members, of whom the last is the holder.
// November: by day the last has 500 kWh over, and the others need 120 and 80; by night the first needs 10.
// December: by day the second needs 350 - 70 = 280; by night the first needs 5, and the last delivers 40 on the old meter.
// January: by night the first needs 2, and the last delivers 1 on the new meter, which began at 5.
const WINTER: [&[u8]; 17] = [
    b"READ,2,DAY,GIVE,9000500,-,2024-11-30\n",
    b"READ,0,DAY,USE,120,-,2024-11-01\n",
    b"READ,0,NIGHT,USE,10,-,2024-11-15\n",
    b"READ,1,DAY,USE,80,-,2024-11-30\n",
    b"PAY,1,-,-,1000,-,-\n",
    ISSUE,
    b"SWAP,2,NIGHT,GIVE,9000040,5,2024-12-15\n",
    b"READ,0,NIGHT,USE,15,-,2024-12-31\n",
    b"READ,1,DAY,USE,430,-,2024-12-31\n",
    b"CORR,1,DAY,USE,-70,-,-\n",
    ISSUE,
    YEAR,
    b"PAY,0,-,-,600,-,-\n",
    b"READ,2,NIGHT,GIVE,6,-,2025-01-01\n",
    b"CORR,0,NIGHT,USE,2,-,-\n",
    b"READ,1,DAY,USE,430,-,2025-01-31\n",
    ISSUE,
];

// November: a pool of 500 for 200, so 300 are carried on.
// First: 10 * 35.07 + 120 * 10.00 = 350.70 + 1,200.00 = 1,550.70. Second: 80 * 10.00 = 800.00, after 1,000 were paid.
// December: a pool of 300 for 280 by day and of 40 for 5 by night, so 20 and 35 are carried on.
// First: 5 * 10.00 = 50.00, and 0.70 was kept. Second: 280 * 10.00 = 2,800.00.
// Year: 20 * 20.00 + 35 * 15.00 = 400.00 + 525.00 = 925.00 are paid to the last.
// January: a pool of 1 for 2 by night. First: 35.07 + 10.00 + 0.70 = 45.77, after 600 were paid.
const WINTER_LINES: &[u8] = b"BILL,2024-11,0,0,10,120,0,1550,1550
BILL,2024-11,1,0,0,80,0,800,-200
BILL,2024-11,2,0,0,0,0,0,0
BILL,2024-12,0,0,0,0,5,50,1600
BILL,2024-12,1,0,0,280,0,2800,2600
BILL,2024-12,2,0,0,0,0,0,0
YEAR,2024-12,2,20,35,-,-,-925,-925
BILL,2025-01,0,0,1,0,1,45,1045
BILL,2025-01,1,0,0,0,0,0,2600
BILL,2025-01,2,0,0,0,0,0,-925
";

#[test]
fn a_winter_of_three(rt: HostRuntime) -> Result<(), Fail> {
    let lines = WINTER.concat(rt.alloc())?;
    let mut book = open(&rt, 3, DECEMBER - 1, 2);
    runs(&rt, &mut book, &lines, WINTER_LINES)?;
    assert_eq!(rt; debt(&book, 0), Some(1_045));
    assert_eq!(rt; debt(&book, 1), Some(2_600));
    assert_eq!(rt; debt(&book, 2), Some(-925));
    Ok(())
}

// Runs lines to their end, and answers what is written behind the line of names.
fn written<R: Abort + AllocGlobal>(
    rt: &R,
    book: &mut PlainBook,
    lines: &[u8],
) -> Result<Vec<u8>, Fail> {
    let mut out = [MARK; 8_192];
    let lines = journal(rt, &[lines])?;
    let outcome = run(book, &lines, &mut out);
    assert_eq!(rt; outcome.fault, None);
    assert!(rt; 52 <= outcome.written && outcome.written <= 8_192);
    Ok(out[52..outcome.written].to_vec(rt.alloc())?)
}

// The winter's lines in two runs write what they write in one, and leave the book as the one does.
fn check_parted<R: Abort + AllocGlobal>(
    rt: &R,
    first: &[u8],
    second: &[u8],
    whole: Answers,
) -> Result<(), Fail> {
    let mut book = open(rt, 3, DECEMBER - 1, 2);
    let earlier = written(rt, &mut book, first)?;
    let later = written(rt, &mut book, second)?;
    let texts = [earlier.as_slice(), later.as_slice()].concat(rt.alloc())?;
    assert!(rt; texts.as_slice() == WINTER_LINES);
    assert_eq!(rt; seen(&book), whole);
    Ok(())
}

#[test]
fn two_runs_are_as_one(rt: HostRuntime) -> Result<(), Fail> {
    let lines = WINTER.concat(rt.alloc())?;
    let mut book = open(&rt, 3, DECEMBER - 1, 2);
    runs(&rt, &mut book, &lines, WINTER_LINES)?;
    let whole = seen(&book);
    for parting in 0..18 {
        let (first, second) = WINTER.as_slice().split_at(parting);
        let first = first.concat(rt.alloc())?;
        let second = second.concat(rt.alloc())?;
        check_parted(&rt, &first, &second, whole)?;
    }
    Ok(())
}
