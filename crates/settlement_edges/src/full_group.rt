//! A group of 32 members, its lines, and the longest of them.
use crate::fixture::{
    ISSUE, JANUARY, MARK, OUTPUT_NAMES, PlainBook, YEAR, check_fault, check_output, debt, journal,
    of_book, plain_tariff, record, runs, tariff,
};
use group::BookRefusal;
use ledger::ByZone;
use settlement::{Setup, run};
use sharing::Proportion;
use std::process::Abort;
use std::test::Fail;
use tariff::FixedTariff;

// A book of 32 members, of whom the last is the holder.
fn open(rt: &impl Abort, tariff: FixedTariff) -> PlainBook {
    let records = [record(32, 0); 32];
    let setup = Setup {
        number: 7,
        start: JANUARY,
        holder: 31,
        records: &records,
        rule: Proportion,
        tariff,
    };
    setup.open().expect(rt, "an opening")
}

// By day each member but the last needs a kWh more than the one before it, the first 1: 31 * 32 / 2 = 496 together.
// The last delivers 500.
fn needs(rt: &impl AllocGlobal) -> Result<Vec<u8>, Fail> {
    let mut lines = b"READ,31,DAY,GIVE,500,-,2024-01-31\n".to_vec(rt.alloc())?;
    for place in 0..31 {
        let need = place + 1;
        let line = format!(in rt.alloc(); "READ,{place},DAY,USE,{need},-,2024-01-{need:02}\n")?;
        lines.extend_from_slice(line.as_bytes())?;
    }
    Ok(lines)
}

// All is covered, at 10.00 a kWh.
fn covered(rt: &impl AllocGlobal) -> Result<Vec<u8>, Fail> {
    let mut text = Vec::new(rt.alloc());
    for place in 0..31 {
        let need = place + 1;
        let line = format!(in rt.alloc(); "BILL,2024-01,{place},0,0,{need},0,{need}0,{need}0\n")?;
        text.extend_from_slice(line.as_bytes())?;
    }
    text.extend_from_slice(b"BILL,2024-01,31,0,0,0,0,0,0\n")?;
    Ok(text)
}

#[test]
fn a_month_of_32(rt: HostRuntime) -> Result<(), Fail> {
    let lines = [&needs(&rt)?, ISSUE].concat(rt.alloc())?;
    let mut book = open(&rt, plain_tariff());
    runs(&rt, &mut book, &lines, &covered(&rt)?)?;
    // The last place is 31.
    let mut out = [MARK; 4_096];
    let lines = journal(&rt, &[b"PAY,31,-,-,9,-,-\nPAY,32,-,-,9,-,-\n"])?;
    let outcome = run(&mut book, &lines, &mut out);
    check_fault(&rt, outcome.fault, of_book(3, BookRefusal::Place, 13));
    check_output(&rt, &out, outcome.written, OUTPUT_NAMES);
    assert_eq!(rt; debt(&book, 31), Some(-9));
    Ok(())
}

// Corrections of so many kWh of what each member consumed and delivered, by day and by night, and the issue of the month.
fn corrected(rt: &impl AllocGlobal, consumed: i32, delivered: i32) -> Result<Vec<u8>, Fail> {
    let mut lines = Vec::new(rt.alloc());
    for place in 0..32 {
        for zone in ["DAY", "NIGHT"] {
            let line = format!(in rt.alloc();
                "CORR,{place},{zone},USE,{consumed},-,-\nCORR,{place},{zone},GIVE,{delivered},-,-\n"
            )?;
            lines.extend_from_slice(line.as_bytes())?;
        }
    }
    lines.extend_from_slice(ISSUE)?;
    Ok(lines)
}

// Every price is 1,000.00, the highest.
fn highest() -> FixedTariff {
    let prices = ByZone {
        day: 100_000,
        night: 100_000,
    };
    tariff(prices, 100_000, prices)
}

// Runs lines over a book to their end, with just the room that one line that writes asks for.
fn run_month<R: Abort + AllocGlobal>(
    rt: &R,
    book: &mut PlainBook,
    lines: &[u8],
) -> Result<(), Fail> {
    let mut out = [MARK; 4_148];
    let outcome = run(book, &journal(rt, &[lines])?, &mut out);
    assert_eq!(rt; outcome.fault, None);
    Ok(())
}

// Each member is billed 2,000,000 kWh by day and by night, the most there is, in 249 months, and 4,000,000,000 drams in each of them.
fn owing<R: Abort + AllocGlobal>(rt: &R) -> Result<PlainBook, Fail> {
    let mut book = open(rt, highest());
    let lines = corrected(rt, 1_000_000, -1_000_000)?;
    for month in 0..249 {
        run_month(rt, &mut book, &lines)?;
        if month % 12 == 11 {
            run_month(rt, &mut book, YEAR)?;
        }
    }
    assert_eq!(rt; debt(&book, 31), Some(996_000_000_000));
    Ok(book)
}

// What is billed, what is covered, the bill and the debt have the most digits that a month of 32 like members can give them:
// 10 * 72 + 22 * 73 = 2,326 bytes.
fn longest(rt: &impl AllocGlobal) -> Result<Vec<u8>, Fail> {
    let mut text = Vec::new(rt.alloc());
    for place in 0..32 {
        let line = format!(in rt.alloc();
            "BILL,2044-11,{place},1000000,1000000,1000000,1000000,4000000000,1000000000000\n"
        )?;
        text.extend_from_slice(line.as_bytes())?;
    }
    Ok(text)
}

// Each member has 1,000,000 kWh over by day and by night, and a month later needs 2,000,000, of which half is covered:
// 4 * 1,000,000 * 1,000.00 = 4,000,000,000.00.
#[test]
fn the_longest_bills_of_32(rt: HostRuntime) -> Result<(), Fail> {
    let mut book = owing(&rt)?;
    let surplus = corrected(&rt, -1_000_000, 0)?;
    run_month(&rt, &mut book, &surplus)?;
    let needs = corrected(&rt, 1_000_000, -1_000_000)?;
    let lines = journal(&rt, &[needs.as_slice()])?;
    let mut out = [MARK; 4_148];
    let outcome = run(&mut book, &lines, &mut out);
    assert_eq!(rt; outcome.fault, None);
    assert_eq!(rt; outcome.written, 52 + 2_326);
    let bills = longest(&rt)?;
    let text = [OUTPUT_NAMES, bills.as_slice()].concat(rt.alloc())?;
    check_output(&rt, &out, outcome.written, &text);
    Ok(())
}

// Each member has 2,000,000 kWh over by day and by night in each of twelve months: 12 * 32 * 2,000,000 = 768,000,000 are
// carried by day and as much by night, and 2 * 768,000,000 * 1,000.00 = 1,536,000,000,000.00 paid to the holder.
#[test]
fn the_largest_year(rt: HostRuntime) -> Result<(), Fail> {
    let mut book = open(&rt, highest());
    let lines = corrected(&rt, -1_000_000, 1_000_000)?;
    for _ in 0..12 {
        run_month(&rt, &mut book, &lines)?;
    }
    let text = b"YEAR,2024-12,31,768000000,768000000,-,-,-1536000000000,-1536000000000\n";
    runs(&rt, &mut book, YEAR, text)?;
    assert_eq!(rt; debt(&book, 0), Some(0));
    Ok(())
}
