//! A small group with its prices, journals of lines, and what the tests see of a run.
use book::Book;
use calendar::Month;
use group::{BookRefusal, Member, OpeningRecord, Phase};
use ledger::{ByFlow, ByZone, YearEnd, Zone};
use settlement::{Layer, Outcome, RunFault, RunRefusal, Setup, run};
use sharing::Proportion;
use std::process::Abort;
use std::test::Fail;
use tariff::{Class, ClassPrices, FixedTariff, PriceTable};

/// January 2024.
pub const JANUARY: Month = 288;

/// December 2024.
pub const DECEMBER: Month = 299;

/// What an output holds before a run.
pub const MARK: u8 = b'#';

/// The line of names of a journal, of 40 bytes.
pub const NAMES: &[u8] = b"kind,member,zone,flow,value,second,date\n";

/// The line of names of the output, of 52 bytes.
pub const OUTPUT_NAMES: &[u8] = b"line,month,place,dayb,nightb,dayc,nightc,drams,debt\n";

/// The line of an issue.
pub const ISSUE: &[u8] = b"ISSUE,-,-,-,-,-,-\n";

/// The line of a year closing.
pub const YEAR: &[u8] = b"YEAR,-,-,-,-,-,-\n";

/// The line of a payment of one dram by the first member, of 16 bytes.
pub const PAYMENT: &[u8] = b"PAY,0,-,-,1,-,-\n";

/// The book of the tests.
pub type PlainBook = Book<Proportion, FixedTariff>;

// A tariff of the same prices for every class, in hundredths of a dram.
pub(crate) fn tariff(energy: ByZone<u32>, distribution: u32, year_end: ByZone<u32>) -> FixedTariff {
    let prices = ClassPrices {
        energy,
        distribution,
        year_end,
    };
    FixedTariff {
        prices: PriceTable {
            household: prices,
            other: prices,
            vulnerable: prices,
        },
    }
}

// 45.00 by day, 35.07 by night, 10.00 for distribution, and 20.00 and 15.00 at the year end.
pub(crate) fn plain_tariff() -> FixedTariff {
    let energy = ByZone {
        day: 4_500,
        night: 3_507,
    };
    let year_end = ByZone {
        day: 2_000,
        night: 1_500,
    };
    tariff(energy, 1_000, year_end)
}

// What a group opens with for a member whose registers all stand at one value.
pub(crate) fn record(capacity: u32, standing: u32) -> OpeningRecord {
    let flows = ByFlow {
        consumed: standing,
        delivered: standing,
    };
    let standings = ByZone {
        day: flows,
        night: flows,
    };
    OpeningRecord::new(capacity, Class::Household, standings)
}

// Three members, the second without capacity. The registers of the first two stand at 0.
pub(crate) fn records() -> [OpeningRecord; 3] {
    [record(100, 0), record(0, 0), record(50, 9_000_000)]
}

// A group of these members at the prices of the tests.
pub(crate) fn setup(
    records: &[OpeningRecord],
    start: Month,
    holder: usize,
) -> Setup<'_, Proportion, FixedTariff> {
    Setup {
        number: 7,
        start,
        holder,
        records,
        rule: Proportion,
        tariff: plain_tariff(),
    }
}

// A book of the first of the three members, so many of them.
pub(crate) fn open(rt: &impl Abort, members: usize, start: Month, holder: usize) -> PlainBook {
    let records = records();
    setup(&records[..members.min(3)], start, holder)
        .open()
        .expect(rt, "an opening")
}

// A journal of these lines.
pub(crate) fn journal<R: AllocGlobal>(rt: &R, lines: &[&[u8]]) -> Result<Vec<u8>, Fail> {
    let lines = lines.concat(rt.alloc())?;
    Ok([NAMES, lines.as_slice()].concat(rt.alloc())?)
}

/// All that a book answers to questions.
#[derive(Clone, Copy, PartialEq, Eq, Debug)]
pub struct Answers {
    number: u32,
    holder: usize,
    members: usize,
    entries: u16,
    phase: Phase,
    carried: ByZone<u64>,
    year_end: Result<YearEnd, BookRefusal>,
    records: [Result<Member, BookRefusal>; 33],
}

// Asks a book every question.
pub(crate) fn seen(book: &PlainBook) -> Answers {
    let mut records = [Err(BookRefusal::Place); 33];
    for place in 0..33 {
        records[place] = book.member(place);
    }
    Answers {
        number: book.number(),
        holder: book.holder(),
        members: book.members(),
        entries: book.entries(),
        phase: book.phase(),
        carried: ByZone {
            day: book.carried(Zone::Day),
            night: book.carried(Zone::Night),
        },
        year_end: book.year_end(),
        records,
    }
}

// The debt of the member at a place.
pub(crate) fn debt(book: &PlainBook, place: usize) -> Option<i64> {
    book.member(place).ok().map(|member| member.account.debt)
}

/// Where and why a run is to stop, and what its fault is to tell.
#[derive(Clone, Copy)]
pub struct Stop {
    /// The line, counted from 1.
    pub line: usize,
    /// The refusal.
    pub refusal: RunRefusal,
    /// The refusal's number.
    pub number: u8,
    /// The first wrong field, where one is meant.
    pub field: Option<usize>,
    /// The part of the run that refuses.
    pub layer: Layer,
}

// A stop at a refusal of the text.
pub(crate) fn of_text(line: usize, refusal: RunRefusal, number: u8) -> Stop {
    Stop {
        line,
        refusal,
        number,
        field: None,
        layer: Layer::Text,
    }
}

// A stop at a refusal of the book.
pub(crate) fn of_book(line: usize, refusal: BookRefusal, number: u8) -> Stop {
    Stop {
        line,
        refusal: RunRefusal::Book(refusal),
        number,
        field: None,
        layer: Layer::Book,
    }
}

// The fault of a run is the one of a stop, whole and as told.
pub(crate) fn check_fault(rt: &impl Abort, fault: Option<RunFault>, stop: Stop) {
    let fault = fault.expect(rt, "a fault");
    let Stop {
        line,
        refusal,
        number,
        field,
        layer,
    } = stop;
    let told = RunFault {
        line,
        field,
        layer,
        refusal,
    };
    assert_eq!(rt; fault, told);
    assert_eq!(rt; fault.refusal.number(), number);
    assert_eq!(rt; fault.refusal.field(), field);
    assert_eq!(rt; fault.refusal.layer(), layer);
}

// The output begins with these bytes, as many as were told written, and holds beyond them what it held before the run.
pub(crate) fn check_output(rt: &impl Abort, out: &[u8], written: usize, text: &[u8]) {
    assert_eq!(rt; written, text.len());
    assert!(rt; written <= out.len());
    assert!(rt; &out[..written] == text);
    assert!(rt; out[written..].iter().all(|byte| *byte == MARK));
}

// Runs lines over a book to their end, and compares what is written behind the line of names.
pub(crate) fn runs<R: Abort + AllocGlobal>(
    rt: &R,
    book: &mut PlainBook,
    lines: &[u8],
    text: &[u8],
) -> Result<(), Fail> {
    let mut out = [MARK; 8_192];
    let outcome = run(book, &journal(rt, &[lines])?, &mut out);
    assert_eq!(rt; outcome.fault, None);
    let text = [OUTPUT_NAMES, text].concat(rt.alloc())?;
    check_output(rt, &out, outcome.written, &text);
    Ok(())
}

// Runs a journal that is to stop at its first line, with the book and the output as they were.
pub(crate) fn stops_at_line_1<R: Abort>(rt: &R, journal: &[u8], out: &mut [u8], stop: Stop) {
    let mut book = open(rt, 3, JANUARY, 0);
    let before = seen(&book);
    let Outcome { written, fault } = run(&mut book, journal, out);
    check_fault(rt, fault, stop);
    check_output(rt, out, written, b"");
    assert_eq!(rt; seen(&book), before);
}

// Runs lines over a book, and the same lines with further ones over its like: that run stops at the first further line,
// with the book and the output as the lines before it left them.
pub(crate) fn stops<R: Abort + AllocGlobal>(
    rt: &R,
    start: Month,
    before: &[u8],
    further: &[u8],
    stop: Stop,
) -> Result<(), Fail> {
    let mut book = open(rt, 3, start, 0);
    let mut out = [MARK; 8_192];
    let left = run(&mut book, &journal(rt, &[before])?, &mut out);
    assert_eq!(rt; left.fault, None);
    let mut stopped_book = open(rt, 3, start, 0);
    let mut stopped_out = [MARK; 8_192];
    let lines = journal(rt, &[before, further])?;
    let stopped = run(&mut stopped_book, &lines, &mut stopped_out);
    check_fault(rt, stopped.fault, stop);
    assert_eq!(rt; stopped.written, left.written);
    assert!(rt; stopped_out == out);
    assert_eq!(rt; seen(&stopped_book), seen(&book));
    Ok(())
}
