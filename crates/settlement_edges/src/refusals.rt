//! Lines at which a run stops, by the text and by the book.
use crate::fixture::{
    DECEMBER, ISSUE, JANUARY, MARK, OUTPUT_NAMES, PAYMENT, PlainBook, Stop, YEAR, check_fault,
    check_output, journal, of_book, of_text, plain_tariff, seen, stops,
};
use book::Book;
use calendar::Month;
use group::BookRefusal;
use journal::ReadRefusal;
use settlement::{RunRefusal, run};
use sharing::Proportion;
use std::test::Fail;

// What a journal goes on with where its first line has not its line feed or not seven fields, and is wrong in a field as well.
const NO_FIELDS: [&[u8]; 15] = [
    b"\n",
    b"\r\n",
    b"PAY,0,-,-,1,-\n",
    b"PAY,0,-,-,1,-,-,-\n",
    b"PAY,0,-,-,1,-,-,\n",
    b"PAY;0;-;-;1;-;-\n",
    b"SELL,x\n",
    b"SELL,x,x,x,x,x,x,x\n",
    // Without a line feed.
    b"PAY,0,-,-,1,-,-",
    b"ISSUE,-,-,-,-,-,-",
    b"YEAR,-,-,-,-,-,-",
    b"SELL,x,x,x,x,x,x",
    b"PAY,9,-,-,1,-,-\r",
    b"P",
    b"\xd0",
];

#[test]
fn lines_without_seven_fields(rt: HostRuntime) -> Result<(), Fail> {
    let refusal = RunRefusal::Line(ReadRefusal::Fields);
    for text in NO_FIELDS.iter().copied() {
        stops(&rt, JANUARY, b"", text, of_text(2, refusal, 25))?;
        stops(&rt, JANUARY, PAYMENT, text, of_text(3, refusal, 25))?;
        stops(&rt, DECEMBER, ISSUE, text, of_text(3, refusal, 25))?;
    }
    Ok(())
}

// Lines with their first wrong field. Most of them the book would refuse as well, or there are further wrong fields.
const WRONG: [(&[u8], usize); 22] = [
    (b"SELL,0,-,-,1,-,-\n", 1),
    (b"pay,0,-,-,1,-,-\n", 1),
    (b",,,,,,\n", 1),
    (b"kind,member,zone,flow,value,second,date\n", 1),
    (b"PAY,x,-,-,x,-,-\n", 2),
    (b"PAY,-,-,-,0,-,-\n", 2),
    (b"YEAR,0,-,-,-,-,-\n", 2),
    (b"READ,9,NOON,USE,1,-,2024-01-31\n", 3),
    (b"PAY,9,DAY,-,1,-,-\n", 3),
    (b"READ,9,DAY,TAKE,1,-,2024-01-31\n", 4),
    (b"CORR,9,NIGHT,-,1,-,-\n", 4),
    (b"PAY,9,-,-,01,-,-\n", 5),
    (b"PAY,9,-,-,1000000000,-,-\n", 5),
    (b"CORR,9,DAY,USE,-0,-,-\n", 5),
    (b"SWAP,9,DAY,USE,10000000,-,2024-01-31\n", 6),
    (b"READ,9,DAY,USE,10000000,0,2024-01-31\n", 6),
    (b"READ,9,DAY,USE,10000000,-,2024-02-30\n", 7),
    (b"READ,9,DAY,USE,10000000,-,2100-01-01\n", 7),
    (b"CORR,9,DAY,USE,1,-,2024-01-31\n", 7),
    (b"ISSUE,-,-,-,-,-,-\r\n", 7),
    (b"YEAR,-,-,-,-,-,2024-12-31\n", 7),
    (b"PAY,0,-,-,1,-,\n", 7),
];

#[test]
fn lines_with_a_wrong_field(rt: HostRuntime) -> Result<(), Fail> {
    for (line, field) in WRONG.iter().copied() {
        let stop = Stop {
            field: Some(field),
            ..of_text(3, RunRefusal::Line(ReadRefusal::Form { field }), 26)
        };
        let text = [line, PAYMENT].concat(rt.alloc())?;
        stops(&rt, JANUARY, PAYMENT, &text, stop)?;
        stops(&rt, DECEMBER, ISSUE, &text, stop)?;
    }
    Ok(())
}

// A start month, the lines before the refused one, that line with its number, and the refusal with its number.
#[derive(Clone, Copy)]
struct Case(Month, &'static [u8], &'static [u8], usize, BookRefusal, u8);

const NONE: &[u8] = b"";

const CASES: [Case; 34] = [
    // At a year end no month is open.
    Case(DECEMBER, ISSUE, PAYMENT, 3, BookRefusal::NoMonth, 11),
    Case(DECEMBER, ISSUE, ISSUE, 3, BookRefusal::NoMonth, 11),
    Case(
        DECEMBER,
        ISSUE,
        b"PAY,9,-,-,0,-,-\n",
        3,
        BookRefusal::NoMonth,
        11,
    ),
    // The last December's year end, and after it.
    Case(1199, ISSUE, ISSUE, 3, BookRefusal::NoMonth, 11),
    Case(
        1199,
        b"ISSUE,-,-,-,-,-,-\nYEAR,-,-,-,-,-,-\n",
        ISSUE,
        4,
        BookRefusal::NoMonth,
        11,
    ),
    Case(
        1199,
        b"ISSUE,-,-,-,-,-,-\nYEAR,-,-,-,-,-,-\n",
        YEAR,
        4,
        BookRefusal::NoYearEnd,
        12,
    ),
    Case(JANUARY, NONE, YEAR, 2, BookRefusal::NoYearEnd, 12),
    Case(JANUARY, ISSUE, YEAR, 3, BookRefusal::NoYearEnd, 12),
    Case(DECEMBER, NONE, YEAR, 2, BookRefusal::NoYearEnd, 12),
    Case(
        DECEMBER,
        b"ISSUE,-,-,-,-,-,-\nYEAR,-,-,-,-,-,-\n",
        YEAR,
        4,
        BookRefusal::NoYearEnd,
        12,
    ),
    Case(
        JANUARY,
        NONE,
        b"PAY,3,-,-,1,-,-\n",
        2,
        BookRefusal::Place,
        13,
    ),
    Case(
        JANUARY,
        NONE,
        b"PAY,999999999,-,-,0,-,-\n",
        2,
        BookRefusal::Place,
        13,
    ),
    Case(
        JANUARY,
        PAYMENT,
        b"READ,3,DAY,USE,0,-,2023-12-31\n",
        3,
        BookRefusal::Place,
        13,
    ),
    Case(
        JANUARY,
        NONE,
        b"READ,0,DAY,USE,0,-,2023-12-31\n",
        2,
        BookRefusal::Day,
        15,
    ),
    Case(
        JANUARY,
        NONE,
        b"READ,0,DAY,USE,0,-,2024-02-01\n",
        2,
        BookRefusal::Day,
        15,
    ),
    Case(
        JANUARY,
        ISSUE,
        b"READ,0,DAY,USE,0,-,2024-01-31\n",
        3,
        BookRefusal::Day,
        15,
    ),
    Case(
        JANUARY,
        ISSUE,
        b"SWAP,0,DAY,USE,0,10000000,2024-03-01\n",
        3,
        BookRefusal::Day,
        15,
    ),
    Case(
        JANUARY,
        NONE,
        b"READ,2,DAY,USE,10000000,-,2024-01-31\n",
        2,
        BookRefusal::Value,
        16,
    ),
    Case(
        JANUARY,
        NONE,
        b"SWAP,2,DAY,USE,9999999,10000000,2024-01-31\n",
        2,
        BookRefusal::Value,
        16,
    ),
    Case(
        JANUARY,
        NONE,
        b"CORR,0,DAY,USE,1000001,-,-\n",
        2,
        BookRefusal::Value,
        16,
    ),
    Case(
        JANUARY,
        NONE,
        b"CORR,0,DAY,USE,-1000001,-,-\n",
        2,
        BookRefusal::Value,
        16,
    ),
    Case(
        JANUARY,
        NONE,
        b"PAY,0,-,-,0,-,-\n",
        2,
        BookRefusal::Value,
        16,
    ),
    Case(
        JANUARY,
        NONE,
        b"PAY,0,-,-,100000001,-,-\n",
        2,
        BookRefusal::Value,
        16,
    ),
    Case(
        JANUARY,
        NONE,
        b"READ,2,DAY,USE,8999999,-,2024-01-31\n",
        2,
        BookRefusal::Below,
        17,
    ),
    Case(
        JANUARY,
        NONE,
        b"SWAP,2,NIGHT,GIVE,8999999,0,2024-01-31\n",
        2,
        BookRefusal::Below,
        17,
    ),
    Case(
        JANUARY,
        b"READ,0,DAY,GIVE,9,-,2024-01-31\n",
        b"READ,0,DAY,GIVE,8,-,2024-01-31\n",
        3,
        BookRefusal::Below,
        17,
    ),
    Case(
        JANUARY,
        b"SWAP,0,DAY,USE,9,5,2024-01-31\n",
        b"READ,0,DAY,USE,4,-,2024-01-31\n",
        3,
        BookRefusal::Below,
        17,
    ),
    Case(
        JANUARY,
        NONE,
        b"READ,0,DAY,USE,1000001,-,2024-01-01\n",
        2,
        BookRefusal::Tally,
        18,
    ),
    Case(
        JANUARY,
        NONE,
        b"SWAP,0,DAY,USE,1000001,0,2024-01-01\n",
        2,
        BookRefusal::Tally,
        18,
    ),
    Case(
        JANUARY,
        b"CORR,1,NIGHT,USE,1000000,-,-\n",
        b"CORR,1,NIGHT,USE,1,-,-\n",
        3,
        BookRefusal::Tally,
        18,
    ),
    Case(
        JANUARY,
        b"CORR,1,NIGHT,USE,-1000000,-,-\n",
        b"CORR,1,NIGHT,USE,-1,-,-\n",
        3,
        BookRefusal::Tally,
        18,
    ),
    // Ten payments of 100,000,000 drams leave the lowest debt.
    Case(JANUARY, LOWEST, PAYMENT, 12, BookRefusal::Debt, 19),
    Case(
        JANUARY,
        LOWEST,
        b"PAY,0,-,-,100000000,-,-\n",
        12,
        BookRefusal::Debt,
        19,
    ),
    Case(
        JANUARY,
        LOWEST,
        b"PAY,0,-,-,0,-,-\n",
        12,
        BookRefusal::Value,
        16,
    ),
];

const LOWEST: &[u8] = b"PAY,0,-,-,100000000,-,-
PAY,0,-,-,100000000,-,-
PAY,0,-,-,100000000,-,-
PAY,0,-,-,100000000,-,-
PAY,0,-,-,100000000,-,-
PAY,0,-,-,100000000,-,-
PAY,0,-,-,100000000,-,-
PAY,0,-,-,100000000,-,-
PAY,0,-,-,100000000,-,-
PAY,0,-,-,100000000,-,-
";

// What the refused line is followed by is a payment that would be taken, so that a book left as it was tells that the run stopped.
#[test]
fn lines_that_the_book_refuses(rt: HostRuntime) -> Result<(), Fail> {
    for case in CASES.iter().copied() {
        let Case(start, before, line, number, refusal, refusal_number) = case;
        let stop = of_book(number, refusal, refusal_number);
        let text = [line, b"PAY,1,-,-,5,-,-\n"].concat(rt.alloc())?;
        stops(&rt, start, before, &text, stop)?;
    }
    Ok(())
}

// The line after a thousand entries is the one thousand and second.
#[test]
fn a_month_has_a_thousand_entries(rt: HostRuntime) -> Result<(), Fail> {
    let entries = PAYMENT.repeat(rt.alloc(), 1_000)?;
    let stop = of_book(1_002, BookRefusal::Full, 14);
    let further: [&[u8]; 4] = [
        PAYMENT,
        b"CORR,1,DAY,USE,1,-,-\n",
        b"READ,0,DAY,USE,10000000,-,2023-12-31\n",
        b"PAY,0,-,-,0,-,-\n",
    ];
    for line in further.iter().copied() {
        stops(&rt, JANUARY, &entries, line, stop)?;
    }
    let refused = of_book(1_002, BookRefusal::Place, 13);
    stops(&rt, JANUARY, &entries, b"PAY,3,-,-,1,-,-\n", refused)
}

// A book that was never opened takes a journal of no lines, and refuses each line.
#[test]
fn a_blank_book_refuses_every_line(rt: HostRuntime) -> Result<(), Fail> {
    let no_month = of_book(2, BookRefusal::NoMonth, 11);
    let no_year_end = of_book(2, BookRefusal::NoYearEnd, 12);
    let cases = [(PAYMENT, no_month), (ISSUE, no_month), (YEAR, no_year_end)];
    for (line, stop) in cases {
        let mut book: PlainBook = Book::new(Proportion, plain_tariff());
        let before = seen(&book);
        let mut out = [MARK; 4_148];
        let outcome = run(&mut book, &journal(&rt, &[line])?, &mut out);
        check_fault(&rt, outcome.fault, stop);
        check_output(&rt, &out, outcome.written, OUTPUT_NAMES);
        assert_eq!(rt; seen(&book), before);
    }
    Ok(())
}
