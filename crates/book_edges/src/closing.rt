//! Where a year closes, what its closing pays, and what it leaves.
use crate::fixture::{
    MARK, OCTOBER, PlainBook, account, blank, consumed, correction, delivered, draw, enter,
    enter_all, number, open, payment, record, refused_drawing, seen,
};
use billing::Account;
use book::Book;
use calendar::Month;
use group::{BookRefusal, Member, Phase};
use ledger::{Bill, ByZone, YearEnd, Zone};
use sharing::{Proportion, SharingRule};
use std::process::Abort;
use tariff::{Class, ClassPrices, FixedTariff, PriceTable, Schedule, ScheduleRow, Tariff};

// Energy costs far more than distribution, so that a debt shows whether a need was covered.
fn class_prices(distribution: u32, day: u32, night: u32) -> ClassPrices {
    ClassPrices {
        energy: ByZone {
            day: 5333,
            night: 4077,
        },
        distribution,
        year_end: ByZone { day, night },
    }
}

fn tariff() -> FixedTariff {
    FixedTariff {
        prices: PriceTable {
            household: class_prices(10, 11, 13),
            other: class_prices(10, 20, 15),
            vulnerable: class_prices(7, 9, 4),
        },
    }
}

const NOTHING: ByZone<u64> = ByZone { day: 0, night: 0 };

// Asks for a closing and calls for it where both are to be refused, and sees that the book is left as it was.
fn refuse<R: SharingRule, T: Tariff>(rt: &impl Abort, book: &mut Book<R, T>) {
    let before = seen(book);
    let asked = book.year_end().map(|_| ());
    let closed = book.close_year().map(|_| ());
    assert_eq!(rt; (number(asked), number(closed)), (Some(12), Some(12)));
    assert_eq!(rt; seen(book), before);
}

// Asks for the figures of a closing, which alters nothing, and closes to the same ones.
fn close<R: SharingRule, T: Tariff>(rt: &impl Abort, book: &mut Book<R, T>, figures: YearEnd) {
    let before = seen(book);
    assert_eq!(rt; book.year_end(), Ok(figures));
    assert_eq!(rt; seen(book), before);
    assert_eq!(rt; book.close_year(), Ok(figures));
    // A year closes once.
    refuse(rt, book);
}

// Issues the open month of a group of up to three members.
fn issue<R: SharingRule, T: Tariff>(rt: &impl Abort, book: &mut Book<R, T>) -> [Bill; 3] {
    let mut bills = [MARK; 3];
    let draft = draw(rt, book, &mut bills);
    assert_eq!(rt; book.issue(draft, &mut bills), Ok(()));
    bills
}

// A book of one household whose first month is this one.
fn begun(rt: &impl Abort, start: Month) -> PlainBook {
    let mut book = Book::new(Proportion, tariff());
    let records = [record(1, Class::Household, 0)];
    assert_eq!(rt; book.open(7, start, 0, &records), Ok(()));
    book
}

#[test]
fn no_year_closes_before_its_december_is_issued(rt: HostRuntime) {
    refuse(&rt, &mut blank());
    for start in [0, 10, 11, 298, 299, 1199] {
        refuse(&rt, &mut begun(&rt, start));
    }
}

// A December, and the phase after its year is closed.
const NEXT: [(Month, Phase); 4] = [
    (11, Phase::Open(12)),
    (299, Phase::Open(300)),
    (1187, Phase::Open(1188)),
    (1199, Phase::Over),
];

#[test]
fn january_follows_until_the_book_is_over(rt: HostRuntime) {
    let figures = YearEnd {
        paid: NOTHING,
        drams: 0,
        debt: 0,
    };
    for (december, next) in NEXT.iter().copied() {
        let mut book = begun(&rt, december);
        issue(&rt, &mut book);
        close(&rt, &mut book, figures);
        assert_eq!(rt; book.phase(), next);
        assert_eq!(rt; book.entries(), 0);
    }
}

// The holder's place, what it needs by day and is covered, what the first member delivers by day and by night,
// what is paid, the drams and the debt after them, and the fraction that is kept.
#[derive(Clone, Copy)]
struct Case(usize, u32, (u32, u32), (u64, u64), (i64, i64), u8);

const CASES: [Case; 6] = [
    // 123 * 0.10 = 12.30 is owed. The credit is 20 * 0.20 + 40 * 0.15 = 10.00, and 0.30 - 10.00 = -10 + 0.30.
    Case(1, 123, (143, 40), (20, 40), (-10, 2), 30),
    // The credit is 0.15, and -0.15 = -1 + 0.85.
    Case(1, 0, (0, 1), (0, 1), (-1, -1), 85),
    // 9 * 0.10 = 0.90 is owed, and the credit of 0.20 is taken from it.
    Case(1, 9, (10, 0), (1, 0), (0, 0), 70),
    // 12.30 is owed, and nothing is carried.
    Case(1, 123, (123, 0), (0, 0), (0, 12), 30),
    // 14 * 0.07 = 0.98 is owed. The credit is 20 * 0.09 + 40 * 0.04 = 3.40, and 0.98 - 3.40 = -2.42 = -3 + 0.58.
    Case(2, 14, (34, 40), (20, 40), (-3, -3), 58),
    // The credit is 25 * 0.04 = 1.00.
    Case(2, 0, (0, 25), (0, 25), (-1, -1), 0),
];

// A book at the end of 2024, whose first member paid 500 drams.
fn ended(rt: &impl Abort, case: Case) -> PlainBook {
    let Case(holder, covered, (day, night), _, _, _) = case;
    let mut book = Book::new(Proportion, tariff());
    let records = [
        record(1, Class::Household, 0),
        record(1, Class::Other, 0),
        record(1, Class::Vulnerable, 0),
    ];
    assert_eq!(rt; book.open(7, OCTOBER + 2, holder, &records), Ok(()));
    let entries = [
        consumed(holder, Zone::Day, 9131, covered),
        delivered(0, Zone::Day, 9131, day),
        delivered(0, Zone::Night, 9131, night),
        payment(0, 500),
    ];
    enter_all(rt, &mut book, &entries);
    issue(rt, &mut book);
    book
}

#[test]
fn the_holder_is_paid_and_no_one_else(rt: HostRuntime) {
    for case in CASES.iter() {
        let Case(holder, _, _, (day, night), (drams, debt), fraction) = *case;
        let mut book = ended(&rt, *case);
        let mut after = seen(&book);
        let paid = ByZone { day, night };
        assert_eq!(rt; after.carried, paid);
        close(&rt, &mut book, YearEnd { paid, drams, debt });
        // All else stays: the registers, the other records, and that no entry is made.
        after.phase = Phase::Open(300);
        after.carried = NOTHING;
        after.year_end = Err(BookRefusal::NoYearEnd);
        let place = holder.min(3);
        let account = Account { debt, fraction };
        after.records[place] = after.records[place].map(|member| Member { account, ..member });
        assert_eq!(rt; seen(&book), after);
    }
}

// A January and its December, and the drams, the debt and the fraction after the closing.
// Each year carries 10 kWh by day from its January on, and is paid 10 * 0.11 = 1.10 for them.
const YEARS: [(Month, Month, i64, i64, u8); 3] = [
    // -1.10 = -2 + 0.90.
    (288, 299, -2, -2, 90),
    // 0.90 - 1.10 = -0.20 = -1 + 0.80.
    (300, 311, -1, -3, 80),
    // 0.80 - 1.10 = -0.30 = -1 + 0.70.
    (312, 323, -1, -4, 70),
];

#[test]
fn each_year_carries_its_own(rt: HostRuntime) {
    let mut book = begun(&rt, 288);
    for (january, december, drams, debt, fraction) in YEARS.iter().copied() {
        assert_eq!(rt; book.phase(), Phase::Open(january));
        assert_eq!(rt; seen(&book).carried, NOTHING);
        enter(&rt, &mut book, correction(0, Zone::Day, -10), None);
        for _ in 0..12 {
            issue(&rt, &mut book);
        }
        assert_eq!(rt; book.phase(), Phase::YearEnd(december));
        let paid = ByZone { day: 10, night: 0 };
        close(&rt, &mut book, YearEnd { paid, drams, debt });
        assert_eq!(rt; account(&book, 0), Some(Account { debt, fraction }));
    }
}

#[test]
fn nothing_follows_the_last_year(rt: HostRuntime) {
    let mut book = begun(&rt, 1199);
    let early = draw(&rt, &book, &mut [MARK]);
    enter(&rt, &mut book, correction(0, Zone::Night, -100), None);
    issue(&rt, &mut book);
    // 100 * 0.13 = 13.00.
    let figures = YearEnd {
        paid: ByZone { day: 0, night: 100 },
        drams: -13,
        debt: -13,
    };
    close(&rt, &mut book, figures);
    let before = seen(&book);
    assert_eq!(rt; before.phase, Phase::Over);
    // Day 36524 is the last of all.
    let entries = [
        consumed(0, Zone::Day, 36_524, 0),
        consumed(0, Zone::Day, 36_525, 0),
        correction(1, Zone::Night, 1),
        payment(0, 1),
    ];
    for entry in entries {
        enter(&rt, &mut book, entry, Some(11));
    }
    let mut bills = [MARK; 2];
    assert_eq!(rt; refused_drawing(&book, &mut bills), Some(11));
    assert_eq!(rt; refused_drawing(&book, &mut []), Some(11));
    assert_eq!(rt; number(book.issue(early, &mut bills)), Some(11));
    let again = [record(1, Class::Household, 0)];
    assert_eq!(rt; number(book.open(8, OCTOBER, 0, &again)), Some(1));
    assert_eq!(rt; seen(&book), before);
    assert_eq!(rt; bills, [MARK; 2]);
}

// Prices from a month on: of the year end for households, and of energy by day for others.
fn row(first_month: Month, year_end: (u32, u32), energy: u32) -> ScheduleRow {
    let none = class_prices(0, 0, 0);
    let (day, night) = year_end;
    ScheduleRow {
        first_month,
        prices: PriceTable {
            household: class_prices(0, day, night),
            other: ClassPrices {
                energy: ByZone {
                    day: energy,
                    night: 0,
                },
                ..none
            },
            vulnerable: none,
        },
    }
}

#[test]
fn december_prices_what_is_carried_and_january_what_comes(rt: HostRuntime) {
    let rows = [
        row(0, (1, 2), 1_000),
        row(299, (11, 13), 2_000),
        row(300, (17, 19), 3_001),
    ];
    let mut book = Book::new(Proportion, Schedule { rows: &rows });
    open(&rt, &mut book, 7);
    enter(&rt, &mut book, correction(0, Zone::Day, -30), None);
    enter(&rt, &mut book, correction(2, Zone::Night, -10), None);
    for _ in 0..3 {
        issue(&rt, &mut book);
    }
    // 30 * 0.11 + 10 * 0.13 = 4.60, and -4.60 = -5 + 0.40.
    let figures = YearEnd {
        paid: ByZone { day: 30, night: 10 },
        drams: -5,
        debt: -5,
    };
    close(&rt, &mut book, figures);
    // Nothing is carried that could cover them: 7 * 30.01 = 210.07.
    enter(&rt, &mut book, correction(1, Zone::Day, 7), None);
    let bill = Bill {
        billed: ByZone { day: 7, night: 0 },
        covered: ByZone { day: 0, night: 0 },
        drams: 210,
        debt: 210,
    };
    assert_eq!(rt; issue(&rt, &mut book)[1], bill);
}
