//! A quarter of a year of three members, with what each month comes to.
use crate::fixture::{
    MARK, TARIFF, account, change, consumed, correction, delivered, draw, enter_all, open, payment,
};
use billing::Account;
use book::Book;
use group::{Phase, Register};
use ledger::{Bill, ByZone, Entry, Flow, MemberRegister, Zone};
use sharing::{LineOrder, Proportion, SharingRule};
use std::process::Abort;
use tariff::FixedTariff;

type FixedBook<R> = Book<R, FixedTariff>;

// By day the first member delivers 350 kWh more than it consumes, and the others need 300 and 233 - 33 = 200.
// By night the first needs 40 on the old meter and 15 on the new one, and the last delivers 60.
fn october<R: SharingRule>(rt: &impl Abort, book: &mut FixedBook<R>) {
    let entries = [
        consumed(0, Zone::Day, 9045, 1_100),
        delivered(0, Zone::Day, 9069, 1_450),
        consumed(1, Zone::Day, 9040, 120),
        consumed(1, Zone::Day, 9070, 300),
        consumed(2, Zone::Day, 9050, 9_000_233),
        correction(2, Zone::Day, -33),
        change(0, Flow::Consumed, 9060, 1_040, 10),
        consumed(0, Zone::Night, 9070, 25),
        delivered(2, Zone::Night, 9070, 9_000_060),
        payment(1, 20_000),
    ];
    enter_all(rt, book, &entries);
}

// By day the first member has 700 kWh over, and the others need 100 and 80.
// By night the second has 20 over by a correction, and the last needs 12.
fn november<R: SharingRule>(rt: &impl Abort, book: &mut FixedBook<R>) {
    let entries = [
        delivered(0, Zone::Day, 9071, 2_150),
        consumed(1, Zone::Day, 9100, 400),
        consumed(2, Zone::Day, 9100, 9_000_313),
        correction(1, Zone::Night, -20),
        consumed(2, Zone::Night, 9080, 9_000_012),
        payment(0, 500),
    ];
    enter_all(rt, book, &entries);
}

// By day the members need 11, 400 and 400 kWh.
// By night they need 7 and 3, and the last consumes 25 and delivers 40 on the old meter and 8 on the new one.
fn december<R: SharingRule>(rt: &impl Abort, book: &mut FixedBook<R>) {
    let entries = [
        consumed(0, Zone::Day, 9131, 1_111),
        consumed(1, Zone::Day, 9131, 800),
        consumed(2, Zone::Day, 9131, 9_000_713),
        consumed(0, Zone::Night, 9131, 32),
        consumed(1, Zone::Night, 9131, 3),
        consumed(2, Zone::Night, 9131, 9_000_037),
        change(2, Flow::Delivered, 9101, 9_000_100, 5),
        delivered(2, Zone::Night, 9131, 13),
    ];
    enter_all(rt, book, &entries);
}

// What a member is billed and what it is covered, by day and by night, its bill, and its debt and kept fraction after it.
#[derive(Clone, Copy)]
struct Outcome((u32, u32), (u32, u32), i64, (i64, u8));

impl Outcome {
    fn bill(self) -> Bill {
        let Outcome(billed, covered, drams, (debt, _)) = self;
        Bill {
            billed: ByZone {
                day: billed.0,
                night: billed.1,
            },
            covered: ByZone {
                day: covered.0,
                night: covered.1,
            },
            drams,
            debt,
        }
    }

    fn account(self) -> Account {
        let Outcome(_, _, _, (debt, fraction)) = self;
        Account { debt, fraction }
    }
}

// Draws, checks and issues the open month, and compares what it comes to.
fn issue<R: SharingRule>(
    rt: &impl Abort,
    book: &mut FixedBook<R>,
    outcomes: &[Outcome],
    carried: (u64, u64),
) {
    let mut drawn = [MARK; 4];
    let mut issued = [MARK; 4];
    let draft = draw(rt, book, &mut drawn);
    let (draft, current) = book.check(draft);
    assert!(rt; current);
    assert_eq!(rt; book.issue(draft, &mut issued), Ok(()));
    assert_eq!(rt; issued, drawn);
    for (place, outcome) in outcomes.iter().enumerate() {
        assert_eq!(rt; issued.get(place).copied(), Some(outcome.bill()));
        assert_eq!(rt; account(book, place), Some(outcome.account()));
    }
    assert_eq!(rt; issued[3], MARK);
    assert_eq!(rt;
        (book.carried(Zone::Day), book.carried(Zone::Night)),
        carried
    );
    assert_eq!(rt; book.entries(), 0);
}

// Day: a pool of 350 for 500, so the second gets 350 * 300 / 500 = 210 and the last the other 140.
// Night: a pool of 60 for 55, so 5 are carried on.
// First: 55 * 12.63 = 694.65.
// Second: 90 * 53.33 + 210 * 16.07 = 4,799.70 + 3,374.70 = 8,174.40, after 20,000 were paid.
// Last: 60 * 29.99 + 140 * 9.01 = 1,799.40 + 1,261.40 = 3,060.80.
const OCTOBER: [Outcome; 3] = [
    Outcome((0, 0), (0, 55), 694, (694, 65)),
    Outcome((90, 0), (210, 0), 8_174, (-11_826, 40)),
    Outcome((60, 0), (140, 0), 3_060, (3_060, 80)),
];

// Day: a pool of 700 for 180, so 520 are carried on.
// Night: a pool of 5 + 20 = 25 for 12, so 13 are carried on.
// First: nothing, after 500 were paid.
// Second: 100 * 16.07 = 1,607.
// Last: 92 * 9.01 = 828.92, and 0.80 was kept, so 829.72.
const NOVEMBER: [Outcome; 3] = [
    Outcome((0, 0), (0, 0), 0, (194, 65)),
    Outcome((0, 0), (100, 0), 1_607, (-10_219, 40)),
    Outcome((0, 0), (80, 12), 829, (3_889, 72)),
];

// Day: a pool of 520 for 811. 520 * 11 / 811 = 7 and 520 * 411 / 811 = 263 rounded down, so the shares are 7, 256 and 257.
// Night: a pool of 13 + 48 - 25 = 36 for 10, so 26 are carried on.
// First: 4 * 48.45 + 14 * 12.63 = 193.80 + 176.82 = 370.62, and 0.65 was kept, so 371.27.
// Second: 144 * 53.33 + 259 * 16.07 = 7,679.52 + 4,162.13 = 11,841.65, and 0.40 was kept, so 11,842.05.
// Last: 143 * 29.99 + 257 * 9.01 = 4,288.57 + 2,315.57 = 6,604.14, and 0.72 was kept, so 6,604.86.
const DECEMBER: [Outcome; 3] = [
    Outcome((4, 0), (7, 7), 371, (565, 27)),
    Outcome((144, 0), (256, 3), 11_842, (1_623, 5)),
    Outcome((143, 0), (257, 0), 6_604, (10_493, 86)),
];

#[test]
fn three_months_in_turn(rt: HostRuntime) {
    let mut book = Book::new(Proportion, TARIFF);
    open(&rt, &mut book, 7);
    october(&rt, &mut book);
    assert_eq!(rt; book.entries(), 10);
    issue(&rt, &mut book, &OCTOBER, (0, 5));
    assert_eq!(rt; book.phase(), Phase::Open(298));
    november(&rt, &mut book);
    issue(&rt, &mut book, &NOVEMBER, (520, 13));
    assert_eq!(rt; book.phase(), Phase::Open(299));
    december(&rt, &mut book);
    issue(&rt, &mut book, &DECEMBER, (0, 26));
    assert_eq!(rt; book.phase(), Phase::YearEnd(299));
    // A new month tallies from nothing, and registers stand as before.
    let at = MemberRegister {
        place: 2,
        zone: Zone::Night,
        flow: Flow::Delivered,
    };
    let register = book.member(2).ok().map(|member| member.register_at(at));
    let expected = Register {
        standing: 13,
        tally: 0,
    };
    assert_eq!(rt; register, Some(expected));
}

// As by proportion, but by day the second gets its 300 of the 350, and the last the other 50.
// Second: 300 * 16.07 = 4,821. Last: 150 * 29.99 + 50 * 9.01 = 4,498.50 + 450.50 = 4,949.
const BY_ORDER: [Outcome; 3] = [
    Outcome((0, 0), (0, 55), 694, (694, 65)),
    Outcome((0, 0), (300, 0), 4_821, (-15_179, 0)),
    Outcome((150, 0), (50, 0), 4_949, (4_949, 0)),
];

#[test]
fn a_month_by_line_order(rt: HostRuntime) {
    let mut book = Book::new(LineOrder, TARIFF);
    open(&rt, &mut book, 7);
    october(&rt, &mut book);
    issue(&rt, &mut book, &BY_ORDER, (0, 5));
}

// What is owed and carried stays.
#[test]
fn a_month_without_an_entry(rt: HostRuntime) {
    let mut book = Book::new(Proportion, TARIFF);
    open(&rt, &mut book, 7);
    october(&rt, &mut book);
    issue(&rt, &mut book, &OCTOBER, (0, 5));
    let idle = [
        Outcome((0, 0), (0, 0), 0, (694, 65)),
        Outcome((0, 0), (0, 0), 0, (-11_826, 40)),
        Outcome((0, 0), (0, 0), 0, (3_060, 80)),
    ];
    issue(&rt, &mut book, &idle, (0, 5));
}

// By day the second member needs 1,000,000 - -1,000,000 = 2,000,000 kWh, the most there is, and no one covers it.
// By night the first has as much over, and the last 999,999 + 1,000,000.
fn extremes() -> [Entry; 6] {
    [
        consumed(1, Zone::Day, 9070, 1_000_000),
        Entry::Correction {
            register: MemberRegister {
                place: 1,
                zone: Zone::Day,
                flow: Flow::Delivered,
            },
            quantity: -1_000_000,
        },
        delivered(0, Zone::Night, 9070, 1_001_000),
        correction(0, Zone::Night, -1_000_000),
        correction(2, Zone::Night, -1_000_000),
        change(2, Flow::Delivered, 9070, 9_999_999, 0),
    ]
}

// 2,000,000 * 53.33 = 106,660,000.
const LARGEST: [Outcome; 3] = [
    Outcome((0, 0), (0, 0), 0, (0, 0)),
    Outcome((2_000_000, 0), (0, 0), 106_660_000, (106_660_000, 0)),
    Outcome((0, 0), (0, 0), 0, (0, 0)),
];

#[test]
fn the_largest_needs_and_surpluses(rt: HostRuntime) {
    let mut book = Book::new(Proportion, TARIFF);
    open(&rt, &mut book, 7);
    enter_all(&rt, &mut book, &extremes());
    issue(&rt, &mut book, &LARGEST, (0, 3_999_999));
}
