//! Where an opening is refused, and what a taken one makes.
use crate::fixture::{OCTOBER, blank, number, opened, record, seen};
use calendar::Month;
use group::{Member, OpeningRecord, Phase};
use ledger::{ByFlow, ByZone};
use tariff::Class;

// How many records there are, the start month, the holder's place, the capacity of the first record and that of each other,
// what every register stands at, and the refusal's number, if there is one.
#[derive(Clone, Copy)]
struct Case(usize, Month, usize, (u32, u32), u32, Option<u8>);

const CASES: [Case; 30] = [
    Case(1, 297, 0, (1, 0), 0, None),
    Case(32, 297, 31, (0, 32), 0, None),
    Case(0, 297, 0, (1, 1), 0, Some(2)),
    Case(33, 297, 0, (1, 1), 0, Some(2)),
    Case(3, 0, 0, (1, 1), 0, None),
    Case(3, 1199, 0, (1, 1), 0, None),
    Case(3, 1200, 0, (1, 1), 0, Some(3)),
    Case(3, u16::MAX, 0, (1, 1), 0, Some(3)),
    Case(3, 297, 0, (150, 1), 0, None),
    Case(3, 297, 0, (151, 1), 0, Some(4)),
    Case(3, 297, 0, (1, 151), 0, Some(4)),
    Case(8, 297, 7, (0, 150), 0, None),
    Case(8, 297, 7, (1, 150), 0, Some(4)),
    Case(32, 297, 0, (89, 31), 0, None),
    Case(32, 297, 0, (90, 31), 0, Some(4)),
    Case(2, 297, 0, (u32::MAX, 1), 0, Some(4)),
    Case(3, 297, 0, (0, 1), 0, Some(5)),
    Case(3, 297, 2, (1, 0), 0, Some(5)),
    Case(3, 297, 3, (1, 1), 0, Some(5)),
    Case(3, 297, usize::MAX, (1, 1), 0, Some(5)),
    Case(3, 297, 0, (1, 1), 9_999_999, None),
    Case(3, 297, 0, (1, 1), 10_000_000, Some(6)),
    Case(3, 297, 0, (1, 1), u32::MAX, Some(6)),
    // Two that hold together, neighbours first.
    Case(0, 1200, 0, (1, 1), 0, Some(2)),
    Case(3, 1200, 0, (151, 1), 0, Some(3)),
    Case(3, 297, 3, (151, 1), 0, Some(4)),
    Case(3, 297, 3, (1, 1), 10_000_000, Some(5)),
    Case(33, 297, 0, (151, 1), 0, Some(2)),
    Case(3, 1200, 3, (1, 1), 0, Some(3)),
    Case(33, 1200, 33, (151, 151), 10_000_000, Some(2)),
];

#[test]
fn openings_at_the_edges(rt: HostRuntime) {
    for case in CASES.iter() {
        let Case(count, start, holder, (first, other), standing, refusal) = *case;
        let mut records = [record(other, Class::Other, standing); 33];
        records[0] = record(first, Class::Other, standing);
        let mut book = blank();
        let before = seen(&book);
        let answer = book.open(7, start, holder, &records[..count.min(33)]);
        assert_eq!(rt; number(answer), refusal);
        if refusal.is_some() {
            assert_eq!(rt; seen(&book), before);
        } else {
            assert_eq!(rt; book.phase(), Phase::Open(start));
            assert_eq!(rt; book.members(), count);
            assert_eq!(rt; book.holder(), holder);
        }
    }
}

// What both registers of a member stand at by day and by night, and the refusal's number, if there is one.
const STANDINGS: [((u32, u32), (u32, u32), Option<u8>); 5] = [
    ((9_999_999, 9_999_999), (9_999_999, 9_999_999), None),
    ((10_000_000, 0), (0, 0), Some(6)),
    ((0, 10_000_000), (0, 0), Some(6)),
    ((0, 0), (10_000_000, 0), Some(6)),
    ((0, 0), (0, 10_000_000), Some(6)),
];

fn flows((consumed, delivered): (u32, u32)) -> ByFlow<u32> {
    ByFlow {
        consumed,
        delivered,
    }
}

// The register that is over may be any of the last member's.
#[test]
fn every_register_is_looked_at(rt: HostRuntime) {
    for (day, night, refusal) in STANDINGS.iter().copied() {
        let standings = ByZone {
            day: flows(day),
            night: flows(night),
        };
        let records = [
            record(1, Class::Other, 0),
            OpeningRecord::new(0, Class::Other, standings),
        ];
        assert_eq!(rt; number(blank().open(7, OCTOBER, 0, &records)), refusal);
    }
}

#[test]
fn a_book_opens_once(rt: HostRuntime) {
    let mut book = opened(&rt, 7);
    let before = seen(&book);
    let again = [record(1, Class::Other, 0)];
    assert_eq!(rt; number(book.open(8, OCTOBER, 0, &again)), Some(1));
    // Every other refusal comes later.
    assert_eq!(rt; number(book.open(8, 1200, 0, &[])), Some(1));
    assert_eq!(rt; seen(&book), before);
}

#[test]
fn a_refused_opening_may_be_tried_again(rt: HostRuntime) {
    let mut book = blank();
    let one = record(1, Class::Vulnerable, 5);
    assert_eq!(rt; number(book.open(8, OCTOBER, 1, &[one])), Some(5));
    assert_eq!(rt; book.phase(), Phase::Blank);
    assert_eq!(rt; book.open(7, OCTOBER, 0, &[one]), Ok(()));
    assert_eq!(rt; book.number(), 7);
    assert_eq!(rt; book.entries(), 0);
    assert_eq!(rt; book.member(0), Ok(Member::opened(one)));
    assert_eq!(rt;
        book.member(1).err().map(|refusal| refusal.number()),
        Some(13)
    );
}
