//! What an issued December leaves.
use crate::fixture::{
    MARK, OCTOBER, PlainBook, blank, change, check, consumed, correction, draw, enter, number,
    payment, record, refused_drawing, seen,
};
use book::Draft;
use calendar::Month;
use group::Phase;
use ledger::{Flow, Zone};
use std::process::Abort;
use tariff::Class;

// A book of one member whose first month is this one.
fn begun(rt: &impl Abort, start: Month) -> PlainBook {
    let mut book = blank();
    let records = [record(1, Class::Household, 0)];
    assert_eq!(rt; book.open(7, start, 0, &records), Ok(()));
    book
}

// A start month, and the phase after it is issued.
const NEXT: [(Month, Phase); 5] = [
    (0, Phase::Open(1)),
    (10, Phase::Open(11)),
    (11, Phase::YearEnd(11)),
    (1198, Phase::Open(1199)),
    (1199, Phase::YearEnd(1199)),
];

#[test]
fn a_year_ends_with_december(rt: HostRuntime) {
    for (start, next) in NEXT.iter().copied() {
        let mut book = begun(&rt, start);
        let draft = draw(&rt, &book, &mut [MARK]);
        assert_eq!(rt; book.issue(draft, &mut [MARK]), Ok(()));
        assert_eq!(rt; book.phase(), next);
    }
}

// A book at the year end, and a draft that was drawn before the issue of December.
fn ended(rt: &impl Abort) -> (PlainBook, Draft) {
    let mut book = begun(rt, OCTOBER + 2);
    let early = draw(rt, &book, &mut [MARK]);
    let draft = draw(rt, &book, &mut [MARK]);
    assert_eq!(rt; book.issue(draft, &mut [MARK]), Ok(()));
    assert_eq!(rt; book.phase(), Phase::YearEnd(299));
    (book, early)
}

#[test]
fn nothing_is_entered_at_the_year_end(rt: HostRuntime) {
    let (mut book, early) = ended(&rt);
    book.withdraw(early);
    let entries = [
        consumed(0, Zone::Day, 9131, 0),
        consumed(0, Zone::Day, 9132, 0),
        consumed(1, Zone::Day, 9131, 10_000_000),
        change(0, Flow::Delivered, 9131, 0, 0),
        correction(0, Zone::Night, 1),
        payment(0, 1),
        payment(1, 0),
    ];
    for entry in entries {
        enter(&rt, &mut book, entry, Some(11));
    }
}

#[test]
fn nothing_is_drawn_or_issued_at_the_year_end(rt: HostRuntime) {
    let (mut book, early) = ended(&rt);
    let before = seen(&book);
    let mut bills = [MARK; 2];
    let early = check(&rt, &book, early, false);
    assert_eq!(rt; number(book.issue(early, &mut bills)), Some(11));
    assert_eq!(rt; refused_drawing(&book, &mut bills), Some(11));
    // The slice would be too short as well.
    assert_eq!(rt; refused_drawing(&book, &mut []), Some(11));
    let again = [record(1, Class::Household, 0)];
    assert_eq!(rt; number(book.open(8, OCTOBER, 0, &again)), Some(1));
    assert_eq!(rt; seen(&book), before);
    assert_eq!(rt; bills, [MARK; 2]);
}
