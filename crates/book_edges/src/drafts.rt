//! What drawing writes, when a draft is current, and what a refused call leaves.
use crate::fixture::{
    MARK, PlainBook, blank, check, consumed, draw, enter, number, opened, payment, refused_drawing,
    seen,
};
use book::Draft;
use ledger::{Bill, ByZone, Zone};
use std::process::Abort;

// The line of a member that consumed nothing.
fn idle(debt: i64) -> Bill {
    Bill {
        debt,
        ..Bill::default()
    }
}

// The second member consumes 10 kWh by day, which no one covers: 10 * 53.33 = 533.30.
fn with_one_entry(rt: &impl Abort) -> PlainBook {
    let mut book = opened(rt, 7);
    enter(rt, &mut book, consumed(1, Zone::Day, 9040, 10), None);
    book
}

const LINE: Bill = Bill {
    billed: ByZone { day: 10, night: 0 },
    covered: ByZone { day: 0, night: 0 },
    drams: 533,
    debt: 533,
};

#[test]
fn lines_go_to_the_front_of_the_slice(rt: HostRuntime) {
    let mut book = with_one_entry(&rt);
    let expected = [idle(0), LINE, idle(0), MARK, MARK];
    let mut bills = [MARK; 5];
    let draft = draw(&rt, &book, &mut bills);
    assert_eq!(rt; bills, expected);
    let mut bills = [MARK; 5];
    assert_eq!(rt; book.issue(draft, &mut bills), Ok(()));
    assert_eq!(rt; bills, expected);
}

// How many places the slice has, and the refusal's number, if there is one.
const PLACES: [(usize, Option<u8>); 5] = [
    (0, Some(20)),
    (1, Some(20)),
    (2, Some(20)),
    (3, None),
    (4, None),
];

#[test]
fn a_slice_has_a_place_for_each_member(rt: HostRuntime) {
    for (places, refusal) in PLACES.iter().copied() {
        let mut book = with_one_entry(&rt);
        let before = seen(&book);
        let mut bills = [MARK; 4];
        assert_eq!(rt;
            refused_drawing(&book, &mut bills[..places.min(4)]),
            refusal
        );
        assert_eq!(rt; seen(&book), before);
        assert_eq!(rt; bills == [MARK; 4], refusal.is_some());
        let draft = draw(&rt, &book, &mut [MARK; 3]);
        let mut bills = [MARK; 4];
        let answer = book.issue(draft, &mut bills[..places.min(4)]);
        assert_eq!(rt; number(answer), refusal);
        assert_eq!(rt; seen(&book) == before, refusal.is_some());
        assert_eq!(rt; bills == [MARK; 4], refusal.is_some());
    }
}

// Issues where that is to be refused by a number, and sees that book and slice are left as they were.
fn refused_issue(rt: &impl Abort, book: &mut PlainBook, draft: Draft, places: usize, refusal: u8) {
    let before = seen(book);
    let mut bills = [MARK; 4];
    let answer = book.issue(draft, &mut bills[..places.min(4)]);
    assert_eq!(rt; number(answer), Some(refusal));
    assert_eq!(rt; seen(book), before);
    assert_eq!(rt; bills, [MARK; 4]);
}

#[test]
fn an_entry_makes_a_draft_stale(rt: HostRuntime) {
    let mut book = with_one_entry(&rt);
    let first = draw(&rt, &book, &mut [MARK; 3]);
    let second = draw(&rt, &book, &mut [MARK; 3]);
    let first = check(&rt, &book, first, true);
    // A refused entry does not.
    enter(&rt, &mut book, payment(1, 0), Some(16));
    let first = check(&rt, &book, first, true);
    enter(&rt, &mut book, payment(1, 33), None);
    let first = check(&rt, &book, first, false);
    refused_issue(&rt, &mut book, first, 3, 21);
    // The slice is measured before the draft is compared.
    refused_issue(&rt, &mut book, second, 2, 20);
    let fresh = draw(&rt, &book, &mut [MARK; 3]);
    let fresh = check(&rt, &book, fresh, true);
    let mut bills = [MARK; 3];
    assert_eq!(rt; book.issue(fresh, &mut bills), Ok(()));
    let paid = Bill { debt: 500, ..LINE };
    assert_eq!(rt; bills, [idle(0), paid, idle(0)]);
}

#[test]
fn a_draft_is_of_its_month(rt: HostRuntime) {
    let mut book = opened(&rt, 7);
    let early = draw(&rt, &book, &mut [MARK; 3]);
    let draft = draw(&rt, &book, &mut [MARK; 3]);
    assert_eq!(rt; book.issue(draft, &mut [MARK; 3]), Ok(()));
    // November has as many entries as October had: none.
    let early = check(&rt, &book, early, false);
    refused_issue(&rt, &mut book, early, 3, 21);
}

#[test]
fn a_draft_is_of_its_group(rt: HostRuntime) {
    let mut book = opened(&rt, 7);
    let other = opened(&rt, 8);
    let draft = draw(&rt, &other, &mut [MARK; 3]);
    let draft = check(&rt, &other, draft, true);
    let draft = check(&rt, &book, draft, false);
    refused_issue(&rt, &mut book, draft, 3, 21);
}

#[test]
fn a_withdrawn_draft_alters_nothing(rt: HostRuntime) {
    let mut book = with_one_entry(&rt);
    let before = seen(&book);
    let first = draw(&rt, &book, &mut [MARK; 3]);
    let second = draw(&rt, &book, &mut [MARK; 3]);
    book.withdraw(first);
    assert_eq!(rt; seen(&book), before);
    let second = check(&rt, &book, second, true);
    assert_eq!(rt; book.issue(second, &mut [MARK; 3]), Ok(()));
}

#[test]
fn a_blank_book_has_no_month_to_draw(rt: HostRuntime) {
    let mut book = blank();
    let mut bills = [MARK; 3];
    assert_eq!(rt; refused_drawing(&book, &mut bills), Some(11));
    assert_eq!(rt; refused_drawing(&book, &mut []), Some(11));
    assert_eq!(rt; bills, [MARK; 3]);
    let other = opened(&rt, 0);
    let draft = draw(&rt, &other, &mut bills);
    let draft = check(&rt, &book, draft, false);
    refused_issue(&rt, &mut book, draft, 3, 11);
    let draft = draw(&rt, &other, &mut bills);
    refused_issue(&rt, &mut book, draft, 0, 11);
}
