//! Where an entry is refused, and what a taken one alters.
use crate::fixture::{
    PlainBook, account, blank, change, consumed, correction, delivered, enter, enter_all, number,
    opened, payment,
};
use billing::Account;
use ledger::{Entry, Flow, MemberRegister, Zone};

#[test]
fn nothing_is_entered_before_the_opening(rt: HostRuntime) {
    let mut book = blank();
    let entries = [
        consumed(0, Zone::Day, 9040, 1_000),
        change(0, Flow::Consumed, 9040, 1_000, 0),
        correction(0, Zone::Day, 1),
        payment(0, 1),
    ];
    for entry in entries {
        enter(&rt, &mut book, entry, Some(11));
    }
}

#[test]
fn entries_are_for_a_member(rt: HostRuntime) {
    let mut book = opened(&rt, 7);
    // Past the members, days and values are not looked at.
    let cases = [
        (payment(2, 1), None),
        (consumed(3, Zone::Day, 9039, 0), Some(13)),
        (change(3, Flow::Delivered, 9040, 10_000_000, 0), Some(13)),
        (correction(3, Zone::Night, i32::MIN), Some(13)),
        (payment(3, 0), Some(13)),
        (payment(usize::MAX, 1), Some(13)),
    ];
    for (entry, refusal) in cases {
        enter(&rt, &mut book, entry, refusal);
    }
}

#[test]
fn a_month_has_room_for_a_thousand_entries(rt: HostRuntime) {
    let mut book = opened(&rt, 7);
    for _ in 0..999 {
        assert_eq!(rt; number(book.enter(payment(1, 1))), None);
    }
    let cases = [
        // A refused entry takes no room.
        (payment(1, 0), Some(16)),
        (payment(1, 1), None),
        (payment(1, 1), Some(14)),
        (correction(1, Zone::Day, 1), Some(14)),
        (payment(3, 1), Some(13)),
        (consumed(0, Zone::Day, 9039, 1_000), Some(14)),
        (payment(1, 0), Some(14)),
    ];
    for (entry, refusal) in cases {
        enter(&rt, &mut book, entry, refusal);
    }
    assert_eq!(rt; book.entries(), 1_000);
}

#[test]
fn days_lie_in_the_open_month(rt: HostRuntime) {
    let mut book = opened(&rt, 7);
    let cases = [
        (consumed(0, Zone::Day, 9039, 1_000), Some(15)),
        (consumed(0, Zone::Day, 9040, 1_000), None),
        (consumed(0, Zone::Day, 9070, 1_000), None),
        // Days need not follow one another.
        (consumed(0, Zone::Day, 9040, 1_000), None),
        (consumed(0, Zone::Day, 9071, 1_000), Some(15)),
        (consumed(0, Zone::Day, u32::MAX, 1_000), Some(15)),
        (change(0, Flow::Consumed, 9039, 1_000, 0), Some(15)),
        (change(0, Flow::Consumed, 9071, 1_000, 0), Some(15)),
        (change(0, Flow::Consumed, 9070, 1_000, 0), None),
        (consumed(0, Zone::Day, 9039, 10_000_000), Some(15)),
        (consumed(0, Zone::Day, 9039, 999), Some(15)),
        (change(0, Flow::Delivered, 9071, 999, 10_000_000), Some(15)),
    ];
    for (entry, refusal) in cases {
        enter(&rt, &mut book, entry, refusal);
    }
}

#[test]
fn values_are_in_their_range(rt: HostRuntime) {
    let mut book = opened(&rt, 7);
    let cases = [
        (consumed(2, Zone::Day, 9040, 9_999_999), None),
        (consumed(2, Zone::Day, 9040, 10_000_000), Some(16)),
        (delivered(2, Zone::Day, 9040, u32::MAX), Some(16)),
        (change(2, Flow::Consumed, 9040, 9_999_999, 9_999_999), None),
        (change(2, Flow::Consumed, 9040, 10_000_000, 0), Some(16)),
        (
            change(2, Flow::Consumed, 9040, 9_999_999, 10_000_000),
            Some(16),
        ),
        // The start value is looked at before the final one is compared.
        (change(2, Flow::Delivered, 9040, 0, 10_000_000), Some(16)),
        (correction(0, Zone::Day, 1_000_000), None),
        (correction(0, Zone::Night, -1_000_000), None),
        (correction(0, Zone::Night, 1_000_001), Some(16)),
        (correction(0, Zone::Day, -1_000_001), Some(16)),
        (correction(0, Zone::Day, i32::MIN), Some(16)),
        // These would be refused by 18, too, were it not for the order.
        (correction(0, Zone::Day, 1_000_001), Some(16)),
        (correction(0, Zone::Day, i32::MAX), Some(16)),
        (payment(0, 0), Some(16)),
        (payment(0, 1), None),
        (payment(0, 100_000_000), None),
        (payment(0, 100_000_001), Some(16)),
        (payment(0, u32::MAX), Some(16)),
    ];
    for (entry, refusal) in cases {
        enter(&rt, &mut book, entry, refusal);
    }
}

#[test]
fn registers_never_run_backwards(rt: HostRuntime) {
    let mut book = opened(&rt, 7);
    let cases = [
        (delivered(0, Zone::Day, 9040, 999), Some(17)),
        (delivered(0, Zone::Day, 9040, 1_000), None),
        (delivered(0, Zone::Day, 9040, 1_050), None),
        (delivered(0, Zone::Day, 9040, 1_049), Some(17)),
        (change(0, Flow::Consumed, 9040, 999, 0), Some(17)),
        (change(0, Flow::Consumed, 9040, 1_000, 40), None),
        (consumed(0, Zone::Night, 9040, 39), Some(17)),
        (consumed(0, Zone::Night, 9040, 40), None),
        // A correction moves no register.
        (correction(0, Zone::Night, 7), None),
        (consumed(0, Zone::Night, 9040, 39), Some(17)),
        (consumed(0, Zone::Night, 9040, 40), None),
    ];
    for (entry, refusal) in cases {
        enter(&rt, &mut book, entry, refusal);
    }
}

#[test]
fn tallies_are_in_their_range(rt: HostRuntime) {
    let mut book = opened(&rt, 7);
    let cases = [
        (consumed(1, Zone::Night, 9040, 1_000_001), Some(18)),
        (consumed(1, Zone::Night, 9040, 1_000_000), None),
        (consumed(1, Zone::Night, 9040, 1_000_001), Some(18)),
        (change(1, Flow::Consumed, 9040, 1_000_001, 0), Some(18)),
        (change(1, Flow::Consumed, 9040, 1_000_000, 0), None),
        (correction(1, Zone::Night, 1), Some(18)),
        (correction(1, Zone::Night, -1_000_000), None),
        (correction(1, Zone::Night, -1_000_000), None),
        (correction(1, Zone::Night, -1), Some(18)),
        (correction(1, Zone::Night, -1_000_001), Some(16)),
        // From the lowest tally a reading may count twice as much.
        (consumed(1, Zone::Night, 9040, 2_000_001), Some(18)),
        (consumed(1, Zone::Night, 9040, 2_000_000), None),
    ];
    for (entry, refusal) in cases {
        enter(&rt, &mut book, entry, refusal);
    }
}

#[test]
fn payments_leave_a_bounded_credit(rt: HostRuntime) {
    let mut book = opened(&rt, 7);
    enter_all(&rt, &mut book, &[payment(1, 100_000_000); 9]);
    let cases = [
        (payment(1, 99_999_999), None),
        (payment(1, 2), Some(19)),
        (payment(1, 100_000_000), Some(19)),
        (payment(1, 1), None),
        (payment(1, 1), Some(19)),
        (payment(1, 100_000_001), Some(16)),
        (payment(1, 0), Some(16)),
        (payment(0, 1), None),
    ];
    for (entry, refusal) in cases {
        enter(&rt, &mut book, entry, refusal);
    }
    let lowest = Account {
        debt: -1_000_000_000,
        fraction: 0,
    };
    assert_eq!(rt; account(&book, 1), Some(lowest));
}

const REGISTERS: [(Zone, Flow); 4] = [
    (Zone::Day, Flow::Consumed),
    (Zone::Day, Flow::Delivered),
    (Zone::Night, Flow::Consumed),
    (Zone::Night, Flow::Delivered),
];

// What is tallied at a register of the second member.
fn tally(book: &PlainBook, zone: Zone, flow: Flow) -> Option<i32> {
    let at = MemberRegister {
        place: 1,
        zone,
        flow,
    };
    let member = book.member(1).ok()?;
    Some(member.register_at(at).tally)
}

#[test]
fn an_entry_alters_one_register_of_one_member(rt: HostRuntime) {
    for (zone, flow) in REGISTERS.iter().copied() {
        let mut book = opened(&rt, 7);
        let register = MemberRegister {
            place: 1,
            zone,
            flow,
        };
        let (first, last) = (book.member(0), book.member(2));
        enter(
            &rt,
            &mut book,
            Entry::Correction {
                register,
                quantity: 5,
            },
            None,
        );
        assert_eq!(rt; book.entries(), 1);
        assert_eq!(rt; (book.member(0), book.member(2)), (first, last));
        for (other_zone, other_flow) in REGISTERS.iter().copied() {
            let same = (other_zone, other_flow) == (zone, flow);
            let expected = if same { 5 } else { 0 };
            assert_eq!(rt; tally(&book, other_zone, other_flow), Some(expected));
        }
    }
}
