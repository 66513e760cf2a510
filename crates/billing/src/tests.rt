//! The edges of a zone's month, of costs and of postings.
use crate::account::{Account, Posting, post};
use crate::cost::{cost_of, credit_of};
use crate::net::{need_of, net_of, surplus_of};
use crate::supply::Supply;
use crate::zone::settle_zone;
use ledger::ByZone;
use sharing::{Proportion, ShareRefusal};
use tariff::{Class, ClassPrices, FixedTariff, PriceTable};

// A consumed tally, a delivered tally, the need and the surplus.
const NETS: [(i32, i32, u64, u64); 7] = [
    (0, 0, 0, 0),
    (5, 3, 2, 0),
    (3, 5, 0, 2),
    (-3, 5, 0, 8),
    (-3, -5, 2, 0),
    (1_000_000, -1_000_000, 2_000_000, 0),
    (i32::MIN, i32::MAX, 0, 4_294_967_295),
];

#[test]
fn nets_are_needs_or_surpluses(rt: HostRuntime) {
    for (consumed, delivered, need, surplus) in NETS.iter().copied() {
        let net = net_of(consumed, delivered);
        assert_eq!(rt; need_of(net), need);
        assert_eq!(rt; surplus_of(net), surplus);
    }
    assert_eq!(rt; surplus_of(i64::MIN), 9_223_372_036_854_775_808);
}

// A carried balance and two nets; what each member is covered and billed, and what is carried on.
#[derive(Clone, Copy)]
struct Month(u64, (i64, i64), (u64, u64), (u64, u64), u64);

const MONTHS: [Month; 7] = [
    Month(0, (0, 0), (0, 0), (0, 0), 0),
    Month(7, (-3, -5), (0, 0), (0, 0), 15),
    Month(0, (3, 5), (0, 0), (3, 5), 0),
    Month(8, (3, 5), (3, 5), (0, 0), 0),
    Month(9, (3, 5), (3, 5), (0, 0), 1),
    Month(0, (-700, 1000), (0, 700), (0, 300), 0),
    Month(100, (-900, 1000), (0, 1000), (0, 0), 0),
];

#[test]
fn zones_are_settled(rt: HostRuntime) {
    for month in MONTHS.iter() {
        let Month(carried, nets, covered, billed, left) = *month;
        let mut covers = [77; 2];
        let mut bills = [77; 2];
        let answer = settle_zone(
            &Proportion,
            carried,
            &[nets.0, nets.1],
            &mut covers,
            &mut bills,
        );
        assert_eq!(rt; answer, Ok(left));
        assert_eq!(rt; (covers[0], covers[1]), covered);
        assert_eq!(rt; (bills[0], bills[1]), billed);
    }
}

// A carried balance, a net, the members, the places to cover and to bill, and the refusal.
const REFUSED: [(u64, i64, usize, usize, usize, ShareRefusal); 8] = [
    (0, 1, 0, 0, 0, ShareRefusal::Count),
    (0, 1, 33, 33, 33, ShareRefusal::Count),
    (0, 1, 2, 1, 2, ShareRefusal::Count),
    (0, 1, 2, 2, 1, ShareRefusal::Count),
    (u64::MAX, 1, 2, 2, 1, ShareRefusal::Count),
    (1_000_000_001, 1, 1, 1, 1, ShareRefusal::Size),
    (u64::MAX, i64::MIN, 32, 32, 32, ShareRefusal::Size),
    (0, 2_000_001, 1, 1, 1, ShareRefusal::Size),
];

#[test]
fn zones_are_refused(rt: HostRuntime) {
    for (carried, net, members, to_cover, to_bill, refusal) in REFUSED.iter().copied() {
        let nets = [net; 33];
        let mut covers = [77; 33];
        let mut bills = [77; 33];
        let answer = settle_zone(
            &Proportion,
            carried,
            &nets[0..members.min(33)],
            &mut covers[0..to_cover.min(33)],
            &mut bills[0..to_bill.min(33)],
        );
        assert_eq!(rt; answer, Err(refusal));
        assert_eq!(rt; covers[0], 77);
        assert_eq!(rt; bills[0], 77);
    }
}

// A debt, a fraction and an amount; the drams, the debt and the fraction after it.
const POSTINGS: [(i64, u8, i64, i64, i64, u8); 9] = [
    (0, 0, 0, 0, 0, 0),
    (0, 99, 1, 1, 1, 0),
    (0, 0, 99, 0, 0, 99),
    (0, 30, -1000, -10, -10, 30),
    (0, 0, -1, -1, -1, 99),
    (5, 1, -2, -1, 4, 99),
    (-7, 99, 2_165_731, 21_658, 21_651, 30),
    (i64::MAX, 0, 99, 0, i64::MAX, 99),
    (i64::MIN, 99, -99, 0, i64::MIN, 0),
];

#[test]
fn postings_keep_every_hundredth(rt: HostRuntime) {
    for (debt, fraction, amount, drams, after, kept) in POSTINGS.iter().copied() {
        let posting = Posting {
            drams,
            account: Account {
                debt: after,
                fraction: kept,
            },
        };
        assert_eq!(rt; post(Account { debt, fraction }, amount), Some(posting));
    }
    let full = Account {
        debt: i64::MAX,
        fraction: 1,
    };
    let small = Account {
        debt: 0,
        fraction: 30,
    };
    assert_eq!(rt; post(small, i64::MAX), None);
    assert_eq!(rt; post(full, 99), None);
    assert_eq!(rt; post(full, i64::MAX), None);
}

const PRICES: ClassPrices = ClassPrices {
    energy: ByZone {
        day: 4500,
        night: 3507,
    },
    distribution: 1000,
    year_end: ByZone {
        day: 2000,
        night: 1500,
    },
};

const TARIFF: FixedTariff = FixedTariff {
    prices: PriceTable {
        household: PRICES,
        other: PRICES,
        vulnerable: PRICES,
    },
};

fn supply(billed: u64, covered: u64) -> Supply {
    Supply { billed, covered }
}

fn by_zone<T>(day: T, night: T) -> ByZone<T> {
    ByZone { day, night }
}

#[test]
fn costs_and_credits(rt: HostRuntime) {
    let none = supply(0, 0);
    let most = supply(u64::MAX, u64::MAX);
    assert_eq!(rt;
        cost_of(&TARIFF, 0, Class::Other, by_zone(none, none)),
        Some(0)
    );
    let supplies = by_zone(supply(300, 700), supply(33, 0));
    assert_eq!(rt;
        cost_of(&TARIFF, 288, Class::Household, supplies),
        Some(2_165_731)
    );
    assert_eq!(rt;
        cost_of(&TARIFF, 0, Class::Other, by_zone(most, none)),
        None
    );
    assert_eq!(rt;
        credit_of(&TARIFF, 11, Class::Other, by_zone(10, 20)),
        Some(50_000)
    );
    assert_eq!(rt;
        credit_of(&TARIFF, 11, Class::Other, by_zone(0, u64::MAX)),
        None
    );
}
