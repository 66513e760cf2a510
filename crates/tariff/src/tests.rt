//! Each price by its place, at the limit, and in the months around a row's first.
use crate::class::Class;
use crate::fixed::FixedTariff;
use crate::prices::{ClassPrices, PriceTable};
use crate::row::ScheduleRow;
use crate::schedule::Schedule;
use crate::service::Service;
use crate::tariff::Tariff;
use calendar::Month;
use ledger::{ByZone, Zone};

// Five prices that count up.
fn class_from(first: u16) -> ClassPrices {
    let first = first as u32;
    ClassPrices {
        energy: ByZone {
            day: first,
            night: first + 1,
        },
        distribution: first + 2,
        year_end: ByZone {
            day: first + 3,
            night: first + 4,
        },
    }
}

// Fifteen prices that count up, class after class.
fn prices_from(first: u8) -> PriceTable {
    let first = first as u16;
    PriceTable {
        household: class_from(first),
        other: class_from(first + 5),
        vulnerable: class_from(first + 10),
    }
}

fn asked<T: Tariff>(tariff: &T, month: Month, service: Service, class: Class) -> u32 {
    tariff.price_of(month, service, class)
}

const PLACES: [(Service, Class, u32); 15] = [
    (Service::Energy(Zone::Day), Class::Household, 100),
    (Service::Energy(Zone::Night), Class::Household, 101),
    (Service::Distribution, Class::Household, 102),
    (Service::YearEnd(Zone::Day), Class::Household, 103),
    (Service::YearEnd(Zone::Night), Class::Household, 104),
    (Service::Energy(Zone::Day), Class::Other, 105),
    (Service::Energy(Zone::Night), Class::Other, 106),
    (Service::Distribution, Class::Other, 107),
    (Service::YearEnd(Zone::Day), Class::Other, 108),
    (Service::YearEnd(Zone::Night), Class::Other, 109),
    (Service::Energy(Zone::Day), Class::Vulnerable, 110),
    (Service::Energy(Zone::Night), Class::Vulnerable, 111),
    (Service::Distribution, Class::Vulnerable, 112),
    (Service::YearEnd(Zone::Day), Class::Vulnerable, 113),
    (Service::YearEnd(Zone::Night), Class::Vulnerable, 114),
];

#[test]
fn each_service_and_class_has_its_own_price(rt: HostRuntime) {
    let prices = prices_from(100);
    let rows = [ScheduleRow {
        first_month: 0,
        prices,
    }];
    let fixed = FixedTariff { prices };
    let schedule = Schedule { rows: &rows };
    for (service, class, price) in PLACES.iter().copied() {
        assert_eq!(rt; asked(&fixed, 7, service, class), price);
        assert_eq!(rt; asked(&schedule, 7, service, class), price);
    }
}

// A stored price, and what is charged.
const LIMITS: [(u32, u32); 5] = [
    (0, 0),
    (99_999, 99_999),
    (100_000, 100_000),
    (100_001, 100_000),
    (u32::MAX, 100_000),
];

#[test]
fn no_price_exceeds_the_limit(rt: HostRuntime) {
    for (stored, charged) in LIMITS.iter().copied() {
        let mut prices = prices_from(1);
        prices.other.distribution = stored;
        let rows = [ScheduleRow {
            first_month: 0,
            prices,
        }];
        let fixed = FixedTariff { prices };
        let schedule = Schedule { rows: &rows };
        assert_eq!(rt;
            asked(&fixed, 0, Service::Distribution, Class::Other),
            charged
        );
        assert_eq!(rt;
            asked(&schedule, 0, Service::Distribution, Class::Other),
            charged
        );
    }
}

// A month, and the household's day price by the rows below.
const MONTHS: [(Month, u32); 9] = [
    (0, 0),
    (4, 0),
    (5, 30),
    (9, 30),
    (10, 30),
    (19, 30),
    (20, 40),
    (21, 40),
    (u16::MAX, 40),
];

#[test]
fn the_last_row_that_has_begun_is_in_force(rt: HostRuntime) {
    // The row from month 5 stands after that from month 10, and so wins over it.
    let rows = [
        ScheduleRow {
            first_month: 10,
            prices: prices_from(20),
        },
        ScheduleRow {
            first_month: 5,
            prices: prices_from(30),
        },
        ScheduleRow {
            first_month: 20,
            prices: prices_from(40),
        },
    ];
    let schedule = Schedule { rows: &rows };
    for (month, price) in MONTHS.iter().copied() {
        assert_eq!(rt;
            asked(
                &schedule,
                month,
                Service::Energy(Zone::Day),
                Class::Household
            ),
            price
        );
    }
}

#[test]
fn without_rows_every_price_is_0(rt: HostRuntime) {
    let schedule = Schedule { rows: &[] };
    assert_eq!(rt;
        asked(&schedule, 0, Service::Energy(Zone::Day), Class::Household),
        0
    );
    assert_eq!(rt;
        asked(
            &schedule,
            u16::MAX,
            Service::YearEnd(Zone::Night),
            Class::Vulnerable,
        ),
        0
    );
}
