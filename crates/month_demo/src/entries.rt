//! What is entered into the book.
use crate::members::{FAMILY, MILL, PENSIONER};
use calendar::Day;
use ledger::{Entry, Flow, MemberRegister, Zone};

// Days are counted from 1 January 2000: this is 15 October 2024.
const MIDDLE: Day = 9_054;

// 31 October 2024.
const LAST: Day = 9_070;

fn register(place: usize, zone: Zone, flow: Flow) -> MemberRegister {
    MemberRegister { place, zone, flow }
}

// A reading on the last day of October.
fn reading(place: usize, zone: Zone, flow: Flow, value: u32) -> Entry {
    Entry::Reading {
        register: register(place, zone, flow),
        day: LAST,
        value,
    }
}

// The entries of October, in the order in which they are made.
pub(crate) fn october() -> [Entry; 11] {
    [
        // By day the mill consumes 40 kWh and delivers 340, so 300 are there to be shared.
        reading(MILL, Zone::Day, Flow::Consumed, 1_040),
        reading(MILL, Zone::Day, Flow::Delivered, 840),
        // By night it consumes 20 kWh and delivers 80, so 60 are.
        reading(MILL, Zone::Night, Flow::Consumed, 720),
        reading(MILL, Zone::Night, Flow::Delivered, 480),
        // The family needs 250 kWh by day. By night it needs 30 on the old meter and 12 on the new one.
        reading(FAMILY, Zone::Day, Flow::Consumed, 2_250),
        Entry::Change {
            register: register(FAMILY, Zone::Night, Flow::Consumed),
            day: MIDDLE,
            value: 1_530,
            start: 0,
        },
        reading(FAMILY, Zone::Night, Flow::Consumed, 12),
        // The pensioner needs 155 - 5 = 150 kWh by day, and 10 by night.
        reading(PENSIONER, Zone::Day, Flow::Consumed, 455),
        Entry::Correction {
            register: register(PENSIONER, Zone::Day, Flow::Consumed),
            quantity: -5,
        },
        reading(PENSIONER, Zone::Night, Flow::Consumed, 210),
        // The family pays in advance, so its debt falls below 0 until the bill.
        Entry::Payment {
            place: FAMILY,
            drams: 1_500,
        },
    ]
}

// A reading on 1 November which is below where the register stands.
pub(crate) fn too_low() -> Entry {
    Entry::Reading {
        register: register(FAMILY, Zone::Day, Flow::Consumed),
        day: LAST + 1,
        value: 2_249,
    }
}
