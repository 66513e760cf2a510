//! Lines of each kind with their texts.

use journal::Line;
use ledger::{Entry, Flow, MemberRegister, Zone};

/// Texts of lines, and what they say.
pub const LINES: [(&[u8], Line); 15] = [
    (
        b"READ,0,DAY,GIVE,900,-,2024-01-31\n",
        Line::Enter(Entry::Reading {
            register: MemberRegister {
                place: 0,
                zone: Zone::Day,
                flow: Flow::Delivered,
            },
            day: 8796,
            value: 900,
        }),
    ),
    (
        b"READ,999999999,NIGHT,USE,999999999,-,2099-12-31\n",
        Line::Enter(Entry::Reading {
            register: MemberRegister {
                place: 999_999_999,
                zone: Zone::Night,
                flow: Flow::Consumed,
            },
            day: 36_524,
            value: 999_999_999,
        }),
    ),
    (
        b"READ,7,DAY,USE,0,-,2000-01-01\n",
        Line::Enter(Entry::Reading {
            register: MemberRegister {
                place: 7,
                zone: Zone::Day,
                flow: Flow::Consumed,
            },
            day: 0,
            value: 0,
        }),
    ),
    (
        b"SWAP,31,NIGHT,GIVE,9999999,12,2024-02-29\n",
        Line::Enter(Entry::Change {
            register: MemberRegister {
                place: 31,
                zone: Zone::Night,
                flow: Flow::Delivered,
            },
            day: 8825,
            value: 9_999_999,
            start: 12,
        }),
    ),
    (
        b"CORR,1,DAY,USE,-999999999,-,-\n",
        Line::Enter(Entry::Correction {
            register: MemberRegister {
                place: 1,
                zone: Zone::Day,
                flow: Flow::Consumed,
            },
            quantity: -999_999_999,
        }),
    ),
    (
        b"CORR,1,DAY,USE,999999999,-,-\n",
        Line::Enter(Entry::Correction {
            register: MemberRegister {
                place: 1,
                zone: Zone::Day,
                flow: Flow::Consumed,
            },
            quantity: 999_999_999,
        }),
    ),
    (
        b"CORR,1,NIGHT,GIVE,0,-,-\n",
        Line::Enter(Entry::Correction {
            register: MemberRegister {
                place: 1,
                zone: Zone::Night,
                flow: Flow::Delivered,
            },
            quantity: 0,
        }),
    ),
    (
        b"CORR,1,NIGHT,GIVE,-1,-,-\n",
        Line::Enter(Entry::Correction {
            register: MemberRegister {
                place: 1,
                zone: Zone::Night,
                flow: Flow::Delivered,
            },
            quantity: -1,
        }),
    ),
    (
        b"PAY,2,-,-,100000000,-,-\n",
        Line::Enter(Entry::Payment {
            place: 2,
            drams: 100_000_000,
        }),
    ),
    (
        b"READ,0,DAY,USE,1,-,2000-02-29\n",
        Line::Enter(Entry::Reading {
            register: MemberRegister {
                place: 0,
                zone: Zone::Day,
                flow: Flow::Consumed,
            },
            day: 59,
            value: 1,
        }),
    ),
    (
        b"SWAP,999999999,NIGHT,GIVE,999999999,999999999,2099-12-31\n",
        Line::Enter(Entry::Change {
            register: MemberRegister {
                place: 999_999_999,
                zone: Zone::Night,
                flow: Flow::Delivered,
            },
            day: 36_524,
            value: 999_999_999,
            start: 999_999_999,
        }),
    ),
    (
        b"PAY,0,-,-,0,-,-\n",
        Line::Enter(Entry::Payment { place: 0, drams: 0 }),
    ),
    (
        b"PAY,999999999,-,-,999999999,-,-\n",
        Line::Enter(Entry::Payment {
            place: 999_999_999,
            drams: 999_999_999,
        }),
    ),
    (b"ISSUE,-,-,-,-,-,-\n", Line::Issue),
    (b"YEAR,-,-,-,-,-,-\n", Line::Year),
];
