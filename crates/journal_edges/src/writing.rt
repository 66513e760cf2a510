//! What is written of a line, and what is refused.
use crate::line_cases::LINES;
use crate::slices::{BLANK, check_written};
use journal::{Line, WriteRefusal, write_line};
use ledger::{Entry, Flow, MemberRegister, Zone};
use std::test::Fail;

#[test]
fn lines_are_written_as_they_are_read(rt: HostRuntime) -> Result<(), Fail> {
    for (text, line) in LINES.iter().copied() {
        let mut out = [BLANK; 64];
        let end = write_line(line, &mut out)?;
        check_written(&rt, &out, 0, end, text);
    }
    Ok(())
}

#[test]
fn a_slice_has_64_bytes(rt: HostRuntime) {
    let mut short = [BLANK; 63];
    assert_eq!(rt;
        write_line(Line::Issue, &mut short),
        Err(WriteRefusal::Room)
    );
    assert!(rt; short == [BLANK; 63]);
    let mut long = [BLANK; 65];
    assert_eq!(rt; write_line(Line::Issue, &mut long), Ok(18));
    assert_eq!(rt; WriteRefusal::Room.number(), 27);
}

const REFUSED: [Entry; 14] = [
    Entry::Reading {
        register: MemberRegister {
            place: 1_000_000_000,
            zone: Zone::Day,
            flow: Flow::Consumed,
        },
        day: 0,
        value: 0,
    },
    Entry::Reading {
        register: MemberRegister {
            place: 0,
            zone: Zone::Day,
            flow: Flow::Consumed,
        },
        day: 36_525,
        value: 0,
    },
    Entry::Reading {
        register: MemberRegister {
            place: 0,
            zone: Zone::Day,
            flow: Flow::Consumed,
        },
        day: 0,
        value: 1_000_000_000,
    },
    Entry::Change {
        register: MemberRegister {
            place: 0,
            zone: Zone::Night,
            flow: Flow::Delivered,
        },
        day: 0,
        value: 0,
        start: 1_000_000_000,
    },
    Entry::Change {
        register: MemberRegister {
            place: 0,
            zone: Zone::Night,
            flow: Flow::Delivered,
        },
        day: u32::MAX,
        value: 0,
        start: 0,
    },
    Entry::Correction {
        register: MemberRegister {
            place: 0,
            zone: Zone::Day,
            flow: Flow::Delivered,
        },
        quantity: 1_000_000_000,
    },
    Entry::Correction {
        register: MemberRegister {
            place: 0,
            zone: Zone::Day,
            flow: Flow::Delivered,
        },
        quantity: i32::MIN,
    },
    Entry::Change {
        register: MemberRegister {
            place: 1_000_000_000,
            zone: Zone::Night,
            flow: Flow::Delivered,
        },
        day: 0,
        value: 0,
        start: 0,
    },
    Entry::Change {
        register: MemberRegister {
            place: 0,
            zone: Zone::Night,
            flow: Flow::Delivered,
        },
        day: 0,
        value: 1_000_000_000,
        start: 0,
    },
    Entry::Change {
        register: MemberRegister {
            place: 0,
            zone: Zone::Night,
            flow: Flow::Delivered,
        },
        day: 36_525,
        value: 0,
        start: 0,
    },
    Entry::Correction {
        register: MemberRegister {
            place: 1_000_000_000,
            zone: Zone::Day,
            flow: Flow::Delivered,
        },
        quantity: 0,
    },
    Entry::Correction {
        register: MemberRegister {
            place: 0,
            zone: Zone::Day,
            flow: Flow::Delivered,
        },
        quantity: -1_000_000_000,
    },
    Entry::Payment {
        place: usize::MAX,
        drams: 1,
    },
    Entry::Payment {
        place: 0,
        drams: u32::MAX,
    },
];

#[test]
fn numbers_have_nine_digits_and_days_a_date(rt: HostRuntime) {
    for entry in REFUSED.iter().copied() {
        let mut out = [BLANK; 64];
        assert_eq!(rt;
            write_line(Line::Enter(entry), &mut out),
            Err(WriteRefusal::Form)
        );
        assert!(rt; out == [BLANK; 64]);
        // The number is looked at before the room.
        let mut none = [BLANK; 0];
        assert_eq!(rt;
            write_line(Line::Enter(entry), &mut none),
            Err(WriteRefusal::Form)
        );
    }
    assert_eq!(rt; WriteRefusal::Form.number(), 26);
}

#[test]
fn refusals_of_the_writer_are_told_in_words(rt: HostRuntime) -> Result<(), Fail> {
    let alloc = rt.alloc();
    assert!(rt;
        WriteRefusal::Form.to_string(alloc)?.as_str()
            == "a number of the line has more than nine digits, or its day comes after 2099"
    );
    assert!(rt;
        WriteRefusal::Room.to_string(alloc)?.as_str()
            == "no room is left for 64 bytes, the most that a line takes"
    );
    Ok(())
}
