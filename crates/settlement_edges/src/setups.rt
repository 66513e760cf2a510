//! Where a group does not open, and no journal is run.
use crate::fixture::{
    ISSUE, JANUARY, MARK, OUTPUT_NAMES, check_output, journal, plain_tariff, record, setup,
};
use calendar::Month;
use group::{BookRefusal, Phase};
use settlement::{Setup, settle};
use sharing::Proportion;
use std::test::Fail;

// How many records there are, the start month, the holder's place, the capacity of each, what every register stands at, and the refusal with its number.
#[derive(Clone, Copy)]
struct Case(usize, Month, usize, u32, u32, BookRefusal, u8);

const CASES: [Case; 9] = [
    Case(0, JANUARY, 0, 1, 0, BookRefusal::Count, 2),
    Case(33, JANUARY, 0, 1, 0, BookRefusal::Count, 2),
    Case(3, 1200, 0, 1, 0, BookRefusal::Start, 3),
    Case(3, JANUARY, 0, 151, 0, BookRefusal::Capacity, 4),
    Case(8, JANUARY, 0, 132, 0, BookRefusal::Capacity, 4),
    // A holder without capacity, and a place past the last.
    Case(1, JANUARY, 0, 0, 0, BookRefusal::Holder, 5),
    Case(32, JANUARY, 31, 0, 0, BookRefusal::Holder, 5),
    Case(3, JANUARY, 3, 1, 0, BookRefusal::Holder, 5),
    Case(3, JANUARY, 0, 1, 10_000_000, BookRefusal::Register, 6),
];

#[test]
fn groups_that_do_not_open(rt: HostRuntime) -> Result<(), Fail> {
    let lines = journal(&rt, &[ISSUE])?;
    for case in CASES.iter().copied() {
        let Case(members, start, holder, capacity, standing, refusal, number) = case;
        let records = [record(capacity, standing); 33];
        let records = &records[..members.min(33)];
        assert_eq!(rt; refusal.number(), number);
        assert_eq!(rt; setup(records, start, holder).open().err(), Some(refusal));
        let mut out = [MARK; 4_148];
        let answer = settle(setup(records, start, holder), &lines, &mut out);
        assert_eq!(rt; answer, Err(refusal));
        assert!(rt; out == [MARK; 4_148]);
        // The opening comes before the journal and the output are looked at.
        let answer = settle(setup(records, start, holder), b"", &mut out[..1]);
        assert_eq!(rt; answer, Err(refusal));
        assert!(rt; out == [MARK; 4_148]);
    }
    Ok(())
}

#[test]
fn a_group_opens_as_it_is_told(rt: HostRuntime) {
    let records = [record(0, 5), record(100, 6)];
    let setup = Setup {
        number: 4_294_967_295,
        start: 1_199,
        holder: 1,
        records: &records,
        rule: Proportion,
        tariff: plain_tariff(),
    };
    let book = setup.open().expect(&rt, "an opening");
    assert_eq!(rt; book.number(), 4_294_967_295);
    assert_eq!(rt; book.holder(), 1);
    assert_eq!(rt; book.members(), 2);
    assert_eq!(rt; book.phase(), Phase::Open(1_199));
    assert_eq!(rt; book.entries(), 0);
    let standing = |place| book
        .member(place)
        .map(|member| member.registers.night.consumed.standing);
    assert_eq!(rt; (standing(0), standing(1)), (Ok(5), Ok(6)));
}

#[test]
fn a_group_is_opened_and_its_journal_run(rt: HostRuntime) -> Result<(), Fail> {
    let records = [record(1, 0)];
    let mut out = [MARK; 4_148];
    let lines = journal(&rt, &[ISSUE])?;
    let outcome = settle(setup(&records, JANUARY, 0), &lines, &mut out)?;
    assert_eq!(rt; outcome.fault, None);
    let text = [OUTPUT_NAMES, b"BILL,2024-01,0,0,0,0,0,0,0\n"].concat(rt.alloc())?;
    check_output(&rt, &out, outcome.written, &text);
    Ok(())
}
