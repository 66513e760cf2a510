//! The lines of the output and of a fault, and the lines of names.
use crate::slices::{BLANK, check_written};
use group::BookRefusal;
use journal::{ReadRefusal, after_names};
use ledger::{Bill, ByZone, YearEnd};
use settlement::{
    Layer, OutputRefusal, RunFault, RunRefusal, write_fault, write_figures, write_names,
};
use std::process::Abort;
use std::test::Fail;

const BILLS: [(u16, usize, Bill, &[u8]); 3] = [
    (
        288,
        1,
        Bill {
            billed: ByZone {
                day: 300,
                night: 33,
            },
            covered: ByZone { day: 700, night: 0 },
            drams: 21_657,
            debt: 21_657,
        },
        b"BILL,2024-01,1,300,33,700,0,21657,21657\n",
    ),
    (
        1199,
        31,
        Bill {
            billed: ByZone { day: 0, night: 1 },
            covered: ByZone { day: 2, night: 3 },
            drams: -4,
            debt: -5,
        },
        b"BILL,2099-12,31,0,1,2,3,-4,-5\n",
    ),
    (
        u16::MAX,
        usize::MAX,
        Bill {
            billed: ByZone {
                day: u32::MAX,
                night: u32::MAX,
            },
            covered: ByZone {
                day: u32::MAX,
                night: u32::MAX,
            },
            drams: i64::MIN,
            debt: i64::MAX,
        },
        b"BILL,7461-04,18446744073709551615,4294967295,4294967295,4294967295,4294967295,-9223372036854775808,9223372036854775807\n",
    ),
];

// The line stands where it was to begin, and the bytes before and after it are as they were.
fn check_bill(
    rt: &impl Abort,
    month: u16,
    place: usize,
    bill: Bill,
    text: &[u8],
) -> Result<(), Fail> {
    let mut out = [BLANK; 130];
    let end = write_figures(month, place, bill, &mut out, 1)?;
    check_written(rt, &out, 1, end, text);
    check_room(rt, month, place, bill, end);
    Ok(())
}

// A slice that ends with the line has the room, and one that is a byte shorter has not.
fn check_room(rt: &impl Abort, month: u16, place: usize, bill: Bill, end: usize) {
    assert!(rt; 1 <= end && end <= 130);
    let mut short = [BLANK; 130];
    assert_eq!(rt;
        write_figures(month, place, bill, &mut short[0..end - 1], 1),
        Err(OutputRefusal::Room)
    );
    assert!(rt; short == [BLANK; 130]);
    let mut whole = [BLANK; 130];
    assert_eq!(rt;
        write_figures(month, place, bill, &mut whole[0..end], 1),
        Ok(end)
    );
    let mut past = [BLANK; 130];
    assert_eq!(rt;
        write_figures(month, place, bill, &mut past, usize::MAX),
        Err(OutputRefusal::Room)
    );
    assert!(rt; past == [BLANK; 130]);
}

#[test]
fn bills_are_written_where_there_is_room(rt: HostRuntime) -> Result<(), Fail> {
    for (month, place, bill, text) in BILLS.iter().copied() {
        check_bill(&rt, month, place, bill, text)?;
    }
    Ok(())
}

const YEARS: [(u16, usize, YearEnd, &[u8]); 2] = [
    (
        299,
        0,
        YearEnd {
            paid: ByZone {
                day: 120,
                night: 45,
            },
            drams: -3075,
            debt: -3075,
        },
        b"YEAR,2024-12,0,120,45,-,-,-3075,-3075\n",
    ),
    (
        u16::MAX,
        usize::MAX,
        YearEnd {
            paid: ByZone {
                day: u64::MAX,
                night: u64::MAX,
            },
            drams: i64::MIN,
            debt: i64::MIN,
        },
        b"YEAR,7461-04,18446744073709551615,18446744073709551615,18446744073709551615,-,-,-9223372036854775808,-9223372036854775808\n",
    ),
];

#[test]
fn year_ends_are_written(rt: HostRuntime) -> Result<(), Fail> {
    for (month, place, year, text) in YEARS.iter().copied() {
        let mut out = [BLANK; 130];
        let end = write_figures(month, place, year, &mut out, 2)?;
        check_written(&rt, &out, 2, end, text);
        let mut short = [BLANK; 39];
        assert_eq!(rt;
            write_figures(month, place, year, &mut short, 2),
            Err(OutputRefusal::Room)
        );
        assert!(rt; short == [BLANK; 39]);
    }
    Ok(())
}

const FAULTS: [(RunFault, &[u8]); 3] = [
    (
        RunFault {
            line: 7,
            field: Some(5),
            layer: Layer::Text,
            refusal: RunRefusal::Line(ReadRefusal::Form { field: 5 }),
        },
        b"FAULT,7,5,TEXT,26\n",
    ),
    (
        RunFault {
            line: 1,
            field: None,
            layer: Layer::Book,
            refusal: RunRefusal::Book(BookRefusal::Count),
        },
        b"FAULT,1,0,BOOK,2\n",
    ),
    (
        RunFault {
            line: usize::MAX,
            field: Some(usize::MAX),
            layer: Layer::Text,
            refusal: RunRefusal::Room,
        },
        b"FAULT,18446744073709551615,18446744073709551615,TEXT,27\n",
    ),
];

#[test]
fn faults_are_written(rt: HostRuntime) -> Result<(), Fail> {
    for (fault, text) in FAULTS.iter().copied() {
        let mut out = [BLANK; 64];
        let end = write_fault(fault, &mut out)?;
        check_written(&rt, &out, 0, end, text);
        let mut short = [BLANK; 63];
        assert_eq!(rt; write_fault(fault, &mut short), Err(OutputRefusal::Room));
        assert!(rt; short == [BLANK; 63]);
    }
    Ok(())
}

#[test]
fn names_are_fixed(rt: HostRuntime) -> Result<(), Fail> {
    let rest = after_names(b"kind,member,zone,flow,value,second,date\nISSUE").ok_or("no names")?;
    assert!(rt; rest == b"ISSUE".as_slice());
    assert!(rt; after_names(b"kind,member,zone,flow,value,second,date").is_none());
    assert!(rt; after_names(b"kind,member,zone,flow,value,second,date\r\n").is_none());
    assert!(rt; after_names(b"").is_none());
    let mut out = [BLANK; 53];
    assert_eq!(rt; write_names(&mut out, 1), Ok(53));
    assert!(rt;
        &out[0..53] == b"#line,month,place,dayb,nightb,dayc,nightc,drams,debt\n".as_slice()
    );
    let mut short = [BLANK; 53];
    assert_eq!(rt; write_names(&mut short, 2), Err(OutputRefusal::Room));
    assert!(rt; short == [BLANK; 53]);
    assert_eq!(rt; OutputRefusal::Room.number(), 27);
    Ok(())
}
