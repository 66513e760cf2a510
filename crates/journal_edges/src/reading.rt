//! What is read of a line, and what is refused.
use crate::line_cases::LINES;
use fields::Token;
use journal::{Line, LineFault, ReadRefusal, Row, read_line};
use std::test::Fail;

#[test]
fn lines_of_each_kind(rt: HostRuntime) {
    for (text, line) in LINES.iter().copied() {
        assert_eq!(rt; read_line(text, 2), Ok(line));
    }
}

// Lines without their line feed, or without seven fields.
const NO_FIELDS: [&[u8]; 13] = [
    b"",
    b"\n",
    b"\r\n",
    b"ISSUE",
    b"ISSUE,-,-,-,-,-,-",
    b"ISSUE,-,-,-,-,-,-\r",
    b"ISSUE,-,-,-,-,-\n",
    b"ISSUE,-,-,-,-,-,-,-\n",
    b"ISSUE,-,-,-,-,-,-,\n",
    b"READ,0,DAY,USE,1,-,2024-01-31,\n",
    b"READ;0;DAY;USE;1;-;2024-01-31\n",
    b",,,,,\n",
    b"\xff\xfe\n",
];

#[test]
fn lines_without_seven_fields(rt: HostRuntime) {
    for text in NO_FIELDS.iter().copied() {
        let refusal = ReadRefusal::Fields;
        assert_eq!(rt; read_line(text, 2), Err(LineFault { line: 2, refusal }));
    }
    assert_eq!(rt; ReadRefusal::Fields.number(), 25);
}

// Lines with the number of their first wrong field.
const WRONG: [(&[u8], usize); 94] = [
    (b",,,,,,\n", 1),
    (b"-,-,-,-,-,-,-\n", 1),
    (b"read,0,DAY,USE,1,-,2024-01-31\n", 1),
    (b"READS,0,DAY,USE,1,-,2024-01-31\n", 1),
    (b" READ,0,DAY,USE,1,-,2024-01-31\n", 1),
    (b"SELL,x,x,x,x,x,x\n", 1),
    (b"0,0,DAY,USE,1,-,2024-01-31\n", 1),
    (b"2024-01-31,0,DAY,USE,1,-,2024-01-31\n", 1),
    (b"\xd0\xff,0,DAY,USE,1,-,2024-01-31\n", 1),
    (b"ISSUE\r,-,-,-,-,-,-\n", 1),
    (b"READ,,DAY,USE,1,-,2024-01-31\n", 2),
    (b"READ,-,DAY,USE,1,-,2024-01-31\n", 2),
    (b"READ,00,DAY,USE,1,-,2024-01-31\n", 2),
    (b"READ,01,DAY,USE,1,-,2024-01-31\n", 2),
    (b"READ,-0,DAY,USE,1,-,2024-01-31\n", 2),
    (b"READ,-1,DAY,USE,1,-,2024-01-31\n", 2),
    (b"READ,+1,DAY,USE,1,-,2024-01-31\n", 2),
    (b"READ, 1,DAY,USE,1,-,2024-01-31\n", 2),
    (b"READ,1 ,DAY,USE,1,-,2024-01-31\n", 2),
    (b"READ,1000000000,DAY,USE,1,-,2024-01-31\n", 2),
    (b"READ,99999999999999999999,x,x,x,x,x\n", 2),
    (b"READ,0x1,DAY,USE,1,-,2024-01-31\n", 2),
    (b"READ,1\xb2,DAY,USE,1,-,2024-01-31\n", 2),
    (b"READ,2024-01-31,DAY,USE,1,-,2024-01-31\n", 2),
    (b"PAY,-,-,-,1,-,-\n", 2),
    (b"ISSUE,0,-,-,-,-,-\n", 2),
    (b"YEAR,,-,-,-,-,-\n", 2),
    (b"READ,0,-,USE,1,-,2024-01-31\n", 3),
    (b"READ,0,day,USE,1,-,2024-01-31\n", 3),
    (b"READ,0,DAYS,USE,1,-,2024-01-31\n", 3),
    (b"READ,0,USE,DAY,1,-,2024-01-31\n", 3),
    (b"PAY,0,DAY,-,1,-,-\n", 3),
    (b"ISSUE,-,DAY,x,-,-,-\n", 3),
    (b"READ,0,NIGHT,,1,-,2024-01-31\n", 4),
    (b"READ,0,NIGHT,USED,1,-,2024-01-31\n", 4),
    (b"CORR,0,DAY,TAKE,1,-,-\n", 4),
    (b"PAY,0,-,USE,1,-,-\n", 4),
    (b"READ,0,DAY,USE,-,-,2024-01-31\n", 5),
    (b"READ,0,DAY,USE,-1,-,2024-01-31\n", 5),
    (b"SWAP,0,DAY,USE,1000000000,1,2024-01-31\n", 5),
    (b"CORR,0,DAY,USE,-0,-,-\n", 5),
    (b"CORR,0,DAY,USE,-,-,-\n", 5),
    (b"CORR,0,DAY,USE,--1,-,-\n", 5),
    (b"CORR,0,DAY,USE,-01,-,-\n", 5),
    (b"CORR,0,DAY,USE,-1000000000,-,-\n", 5),
    (b"CORR,0,DAY,USE,1000000000,-,-\n", 5),
    (b"PAY,0,-,-,-5,-,-\n", 5),
    (b"YEAR,-,-,-,1,-,-\n", 5),
    (b"READ,0,DAY,USE,1,0,2024-01-31\n", 6),
    (b"SWAP,0,DAY,USE,1,-,2024-01-31\n", 6),
    (b"SWAP,0,DAY,USE,1,-1,2024-01-31\n", 6),
    (b"CORR,0,DAY,USE,1,,-\n", 6),
    (b"READ,0,DAY,USE,1,-,-\n", 7),
    (b"READ,0,DAY,USE,1,-,2023-02-29\n", 7),
    (b"READ,0,DAY,USE,1,-,2024-1-31\n", 7),
    (b"READ,0,DAY,USE,1,-,1999-12-31\n", 7),
    (b"READ,0,DAY,USE,1,-,2100-01-01\n", 7),
    (b"READ,0,DAY,USE,1,-,20240131\n", 7),
    (b"CORR,0,DAY,USE,1,-,2024-01-31\n", 7),
    (b"ISSUE,-,-,-,-,-,-\r\n", 7),
    (b"ISSUE,-,-,-,-,-,-\nYEAR\n", 7),
    (b"READ,0,DAY,USE,00,-,2024-01-31\n", 5),
    (b"READ,0,DAY,USE,1000000000,-,2024-01-31\n", 5),
    (b"READ,0,DA\xd9,USE,1,-,2024-01-31\n", 3),
    (b"READ,0,DAY,US\xc5,1,-,2024-01-31\n", 4),
    (b"READ,0,DAY,USE,\xb1,-,2024-01-31\n", 5),
    (b"READ,0,DAY,USE,1,\x96,2024-01-31\n", 6),
    (b"READ,0,DAY,USE,1,-,2024-01-3\xb1\n", 7),
    (b"READ,0,DAY,USE,1,-,2024-01-31\r\n", 7),
    (b"READ,0,DAY,USE,1,-,2024-00-01\n", 7),
    (b"READ,0,DAY,USE,1,-,2024-13-01\n", 7),
    (b"READ,0,DAY,USE,1,-,2024-01-00\n", 7),
    (b"READ,0,DAY,USE,1,-,2024-04-31\n", 7),
    (b"READ,0,DAY,USE,1,-,2024-0a-01\n", 7),
    (b"READ,0,DAY,USE,1,-,2024/01/01\n", 7),
    (b"READ,0,DAY,USE,1,-,02024-01-01\n", 7),
    (b"READ,0,DAY,USE,1,-,2024-01-311\n", 7),
    (b"SWAP,-,DAY,USE,1,1,2024-01-31\n", 2),
    (b"SWAP,0,-,USE,1,1,2024-01-31\n", 3),
    (b"SWAP,0,DAY,-,1,1,2024-01-31\n", 4),
    (b"SWAP,0,DAY,USE,1,1000000000,2024-01-31\n", 6),
    (b"SWAP,0,DAY,USE,1,1,-\n", 7),
    (b"CORR,-1,DAY,USE,1,-,-\n", 2),
    (b"CORR,0,-,USE,1,-,-\n", 3),
    (b"PAY,0,-,-,1000000000,-,-\n", 5),
    (b"PAY,0,-,-,1,0,-\n", 6),
    (b"PAY,0,-,-,1,-,2024-01-31\n", 7),
    (b"ISSUE,-,-,USE,-,-,-\n", 4),
    (b"ISSUE,-,-,-,0,-,-\n", 5),
    (b"ISSUE,-,-,-,-,0,-\n", 6),
    (b"YEAR,-,DAY,-,-,-,-\n", 3),
    (b"YEAR,-,-,USE,-,-,-\n", 4),
    (b"YEAR,-,-,-,-,0,-\n", 6),
    (b"YEAR,-,-,-,-,-,2024-12-31\n", 7),
];

#[test]
fn first_wrong_fields(rt: HostRuntime) {
    for (text, field) in WRONG.iter().copied() {
        let refusal = ReadRefusal::Form { field };
        assert_eq!(rt; refusal.number(), 26);
        assert_eq!(rt; read_line(text, 2), Err(LineFault { line: 2, refusal }));
    }
}

// Numbers of lines, among them such as no journal has.
const NUMBERS: [usize; 5] = [0, 1, 3, 65_536, usize::MAX];

#[test]
fn faults_have_the_number_of_their_line(rt: HostRuntime) {
    for line in NUMBERS.iter().copied() {
        let fields = LineFault {
            line,
            refusal: ReadRefusal::Fields,
        };
        assert_eq!(rt; read_line(b"ISSUE,-,-,-,-,-,-", line), Err(fields));
        let form = LineFault {
            line,
            refusal: ReadRefusal::Form { field: 7 },
        };
        assert_eq!(rt; read_line(b"ISSUE,-,-,-,-,-,2024-01-31\n", line), Err(form));
        assert_eq!(rt; read_line(b"ISSUE,-,-,-,-,-,-\n", line), Ok(Line::Issue));
    }
}

#[test]
fn fields_are_told_with_line_and_number(rt: HostRuntime) -> Result<(), Fail> {
    let row = Row::of(b"READ,-5,NOON,,007,-,2024-13-99\n", 9).ok_or("no fields")?;
    assert_eq!(rt; (row.kind.line, row.kind.number), (9, 1));
    assert_eq!(rt; (row.member.line, row.member.number), (9, 2));
    assert_eq!(rt; (row.zone.line, row.zone.number), (9, 3));
    assert_eq!(rt; (row.flow.line, row.flow.number), (9, 4));
    assert_eq!(rt; (row.value.line, row.value.number), (9, 5));
    assert_eq!(rt; (row.second.line, row.second.number), (9, 6));
    assert_eq!(rt; (row.date.line, row.date.number), (9, 7));
    Ok(())
}

#[test]
fn fields_have_tokens_by_their_look(rt: HostRuntime) -> Result<(), Fail> {
    let row = Row::of(b"READ,-5,NOON,,007,-,2024-13-99\n", 9).ok_or("no fields")?;
    assert!(rt; matches!(row.kind.token(), Token::Word(b"READ")));
    assert!(rt; matches!(row.member.token(), Token::Number(b"-5")));
    assert!(rt; matches!(row.zone.token(), Token::Word(b"NOON")));
    assert!(rt; matches!(row.flow.token(), Token::Word(b"")));
    assert!(rt; matches!(row.value.token(), Token::Number(b"007")));
    assert!(rt; matches!(row.second.token(), Token::Missing));
    assert!(rt; matches!(row.date.token(), Token::Date(b"2024-13-99")));
    Ok(())
}

#[test]
fn faults_are_told_in_words(rt: HostRuntime) -> Result<(), Fail> {
    let alloc = rt.alloc();
    let fields = LineFault {
        line: 9,
        refusal: ReadRefusal::Fields,
    };
    assert!(rt;
        fields.to_string(alloc)?.as_str() == "line 9: this is no whole line of seven fields"
    );
    let form = LineFault {
        line: 10,
        refusal: ReadRefusal::Form { field: 3 },
    };
    assert!(rt;
        form.to_string(alloc)?.as_str()
            == "line 10, field 3: this is not written as its place in the line asks"
    );
    Ok(())
}
