//! What a comparison reads and refuses.
use comparison::{Fault, Problem, Wrong, report};
use sharing::{PartsRefusal, ShareRefusal};
use std::alloc::Global;
use std::process::Abort;
use std::test::Fail;

fn check_problem(rt: &impl Abort, alloc: Global, text: &str, problem: Problem) -> Result<(), Fail> {
    assert_eq!(rt; report(alloc, text.as_bytes()).err(), Some(problem));
    Ok(())
}

fn check_fault(
    rt: &impl Abort,
    alloc: Global,
    text: &str,
    line: usize,
    field: Option<usize>,
    wrong: Wrong,
) -> Result<(), Fail> {
    check_problem(rt, alloc, text, Problem::At(Fault { line, field, wrong }))
}

#[test]
fn faults_name_line_and_field(rt: HostRuntime) -> Result<(), Fail> {
    let alloc = rt.alloc();
    check_fault(&rt, alloc, "", 1, None, Wrong::LineFeed)?;
    check_fault(&rt, alloc, "5,3", 1, None, Wrong::LineFeed)?;
    check_fault(&rt, alloc, "\n", 1, Some(1), Wrong::Number)?;
    check_fault(&rt, alloc, "5\n", 1, Some(2), Wrong::Missing)?;
    check_fault(&rt, alloc, "5,,3\n", 1, Some(2), Wrong::Number)?;
    check_fault(&rt, alloc, "5,03\n", 1, Some(2), Wrong::Number)?;
    check_fault(&rt, alloc, "5,-3\n", 1, Some(2), Wrong::Number)?;
    check_fault(&rt, alloc, "5,3\r\n", 1, Some(2), Wrong::Number)?;
    check_fault(&rt, alloc, "10000000000,3\n", 1, Some(1), Wrong::Number)?;
    check_fault(&rt, alloc, "5,3\n\n", 2, Some(1), Wrong::Number)?;
    check_fault(&rt, alloc, "5,3\n1,2,\n", 2, Some(3), Wrong::Number)?;
    check_fault(&rt, alloc, "5,3\n1", 2, None, Wrong::LineFeed)?;
    check_fault(&rt, alloc, "5,3\n1\n\n", 3, None, Wrong::Line)
}

#[test]
fn places_are_counted(rt: HostRuntime) -> Result<(), Fail> {
    let alloc = rt.alloc();
    let many = "1,1,1,1,1,1,1,1,1,1,1,1,1,1,1,1,1,1,1,1,1,1,1,1,1,1,1,1,1,1,1,1,1";
    let more = format!(in alloc; "{many},x\n")?;
    check_fault(&rt, alloc, more.as_str(), 1, Some(34), Wrong::Surplus)?;
    let parts = format!(in alloc; "5,3\n{many}\n")?;
    check_fault(&rt, alloc, parts.as_str(), 2, Some(33), Wrong::Surplus)?;
    let most = format!(in alloc; "{many}\n")?;
    assert!(rt; report(alloc, most.as_str().as_bytes()).is_ok());
    Ok(())
}

#[test]
fn refusals_carry_their_number(rt: HostRuntime) -> Result<(), Fail> {
    let alloc = rt.alloc();
    let size = Problem::OfRule(ShareRefusal::Size);
    check_problem(&rt, alloc, "1000000001,3\n", size)?;
    check_problem(&rt, alloc, "9999999999,3\n10001\n", size)?;
    check_problem(&rt, alloc, "5,2000001\n", size)?;
    let parts = Problem::OfParts(PartsRefusal::Parts);
    check_problem(&rt, alloc, "5,3\n5000,5001\n", parts)?;
    check_problem(&rt, alloc, "5,3\n9999999999\n", parts)?;
    assert!(rt; report(alloc, b"1000000000,2000000\n10000\n").is_ok());
    Ok(())
}

#[test]
fn problems_are_told_in_words(rt: HostRuntime) -> Result<(), Fail> {
    let alloc = rt.alloc();
    let size = Problem::OfRule(ShareRefusal::Size);
    assert!(rt;
        size.to_string(alloc)?.as_str()
            == "refused by 8: the pool is over 1000000000 kWh or a need over 2000000 kWh"
    );
    let missing = Problem::At(Fault {
        line: 1,
        field: Some(2),
        wrong: Wrong::Missing,
    });
    assert!(rt;
        missing.to_string(alloc)?.as_str() == "line 1, field 2: the line ends before its first need"
    );
    let endless = Problem::At(Fault {
        line: 2,
        field: None,
        wrong: Wrong::LineFeed,
    });
    assert!(rt;
        endless.to_string(alloc)?.as_str() == "line 2: the line does not end in a line feed"
    );
    Ok(())
}
