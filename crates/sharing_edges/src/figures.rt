//! What the rules give at their edges.
use sharing::{LineOrder, Parts, Proportion, SharingRule};
use std::process::Abort;

// A pool, three needs, and the three shares; in tuples, since a proof does not know the length of an array out of a struct.
#[derive(Clone, Copy)]
struct Case(u64, (u64, u64, u64), (u64, u64, u64));

fn check_all<R: SharingRule>(rt: &impl Abort, rule: &R, cases: &[Case]) {
    for case in cases {
        let Case(pool, (a, b, c), expected) = *case;
        let mut shares = [77; 3];
        assert!(rt; rule.share(pool, &[a, b, c], &mut shares).is_ok());
        assert_eq!(rt; shares[0], expected.0);
        assert_eq!(rt; shares[1], expected.1);
        assert_eq!(rt; shares[2], expected.2);
    }
}

#[test]
fn line_order_serves_one_after_another(rt: HostRuntime) {
    let cases = [
        Case(5, (3, 3, 3), (3, 2, 0)),
        Case(0, (3, 3, 3), (0, 0, 0)),
        Case(9, (3, 3, 3), (3, 3, 3)),
        Case(10, (3, 3, 3), (3, 3, 3)),
        Case(4, (0, 3, 3), (0, 3, 1)),
        Case(5, (0, 0, 0), (0, 0, 0)),
        Case(
            1_000_000_000,
            (2_000_000, 2_000_000, 2_000_000),
            (2_000_000, 2_000_000, 2_000_000),
        ),
    ];
    check_all(&rt, &LineOrder, &cases);
}

#[test]
fn proportion_loses_nothing_by_rounding(rt: HostRuntime) {
    let cases = [
        Case(5, (3, 3, 3), (1, 2, 2)),
        Case(1, (1, 1, 1), (0, 0, 1)),
        Case(2, (1, 1, 1), (0, 1, 1)),
        Case(0, (3, 3, 3), (0, 0, 0)),
        Case(10, (3, 3, 3), (3, 3, 3)),
        Case(7, (10, 0, 4), (5, 0, 2)),
        Case(5, (0, 0, 0), (0, 0, 0)),
        Case(
            3_000_000,
            (2_000_000, 2_000_000, 2_000_000),
            (1_000_000, 1_000_000, 1_000_000),
        ),
    ];
    check_all(&rt, &Proportion, &cases);
}

// Half of the pool for the first place and a quarter for each of the next two.
fn halved<R: SharingRule + Drop>(rt: &impl Abort, rule: R) -> Parts<R> {
    let mut parts = [0; 32];
    parts[0] = 5000;
    parts[1] = 2500;
    parts[2] = 2500;
    let mut layer = Parts::over(rule);
    assert!(rt; layer.set(&parts).is_ok());
    layer
}

#[test]
fn parts_come_first(rt: HostRuntime) {
    let over_order = [
        Case(5, (3, 3, 3), (3, 1, 1)),
        Case(100, (10, 60, 60), (10, 60, 30)),
        Case(5, (0, 0, 0), (0, 0, 0)),
        Case(0, (3, 3, 3), (0, 0, 0)),
    ];
    check_all(&rt, &halved(&rt, LineOrder), &over_order);
    let over_proportion = [
        Case(5, (3, 3, 3), (2, 1, 2)),
        Case(100, (10, 60, 60), (10, 45, 45)),
    ];
    check_all(&rt, &halved(&rt, Proportion), &over_proportion);
}

#[test]
fn parts_nest(rt: HostRuntime) {
    let once = [
        Case(5, (3, 3, 3), (3, 1, 1)),
        Case(100, (10, 60, 60), (10, 60, 30)),
    ];
    check_all(&rt, &Parts::over(halved(&rt, LineOrder)), &once);
    let twice = [
        Case(5, (3, 3, 3), (3, 1, 1)),
        Case(100, (10, 60, 60), (10, 55, 35)),
    ];
    check_all(&rt, &halved(&rt, halved(&rt, LineOrder)), &twice);
}
