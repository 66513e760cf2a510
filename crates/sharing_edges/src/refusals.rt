//! Where a rule's call and the setter of the parts refuse, and what a refusal leaves.
use sharing::{LineOrder, Parts, Proportion, SharingRule};
use std::process::Abort;

// What stands in the slice for shares before a call.
const MARK: u64 = 77;

// A pool, a need, how many places have it, how many places there are for shares, and the
// refusal's number, if there is one.
#[derive(Clone, Copy)]
struct Case(u64, u64, usize, usize, Option<u8>);

const CASES: [Case; 16] = [
    Case(5, 3, 1, 1, None),
    Case(5, 3, 32, 32, None),
    Case(5, 3, 0, 0, Some(7)),
    Case(5, 3, 33, 33, Some(7)),
    Case(5, 3, 3, 2, Some(7)),
    Case(5, 3, 3, 4, Some(7)),
    Case(5, 3, 1, 0, Some(7)),
    Case(1_000_000_000, 3, 1, 1, None),
    Case(1_000_000_001, 3, 1, 1, Some(8)),
    Case(5, 2_000_000, 1, 1, None),
    Case(5, 2_000_001, 1, 1, Some(8)),
    Case(5, 2_000_001, 32, 32, Some(8)),
    Case(u64::MAX, u64::MAX, 32, 32, Some(8)),
    Case(1_000_000_001, 2_000_001, 33, 33, Some(7)),
    Case(1_000_000_000, 2_000_000, 32, 32, None),
    Case(0, 0, 32, 32, None),
];

// The number of the rule's refusal, if there is one, with whether the slice was left as it was.
fn asked<R: SharingRule>(rule: &R, case: Case) -> (Option<u8>, bool) {
    let Case(pool, need, count, places, _) = case;
    let needs = [need; 33];
    let mut shares = [MARK; 33];
    let answer = rule.share(
        pool,
        &needs[0..count.min(33)],
        &mut shares[0..places.min(33)],
    );
    let number = answer.err().map(|refusal| refusal.number());
    (number, shares.iter().all(|share| *share == MARK))
}

fn check_all<R: SharingRule>(rt: &impl Abort, rule: &R) {
    for case in CASES.iter() {
        let (number, same) = asked(rule, *case);
        assert_eq!(rt; number, case.4);
        assert_eq!(rt; same, case.4.is_some());
    }
}

#[test]
fn every_rule_refuses_alike(rt: HostRuntime) {
    check_all(&rt, &LineOrder);
    check_all(&rt, &Proportion);
    check_all(&rt, &Parts::over(LineOrder));
    check_all(&rt, &Parts::over(Parts::over(Proportion)));
}

// How many parts, the first two of them, and the refusal's number, if there is one.
const PARTS: [(usize, u64, u64, Option<u8>); 9] = [
    (32, 10_000, 0, None),
    (32, 4_000, 6_000, None),
    (32, 4_000, 6_001, Some(9)),
    (32, 10_001, 0, Some(9)),
    (32, u64::MAX, u64::MAX, Some(9)),
    (32, 1, u64::MAX, Some(9)),
    (31, 1, 0, Some(9)),
    (33, 1, 0, Some(9)),
    (0, 0, 0, Some(9)),
];

#[test]
fn parts_are_set_or_refused(rt: HostRuntime) {
    for (count, first, second, number) in PARTS.iter().copied() {
        let mut layer = Parts::over(LineOrder);
        let mut parts = [0; 33];
        parts[0] = first;
        parts[1] = second;
        let answer = layer.set(&parts[0..count.min(33)]);
        assert_eq!(rt; answer.err().map(|refusal| refusal.number()), number);
    }
}

#[test]
fn refused_parts_leave_the_old_ones(rt: HostRuntime) {
    let mut layer = Parts::over(LineOrder);
    let mut parts = [0; 32];
    parts[1] = 10_000;
    assert!(rt; layer.set(&parts).is_ok());
    parts[0] = 1;
    assert!(rt; layer.set(&parts).is_err());
    let mut shares = [MARK; 2];
    assert!(rt; layer.share(5, &[3, 3], &mut shares).is_ok());
    assert_eq!(rt; shares[0], 2);
    assert_eq!(rt; shares[1], 3);
}
