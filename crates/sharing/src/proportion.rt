//! Proportion.
ghost use Rattle.std.specs.Prelude.{◌≡◌, ◌+◌, ◌-◌, ◌≤◌};
ghost use Rattle.sharing.specs.Rules.{portion, proportion};
ghost use Rattle.sharing.specs.KeepingTheLaw.{proportion_keeps_law};

use crate::refusal::ShareRefusal;
use crate::rule::{SharingRule, admit, saturating_sum};

/// Proportion: what is given is shared by need, and what rounding holds back from a place is carried on to those after it.
#[derive(Clone, Copy, Debug)]
pub struct Proportion;

impl SharingRule for Proportion {
    ghost sharing = { λ _. proportion };

    ghost keeps_law = { λ rule. proportion_keeps_law };

    fn share(&self, pool: u64, needs: &[u64], shares: &mut [u64]) -> Result<(), ShareRefusal> {
        admit(pool, needs, shares.len())?;
        let all = saturating_sum(needs);
        let given = pool.min(all);
        let mut before = 0;
        // By places: after `shares.iter_mut().zip(needs)` no proof knows what was written.
        for (place, need) in needs.iter().enumerate() {
            shares[place] = share_of(given, all, before, *need);
            before += *need;
        }
        Ok(())
    }
}

// What a place gets that comes after the needs before it.
fn share_of(given: u64, all: u64, before: u64, need: u64) -> u64
    requires given { given ≤ 64000000 }
    requires needs { before + need ≤ 64000000 }
    ensures { result ≡ portion given all (before + need) - portion given all before }
{
    // A portion only grows with the needs that it is for, so the difference stops at 0 nowhere.
    portion_of(given, all, before + need).saturating_sub(portion_of(given, all, before))
}

// The portion of `given` that falls to the first `first` kWh of all needs, rounded down.
fn portion_of(given: u64, all: u64, first: u64) -> u64
    requires given { given ≤ 64000000 }
    requires first { first ≤ 64000000 }
    ensures { result ≡ portion given all first }
{
    (given * first).checked_div(all).unwrap_or(0)
}
