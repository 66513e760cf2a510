//! Parts, a layer over any rule.
ghost use Rattle.std.specs.Prelude.{◌≡◌, ◌≤◌, replicate, sum, nat_le};
ghost use Rattle.sharing.specs.Limits.{most_places};
ghost use Rattle.sharing.specs.Refusals.{parts_answer, list_after};
ghost use Rattle.sharing.specs.Rules.{ahead, with_parts};
ghost use Rattle.sharing.specs.KeepingTheLaw.{with_parts_keeps_law};

use crate::parts_refusal::PartsRefusal;
use crate::refusal::ShareRefusal;
use crate::rule::{PLACES, SharingRule, admit};

/// The whole pool in ten-thousandths.
pub const WHOLE: u64 = 10_000;

/// A layer over any rule: each place first gets its part of the pool, and the rule below shares the rest.
#[derive(Debug, Drop)]
pub struct Parts<R> {
    parts: [u64; PLACES],
    rule: R,
    ghost whole: { sum parts ≤ 10000 },
}

impl<R> Parts<R> {
    ghost use Rattle.sharing.specs.Parts.{parts_of, rule_below};

    /// The layer over `rule` in which every part is 0.
    pub fn over(rule: R) -> Parts<R>
        ensures parts { parts_of result ≡ replicate most_places 0 }
        ensures below { rule_below result ≡ rule }
    {
        Parts {
            parts: [0; PLACES],
            rule,
        }
    }

    /// Sets all parts, or refuses and leaves them as they were.
    pub fn set(&mut self, parts: &[u64]) -> Result<(), PartsRefusal>
        ensures answers { result ≡ parts_answer parts.now }
        ensures writes { parts_of self.new ≡ list_after result parts.now (parts_of self.old) }
        ensures below { rule_below self.new ≡ rule_below self.old }
    {
        if parts.len() != PLACES || !within_whole(parts) {
            return Err(PartsRefusal::Parts);
        }
        self.parts.copy_from_slice(parts);
        Ok(())
    }
}

impl<R: SharingRule> SharingRule for Parts<R> {
    ghost use Rattle.sharing.specs.Parts.{parts_of, rule_below};

    ghost sharing = { λ layer.
        with_parts (R.SharingRule.sharing (rule_below layer)) (parts_of layer) };

    ghost keeps_law = { λ layer.
        with_parts_keeps_law _ (R.SharingRule.keeps_law (rule_below layer))
        (parts_of layer) layer.whole };

    fn share(&self, pool: u64, needs: &[u64], shares: &mut [u64]) -> Result<(), ShareRefusal> {
        admit(pool, needs, shares.len())?;
        let mut left = pool;
        let mut rest = [0; PLACES];
        // By places, here and below: after `rest.iter_mut().zip(needs)` no proof knows what was written.
        for (place, need) in needs.iter().enumerate() {
            let own = ahead(pool, self.parts[place], *need);
            left -= own;
            rest[place] = *need - own;
        }
        self.rule.share(left, &rest[..needs.len()], shares)?;
        for (place, need) in needs.iter().enumerate() {
            shares[place] += ahead(pool, self.parts[place], *need);
        }
        Ok(())
    }
}

// Whether the parts add up to no more than the whole; it ends at the first part that is over what is left of it.
fn within_whole(parts: &[u64]) -> bool
    ensures { result ≡ nat_le (sum parts.now) 10000 }
{
    parts
        .iter()
        .try_fold(WHOLE, |left, part| left.checked_sub(*part))
        .is_some()
}

// What a place gets ahead of the others.
fn ahead(pool: u64, part: u64, need: u64) -> u64
    requires pool { pool ≤ 1000000000 }
    requires part { part ≤ 10000 }
    ensures { result ≡ ahead pool part need }
{
    (pool * part / WHOLE).min(need)
}
