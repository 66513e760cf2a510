//! Line order.
ghost use Rattle.sharing.specs.Rules.{line_order};
ghost use Rattle.sharing.specs.KeepingTheLaw.{line_order_keeps_law};

use crate::refusal::ShareRefusal;
use crate::rule::{SharingRule, admit};

/// Line order: who comes first takes what it needs, and who comes later what the others left over.
#[derive(Clone, Copy, Debug)]
pub struct LineOrder;

impl SharingRule for LineOrder {
    ghost sharing = { λ _. line_order };

    ghost keeps_law = { λ rule. line_order_keeps_law };

    fn share(&self, pool: u64, needs: &[u64], shares: &mut [u64]) -> Result<(), ShareRefusal> {
        admit(pool, needs, shares.len())?;
        let mut left = pool;
        // By places, in the order that is the rule: after `shares.iter_mut().zip(needs)` no proof knows what was written.
        for (place, need) in needs.iter().enumerate() {
            let share = left.min(*need);
            shares[place] = share;
            left -= share;
        }
        Ok(())
    }
}
