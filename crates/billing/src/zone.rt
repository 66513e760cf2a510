//! A zone's month: its pool is shared among the needs, and what is left is carried on.
ghost use Rattle.std.specs.Prelude.{◌≡◌, ◌≤◌, [], length, IfOk, if◌then◌else◌, Ok, Err, nat_lt};
ghost use Rattle.sharing.specs.Law.{less};
ghost use Rattle.sharing.specs.Limits.{most_places};
ghost use Rattle.sharing.specs.declared.refusal.ShareRefusal.TheVariants.{Size};
ghost use Rattle.billing.specs.Zones.{Balances, SettlesZone, places_match, needs_of, pool_of};

use crate::net::{need_of, surplus_of};
use arrayvec::ArrayVec;
use sharing::{MOST_POOL, PLACES, ShareRefusal, SharingRule, left_of};

// Whether there are 1 to 32 members, with a place to cover and a place to bill for each.
fn is_counted(members: usize, to_cover: usize, to_bill: usize) -> bool
    ensures { result ≡ places_match members to_cover to_bill }
{
    members > 0 && members <= PLACES && to_cover == members && to_bill == members
}

// Writes the needs of the nets into a vector that is empty. It is lent, since one that is handed out is copied.
fn put_needs(nets: &[i64], needs: &mut ArrayVec<u64, PLACES>)
    requires few { length nets.now ≤ most_places }
    requires none { needs.old.items ≡ [] }
    ensures { needs.new.items ≡ needs_of nets.now }
{
    for net in nets {
        needs.push(need_of(*net));
    }
}

// The pool of a zone, or the refusal of one that is too large to be shared.
fn pool_in(carried: u64, nets: &[i64]) -> Result<u64, ShareRefusal>
    ensures { let pool = pool_of carried nets.now in
        result ≡ (if nat_lt 1000000000 pool then Err Size else Ok pool) }
{
    // A sum past 64 bits stays at the largest number, which is over the limit as well.
    let pool = nets
        .iter()
        .fold(carried, |pool, net| pool.saturating_add(surplus_of(*net)));
    if pool > MOST_POOL {
        return Err(ShareRefusal::Size);
    }
    Ok(pool)
}

// Writes what is left of each need after its cover.
fn bill(needs: &[u64], covered: &[u64], billed: &mut [u64])
    requires covered { length covered.now ≡ length needs.now }
    requires billed { length billed.old ≡ length needs.now }
    ensures { billed.new ≡ less needs.now covered.now }
{
    // Written by place: after `billed.iter_mut().zip(..)` a proof knows nothing of what was written.
    // A second table that is copied into the slice would be no plainer.
    for (place, need) in needs.iter().enumerate() {
        billed[place] = need.saturating_sub(covered[place]);
    }
}

// Two slices and not one of pairs, since a rule writes its shares into a slice of numbers.

/// Settles a zone's month by a rule: writes what each member is covered and billed and answers the new carried balance, or refuses and leaves both slices as they were.
pub fn settle_zone<R: SharingRule>(
    rule: &R,
    carried: u64,
    nets: &[i64],
    covered: &mut [u64],
    billed: &mut [u64],
) -> Result<u64, ShareRefusal>
    ensures settled { SettlesZone (R.SharingRule.sharing rule.now) carried nets.now result
        (record { covered = covered.old; billed = billed.old })
        (record { covered = covered.new; billed = billed.new }) }
    ensures balances { IfOk result
        (λ left. Balances carried nets.now left covered.new billed.new) }
{
    if !is_counted(nets.len(), covered.len(), billed.len()) {
        return Err(ShareRefusal::Count);
    }
    let mut needs = ArrayVec::new();
    put_needs(nets, &mut needs);
    let pool = pool_in(carried, nets)?;
    rule.share(pool, &needs, covered)?;
    bill(&needs, covered, billed);
    Ok(left_of(pool, covered))
}
