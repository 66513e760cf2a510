//! The sharing rule as an interface, and the test that every rule's call begins with.
ghost use Rattle.std.specs.Prelude.{◌≡◌, ℕ, ◌-◌, min, List, length, sum};
ghost use Rattle.sharing.specs.Law.{SharingLaw};
ghost use Rattle.sharing.specs.Refusals.{answer, some_need_over, list_after};

use crate::refusal::ShareRefusal;

/// The most places that a group can have.
pub const PLACES: usize = 32;
/// The largest pool that is shared, in kWh.
pub const MOST_POOL: u64 = 1_000_000_000;
/// The largest need that is served, in kWh.
pub const MOST_NEED: u64 = 2_000_000;

/// A rule that shares a pool of kWh among needs, by one function that keeps the law `SharingLaw`.
pub trait SharingRule {
    // The rule as the function from a pool and a list of needs that it is, which is why its call takes the two apart.
    ghost sharing: { Self → ℕ → List ℕ → List ℕ };

    /// Writes the shares of the needs into `shares`, or refuses and leaves it as it was.
    fn share(&self, pool: u64, needs: &[u64], shares: &mut [u64]) -> Result<(), ShareRefusal>
        ensures answers { result ≡ answer pool needs.now (length shares.old) }
        ensures writes { shares.new
            ≡ list_after result (sharing self.now pool needs.now) shares.old };

    ghost keeps_law: { (rule : Self) (pool : ℕ) (needs : List ℕ)
        → SharingLaw pool needs (sharing rule pool needs) };
}

/// The test of every rule's call: 7 and then 8, or done.
pub fn admit(pool: u64, needs: &[u64], places: usize) -> Result<(), ShareRefusal>
    ensures { result ≡ answer pool needs.now places }
{
    if needs.is_empty() || needs.len() > PLACES || places != needs.len() {
        return Err(ShareRefusal::Count);
    }
    if pool > MOST_POOL || some_need_over(needs) {
        return Err(ShareRefusal::Size);
    }
    Ok(())
}

/// What shares leave of a pool, or 0 where they are more than it.
pub fn left_of(pool: u64, shares: &[u64]) -> u64
    ensures { result ≡ pool - sum shares.now }
{
    let mut left = pool;
    // By a loop: a `fold` over many shares becomes jumps that are guessed wrong, and takes several times as long.
    for share in shares {
        left = left.saturating_sub(*share);
    }
    left
}

// The sum of the amounts, or the largest number where it does not fit.
pub(crate) fn saturating_sum(amounts: &[u64]) -> u64
    ensures { result ≡ min (sum amounts.now) u64.MAX }
{
    amounts
        .iter()
        .fold(0u64, |sum, amount| sum.saturating_add(*amount))
}

// Whether a need is over its limit.
fn some_need_over(needs: &[u64]) -> bool
    ensures { result ≡ some_need_over needs.now }
{
    needs.iter().any(|need| *need > MOST_NEED)
}
