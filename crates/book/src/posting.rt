//! Amounts that are posted to members' accounts.
ghost use Rattle.std.specs.Prelude.{◌≡◌, ◌<◌, ◌≤◌, Some, length, nat_abs, slice_get};
ghost use Rattle.billing.specs.Accounts.{drams_of};
ghost use Rattle.group.specs.Months.{posted_account};
ghost use Rattle.group.specs.Sound.{IsPostable};

use billing::{Account, Posting, post};
use group::Member;

// The record at a place. The one of a `for` over the slice has no such plain name in a proof.
pub(crate) fn member_at(members: &[Member], place: usize) -> Member
    requires { place < length members.now }
    ensures { slice_get members.now place ≡ Some result }
{
    members[place]
}

// An account after an amount in hundredths of a dram, and the drams that were added to its debt.
pub(crate) fn posted(account: Account, amount: i64) -> Posting
    requires account { IsPostable account }
    requires amount { nat_abs amount ≤ 200000000000000 }
    ensures drams { result.drams ≡ drams_of account amount }
    ensures account { result.account ≡ posted_account account amount }
{
    let Some(posting) = post(account, amount) else {
        unreachable!()
    };
    posting
}
