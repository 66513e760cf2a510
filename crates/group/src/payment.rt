//! What a payment does to an account.
ghost use Rattle.std.specs.Prelude.{◌≡◌};
ghost use Rattle.group.specs.Payments.{with_payment};

use crate::refusal::BookRefusal;
use billing::Account;

/// The largest payment, in drams.
pub const MOST_PAYMENT: u32 = 100_000_000;
/// The lowest debt that a payment may leave, in drams.
pub const LEAST_DEBT: i64 = -1_000_000_000;

// The account after a payment in drams.
pub(crate) fn with_payment(account: Account, drams: u32) -> Result<Account, BookRefusal>
    ensures { result ≡ with_payment drams account }
{
    if drams < 1 || drams > MOST_PAYMENT {
        return Err(BookRefusal::Value);
    }
    if account.debt < LEAST_DEBT + drams as i64 {
        return Err(BookRefusal::Debt);
    }
    Ok(Account {
        debt: account.debt - drams as i64,
        ..account
    })
}
