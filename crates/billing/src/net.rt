//! The net of a member in a zone, and what it says.
ghost use Rattle.std.specs.Prelude.{◌≡◌, ◌-ℤ◌};
ghost use Rattle.billing.specs.Zones.{need, surplus};

/// A member's net in a zone: the consumed tally less the delivered tally, both of which may be negative.
pub fn net_of(consumed: i32, delivered: i32) -> i64
    ensures { result ≡ consumed -ℤ delivered }
{
    consumed as i64 - delivered as i64
}

// Each `if` reads as its sentence: `u64::try_from(net).unwrap_or(0)` makes a failure of the 0, and `net.max(0).unsigned_abs()` hides it.

/// The need of a net: the net itself where it is positive, else 0.
pub fn need_of(net: i64) -> u64
    ensures { result ≡ need net }
{
    if net > 0 { net.unsigned_abs() } else { 0 }
}

/// The surplus of a net: by how much it is below 0.
pub fn surplus_of(net: i64) -> u64
    ensures { result ≡ surplus net }
{
    if net < 0 { net.unsigned_abs() } else { 0 }
}
