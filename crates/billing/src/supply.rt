//! What a member got in a zone.

/// The kWh that a member got in a zone in a month.
#[derive(Clone, Copy, PartialEq, Eq, Debug)]
pub struct Supply {
    /// What the member is billed for.
    pub billed: u64,
    /// What the pool covered.
    pub covered: u64,
}
