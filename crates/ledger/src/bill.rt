//! What a month and a year come to for one member.
use crate::zone::ByZone;

/// The figures of a member's month.
#[derive(Clone, Copy, PartialEq, Eq, Debug, Default)]
pub struct Bill {
    /// The kWh billed in each zone.
    pub billed: ByZone<u32>,
    /// The kWh covered in each zone.
    pub covered: ByZone<u32>,
    /// The bill in drams.
    pub drams: i64,
    /// The debt after it, in drams.
    pub debt: i64,
}

/// The figures of the holder's year end.
#[derive(Clone, Copy, PartialEq, Eq, Debug)]
pub struct YearEnd {
    /// The kWh paid in each zone.
    pub paid: ByZone<u64>,
    /// What was added to the debt, in drams.
    pub drams: i64,
    /// The debt after it, in drams.
    pub debt: i64,
}
