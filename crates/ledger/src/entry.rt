//! What is entered into the open month.
use crate::zone::{Flow, Zone};
use calendar::Day;

/// One of the four registers of the member at a place.
#[derive(Clone, Copy, PartialEq, Eq, Debug)]
pub struct MemberRegister {
    /// The member's place.
    pub place: usize,
    /// The zone of the register.
    pub zone: Zone,
    /// The flow that the register counts.
    pub flow: Flow,
}

/// An entry for a member.
#[derive(Clone, Copy, PartialEq, Eq, Debug)]
pub enum Entry {
    /// A meter reading.
    Reading {
        /// The register that is read.
        register: MemberRegister,
        /// The day of the reading.
        day: Day,
        /// What the register stands at, in kWh.
        value: u32,
    },
    /// A meter change.
    Change {
        /// The register whose meter is changed.
        register: MemberRegister,
        /// The day of the change.
        day: Day,
        /// The final value of the old meter in kWh.
        value: u32,
        /// The start value of the new meter in kWh.
        start: u32,
    },
    /// A correction of one register's tally.
    Correction {
        /// The register whose tally is corrected.
        register: MemberRegister,
        /// What is added to the tally, in kWh.
        quantity: i32,
    },
    /// A payment.
    Payment {
        /// The member's place.
        place: usize,
        /// The amount in drams.
        drams: u32,
    },
}
