//! The registers of a member, and what is read of them.
ghost use Rattle.std.specs.Prelude.{◌≡◌, ◌≤◌};
ghost use Rattle.group.specs.Registers.{with_correction, with_value, most_standing, opened_register, quantity, with_reading, tally_with};

use crate::refusal::BookRefusal;
use calendar::{Day, Month, is_in};
use ledger::MemberRegister;

/// The largest value of a register, in kWh.
pub const MOST_STANDING: u32 = 9_999_999;
/// The largest tally and the largest correction, in kWh either way.
pub const MOST_TALLY: u32 = 1_000_000;

/// A register of a member's meter.
#[derive(Clone, Copy, PartialEq, Eq, Debug)]
pub struct Register {
    /// What it stands at, in kWh.
    pub standing: u32,
    /// The kWh of the open month.
    pub tally: i32,
}

/// What is read of a register on a day.
#[derive(Clone, Copy, PartialEq, Eq, Debug)]
pub struct MeterReading {
    /// The register that is read.
    pub register: MemberRegister,
    /// The day on which it is read.
    pub day: Day,
    /// What it stands at, in kWh.
    pub value: u32,
    /// What it goes on from, in kWh: the same value, or the start value of a new meter.
    pub start: u32,
}

impl Register {
    /// A register as it opens.
    pub fn opened(standing: u32) -> Register
        ensures { result ≡ opened_register standing }
    {
        Register { standing, tally: 0 }
    }

    // The register after it is read in the open month, which from then on stands at the start value.
    pub(crate) fn with_reading(
        self,
        month: Month,
        reading: MeterReading,
    ) -> Result<Register, BookRefusal>
        ensures { result ≡ with_reading month reading.day reading.value reading.start self }
    {
        if !is_in(reading.day, month) {
            return Err(BookRefusal::Day);
        }
        if reading.value > MOST_STANDING || reading.start > MOST_STANDING {
            return Err(BookRefusal::Value);
        }
        self.with_value(reading.value, reading.start)
    }

    // The register with the quantity of a value in its tally.
    #[tactic(auto, using(crate::proofs::Quantities::quantity_within))]
    fn with_value(self, value: u32, start: u32) -> Result<Register, BookRefusal>
        requires { value ≤ most_standing }
        ensures { result ≡ with_value value start self }
    {
        let kwh = quantity(self.standing, value).ok_or(BookRefusal::Below)?;
        let tally = tally_with(self.tally, kwh as i32)?;
        Ok(Register {
            standing: start,
            tally,
        })
    }

    // The register after a correction of its tally.
    pub(crate) fn with_correction(self, kwh: i32) -> Result<Register, BookRefusal>
        ensures { result ≡ with_correction kwh self }
    {
        if kwh.unsigned_abs() > MOST_TALLY {
            return Err(BookRefusal::Value);
        }
        let tally = tally_with(self.tally, kwh)?;
        Ok(Register { tally, ..self })
    }
}

// The kWh that a value tells, of a register that stands at another; none where it is below.
#[tactic(auto, unfolding(crate::specs::Registers::quantity))]
fn quantity(standing: u32, value: u32) -> Option<u32>
    ensures { result ≡ quantity standing value }
{
    value.checked_sub(standing)
}

// A tally and a quantity together.
fn tally_with(tally: i32, kwh: i32) -> Result<i32, BookRefusal>
    ensures { result ≡ tally_with tally kwh }
{
    let sum = tally as i64 + kwh as i64;
    if sum.unsigned_abs() > MOST_TALLY as u64 {
        return Err(BookRefusal::Tally);
    }
    Ok(sum as i32)
}
