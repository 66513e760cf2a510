//! The record of a member.
ghost use Rattle.std.specs.Prelude.{◌≡◌};
ghost use Rattle.group.specs.Members.{nobody, capacity_of, has_register_over, on_account, on_register, one_over, opened_flows, opened_member, opening_record, register_at, with_register};
ghost use Rattle.group.specs.Payments.{with_payment};
ghost use Rattle.group.specs.Registers.{with_correction, with_reading};
ghost use Rattle.group.specs.Results.{Follows};

use crate::payment::with_payment;
use crate::refusal::BookRefusal;
use crate::register::{MOST_STANDING, MeterReading, Register};
use billing::Account;
use calendar::Month;
use ledger::{ByFlow, ByZone, MemberRegister};
use tariff::Class;

/// What a group opens with for a member.
#[derive(Clone, Copy, PartialEq, Eq, Debug)]
pub struct OpeningRecord {
    capacity: u32,
    class: Class,
    standings: ByZone<ByFlow<u32>>,
}

impl OpeningRecord {
    /// A record as a group opens: a capacity in kW, a class, and what each register stands at.
    pub fn new(capacity: u32, class: Class, standings: ByZone<ByFlow<u32>>) -> OpeningRecord
        ensures { result ≡ opening_record capacity class standings }
    {
        OpeningRecord {
            capacity,
            class,
            standings,
        }
    }

    // The capacity in kW.
    pub(crate) fn capacity(&self) -> u32
        ensures { result ≡ capacity_of self.now }
    {
        self.capacity
    }

    // Whether a register is over the largest value.
    pub(crate) fn is_over(&self) -> bool
        ensures { result ≡ has_register_over self.now }
    {
        one_over(self.standings.day) || one_over(self.standings.night)
    }
}

// Whether one of both registers of a zone is over the largest value.
fn one_over(standings: ByFlow<u32>) -> bool
    ensures { result ≡ one_over standings }
{
    standings.consumed > MOST_STANDING || standings.delivered > MOST_STANDING
}

// Both registers of a zone as they open.
fn opened_flows(standings: ByFlow<u32>) -> ByFlow<Register>
    ensures { result ≡ opened_flows standings }
{
    ByFlow {
        consumed: Register::opened(standings.consumed),
        delivered: Register::opened(standings.delivered),
    }
}

/// The record of a member.
#[derive(Clone, Copy, PartialEq, Eq, Debug)]
pub struct Member {
    /// The capacity in kW.
    pub capacity: u32,
    /// The class.
    pub class: Class,
    /// The registers.
    pub registers: ByZone<ByFlow<Register>>,
    /// The account.
    pub account: Account,
}

impl Member {
    /// The record of a member as its group opens.
    pub fn opened(opening: OpeningRecord) -> Member
        ensures { result ≡ opened_member opening }
    {
        Member {
            capacity: opening.capacity,
            class: opening.class,
            registers: ByZone {
                day: opened_flows(opening.standings.day),
                night: opened_flows(opening.standings.night),
            },
            account: Account {
                debt: 0,
                fraction: 0,
            },
        }
    }

    /// The register of a zone and a flow.
    pub fn register_at(&self, at: MemberRegister) -> Register
        ensures { result ≡ register_at at self.now }
    {
        self.registers.in_zone(at.zone).in_flow(at.flow)
    }

    // Sets the register of a zone and a flow.
    fn set_register(&mut self, at: MemberRegister, register: Register)
        ensures { self.new ≡ with_register at register self.old }
    {
        let mut flows = self.registers.in_zone(at.zone);
        flows.set(at.flow, register);
        self.registers.set(at.zone, flows);
    }

    // Enters what is read of a register.
    pub(crate) fn enter_reading(
        &mut self,
        month: Month,
        reading: MeterReading,
    ) -> Result<(), BookRefusal>
        ensures { Follows
            (on_register reading.register
            (with_reading month reading.day reading.value reading.start) self.old)
            self.old result self.new }
    {
        let register = self
            .register_at(reading.register)
            .with_reading(month, reading)?;
        self.set_register(reading.register, register);
        Ok(())
    }

    // Enters a correction of a register's tally.
    pub(crate) fn enter_correction(
        &mut self,
        at: MemberRegister,
        kwh: i32,
    ) -> Result<(), BookRefusal>
        ensures { Follows (on_register at (with_correction kwh) self.old) self.old result self.new }
    {
        let register = self.register_at(at).with_correction(kwh)?;
        self.set_register(at, register);
        Ok(())
    }

    // Enters a payment in drams.
    pub(crate) fn enter_payment(&mut self, drams: u32) -> Result<(), BookRefusal>
        ensures { Follows (on_account (with_payment drams) self.old) self.old result self.new }
    {
        self.account = with_payment(self.account, drams)?;
        Ok(())
    }
}

// What a place of a table holds that no member has.
impl Default for Member {
    ghost is_default = { λ member. member ≡ nobody };

    fn default() -> Member {
        let none = ByFlow {
            consumed: 0,
            delivered: 0,
        };
        let standings = ByZone {
            day: none,
            night: none,
        };
        Member::opened(OpeningRecord::new(0, Class::Other, standings))
    }
}
