//! The services that a tariff prices.

use ledger::Zone;

/// A service with a price for each kWh.
#[derive(Clone, Copy, PartialEq, Eq, Debug)]
pub enum Service {
    /// Energy in a zone.
    Energy(Zone),
    /// Distribution.
    Distribution,
    /// The year-end price in a zone.
    YearEnd(Zone),
}
