//! The tariff as an interface.
ghost use Rattle.std.specs.Prelude.{◌≡◌, ℕ, ◌≤◌};
ghost use Rattle.tariff.specs.declared.class.Class.{Class};
ghost use Rattle.tariff.specs.declared.service.Service.{Service};

use crate::class::Class;
use crate::service::Service;
use calendar::Month;

/// The highest price, in hundredths of a dram for each kWh.
pub const MOST_PRICE: u32 = 100_000;

/// A tariff: one price for each month, service and class, none over the highest.
pub trait Tariff {
    ghost price: { Self → ℕ → Service → Class → ℕ };

    /// The price in a month, in hundredths of a dram for each kWh.
    fn price_of(&self, month: Month, service: Service, class: Class) -> u32
        ensures { result ≡ price self.now month service class };

    // No price is over the highest.
    ghost bounded: { (tariff : Self) (month : ℕ) (service : Service) (class : Class)
        → price tariff month service class ≤ 100000 };
}
