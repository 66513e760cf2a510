//! A row of a schedule.
ghost use Rattle.std.specs.Prelude.{◌≡◌};

use crate::prices::PriceTable;
use calendar::Month;

/// Prices and the month from which they hold.
#[derive(Clone, Copy, Debug)]
pub struct ScheduleRow {
    /// The first month of the prices.
    pub first_month: Month,
    /// The prices.
    pub prices: PriceTable,
}

impl ScheduleRow {
    ghost use Rattle.tariff.specs.Schedules.{has_begun};

    // Whether the first month is the month asked or before it.
    pub(crate) fn has_begun(&self, month: Month) -> bool
        ensures { result ≡ has_begun month self.now }
    {
        self.first_month <= month
    }
}
