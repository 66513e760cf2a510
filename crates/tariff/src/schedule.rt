//! The tariff that changes from month to month.
ghost use Rattle.std.specs.Prelude.{◌≡◌};
ghost use Rattle.tariff.specs.Charges.{capped_price, capped_bounded};
ghost use Rattle.tariff.specs.Schedules.{in_force, scheduled_price};

use crate::class::Class;
use crate::row::ScheduleRow;
use crate::service::Service;
use crate::tariff::Tariff;
use calendar::Month;

/// A tariff by rows: in each month the last row that has begun holds, and before any the price is 0.
#[derive(Clone, Copy, Debug)]
pub struct Schedule<'a> {
    /// The rows, in any order of their months.
    pub rows: &'a [ScheduleRow],
}

impl<'a> Schedule<'a> {
    // The last row that has begun, if any has.
    fn row_in_force(&self, month: Month) -> Option<ScheduleRow>
        ensures { result ≡ in_force month self.now.rows.now }
    {
        self.rows
            .iter()
            .rev()
            .find(|row| row.has_begun(month))
            .copied()
    }
}

impl<'a> Tariff for Schedule<'a> {
    ghost price = { λ schedule month service class.
        capped_price (scheduled_price (in_force month schedule.rows.now) service class) };

    ghost bounded = { λ _ _ _ _. capped_bounded _ };

    fn price_of(&self, month: Month, service: Service, class: Class) -> u32 {
        self.row_in_force(month)
            .map_or(0, |row| row.prices.charge(service, class))
    }
}
