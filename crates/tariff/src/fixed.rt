//! The tariff that never changes.
ghost use Rattle.tariff.specs.Charges.{capped_bounded, charged_price};

use crate::class::Class;
use crate::prices::PriceTable;
use crate::service::Service;
use crate::tariff::Tariff;
use calendar::Month;

/// A tariff with the same prices in every month.
#[derive(Clone, Copy, Debug)]
pub struct FixedTariff {
    /// The prices.
    pub prices: PriceTable,
}

impl Tariff for FixedTariff {
    ghost price = { λ tariff month. charged_price tariff.prices };

    ghost bounded = { λ _ _ _ _. capped_bounded _ };

    fn price_of(&self, _month: Month, service: Service, class: Class) -> u32 {
        self.prices.charge(service, class)
    }
}
