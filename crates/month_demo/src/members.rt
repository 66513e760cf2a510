//! The members of the group, and what energy costs them.

use group::OpeningRecord;
use ledger::{ByFlow, ByZone};
use tariff::{Class, ClassPrices, FixedTariff, PriceTable};

/// How many members the group has.
pub const MEMBERS: usize = 3;

/// The mill, which delivers more than it consumes.
pub const MILL: usize = 0;

/// The family, which only consumes.
pub const FAMILY: usize = 1;

/// The pensioner, who has the prices of a vulnerable customer.
pub const PENSIONER: usize = 2;

/// The member that the year end pays for what is left over: one with capacity.
pub const HOLDER: usize = MILL;

/// The members' names, in order of place.
pub const NAMES: [&str; MEMBERS] = ["mill", "family", "pensioner"];

// What the group opens with: each member's capacity in kW, its class, and its registers in kWh.
pub(crate) fn records() -> [OpeningRecord; MEMBERS] {
    [
        OpeningRecord::new(100, Class::Other, registers((1_000, 500), (700, 400))),
        OpeningRecord::new(0, Class::Household, registers((2_000, 0), (1_500, 0))),
        OpeningRecord::new(0, Class::Vulnerable, registers((300, 0), (200, 0))),
    ]
}

// Four registers: what was consumed and what was delivered, by day and by night.
fn registers(day: (u32, u32), night: (u32, u32)) -> ByZone<ByFlow<u32>> {
    ByZone {
        day: flows(day),
        night: flows(night),
    }
}

fn flows((consumed, delivered): (u32, u32)) -> ByFlow<u32> {
    ByFlow {
        consumed,
        delivered,
    }
}

// What the holder is paid at the year end, for each kWh left over.
const YEAR_END: ByZone<u32> = ByZone {
    day: 2_000,
    night: 1_500,
};

const HOUSEHOLD: ClassPrices = ClassPrices {
    energy: ByZone {
        day: 4_848,
        night: 3_848,
    },
    distribution: 1_000,
    year_end: YEAR_END,
};

const OTHER: ClassPrices = ClassPrices {
    energy: ByZone {
        day: 5_350,
        night: 4_350,
    },
    distribution: 1_200,
    year_end: YEAR_END,
};

const VULNERABLE: ClassPrices = ClassPrices {
    energy: ByZone {
        day: 2_999,
        night: 1_999,
    },
    distribution: 800,
    year_end: YEAR_END,
};

/// The same prices in every month, in hundredths of a dram for each kWh.
pub const TARIFF: FixedTariff = FixedTariff {
    prices: PriceTable {
        household: HOUSEHOLD,
        other: OTHER,
        vulnerable: VULNERABLE,
    },
};
