//! The group: a producer, who is the holder, and a household.

ghost use Rattle.std.specs.Prelude.{◌≡◌, [], ◌∷◌};
ghost use Rattle.two.specs.Two.{IsTwo, SettlesTwo, household, producer};

use calendar::Month;
use group::OpeningRecord;
use ledger::{ByFlow, ByZone};
use settlement::{Outcome, Setup, settle};
use sharing::Proportion;
use tariff::{Class, ClassPrices, FixedTariff, PriceTable};

// Months are counted from January 2000: this is January 2024.
const START: Month = 288;

// The registers of a member, which open at 0.
const STANDINGS: ByZone<ByFlow<u32>> = ByZone {
    day: ByFlow {
        consumed: 0,
        delivered: 0,
    },
    night: ByFlow {
        consumed: 0,
        delivered: 0,
    },
};

// The prices of every class, in hundredths of a dram for each kWh.
const PRICES: ClassPrices = ClassPrices {
    energy: ByZone {
        day: 4_500,
        night: 3_507,
    },
    distribution: 1_000,
    year_end: ByZone {
        day: 2_000,
        night: 1_500,
    },
};

const TARIFF: FixedTariff = FixedTariff {
    prices: PriceTable {
        household: PRICES,
        other: PRICES,
        vulnerable: PRICES,
    },
};

// What the members open with.
fn records() -> [OpeningRecord; 2]
    ensures { result ≡ producer ∷ household ∷ [] }
{
    [
        OpeningRecord::new(100, Class::Other, STANDINGS),
        OpeningRecord::new(0, Class::Household, STANDINGS),
    ]
}

// The group, with the rule and the prices that settle it.
fn two(records: &[OpeningRecord; 2]) -> Setup<'_, Proportion, FixedTariff>
    requires { records.now ≡ producer ∷ household ∷ [] }
    ensures { IsTwo result }
{
    Setup {
        number: 7,
        start: START,
        holder: 0,
        records,
        rule: Proportion,
        tariff: TARIFF,
    }
}

/// Runs a journal over a book of the group, and writes the output at the slice's start.
pub fn settle_two(journal: &[u8], out: &mut [u8]) -> Outcome
    ensures { SettlesTwo journal.now out.old result out.new }
{
    let records = records();
    let Ok(outcome) = settle(two(&records), journal, out) else {
        unreachable!()
    };
    outcome
}
