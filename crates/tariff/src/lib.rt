//! Tariffs: the price of a kWh for each month, service and class.
#![tactic(auto)]

mod class;
mod fixed;
mod law;
mod prices;
mod row;
mod schedule;
mod service;
mod tariff;
#[cfg(test)]
mod tests;

pub use class::Class;
pub use fixed::FixedTariff;
pub use law::in_force_by_rows;
pub use prices::{ClassPrices, PriceTable};
pub use row::ScheduleRow;
pub use schedule::Schedule;
pub use service::Service;
pub use tariff::{MOST_PRICE, Tariff};
