//! Days, months and dates of the Gregorian calendar from 2000 to 2099.
#![tactic(auto)]

mod date;
mod days;
mod table;
#[cfg(test)]
mod tests;

pub use date::{Date, FIRST_YEAR, LAST_YEAR, MONTHS, date_of, day_of, first_date_of, month_in};
pub use days::{Day, LAST_DAY, LAST_MONTH, Month, first_day_of, is_in, month_of};
