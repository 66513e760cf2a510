//! A group as plain data: its members' records, its phase, and what an entry changes in one record; and, in `specs/`, what each call of a book makes of it.
#![tactic(auto)]

mod group;
mod law;
mod member;
mod payment;
mod refusal;
mod register;

pub use group::{Group, MOST_CAPACITIES, MOST_CAPACITY, MOST_ENTRIES, Phase};
pub use law::{entries_alter_one, refusals_stand, years_alter_the_holder};
pub use member::{Member, OpeningRecord};
pub use payment::{LEAST_DEBT, MOST_PAYMENT};
pub use refusal::BookRefusal;
pub use register::{MOST_STANDING, MOST_TALLY, MeterReading, Register};
