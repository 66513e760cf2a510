//! Compares the sharing rules on one month's pool: from a text to a table.
#![tactic(auto)]

mod columns;
mod law;
mod problem;
mod question;
mod reports;
mod table;

pub use columns::{Column, Comparison, compare};
pub use law::one_reading;
pub use problem::Problem;
pub use question::{Asked, Fault, MOST_NUMBER, Question, Wrong, read};
pub use reports::report;
pub use table::table_text;
