//! The plain data of the book, declared once for the crates that share it.
#![tactic(auto)]

mod bill;
mod entry;
mod zone;

pub use bill::{Bill, YearEnd};
pub use entry::{Entry, MemberRegister};
pub use zone::{ByFlow, ByZone, Flow, Zone};
