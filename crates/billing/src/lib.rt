//! What a month comes to: from the members' nets to covered and billed kWh and a carried balance.
#![tactic(auto)]

mod account;
mod cost;
mod net;
mod supply;
#[cfg(test)]
mod tests;
mod zone;

pub use account::{Account, Posting, post};
pub use cost::{cost_of, credit_of};
pub use net::{need_of, net_of, surplus_of};
pub use supply::Supply;
pub use zone::settle_zone;
