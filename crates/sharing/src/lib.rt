//! Sharing rules: how a pool of kWh is shared among the needs of up to 32 places.
#![tactic(auto)]

mod law;
mod order;
mod parts;
mod parts_refusal;
mod proportion;
mod refusal;
mod rule;

pub use law::{
    parts_add_to_rest, parts_go_ahead, rounds_running_sums, serves_in_order, shares_within_one,
};
pub use order::LineOrder;
pub use parts::{Parts, WHOLE};
pub use parts_refusal::PartsRefusal;
pub use proportion::Proportion;
pub use refusal::ShareRefusal;
pub use rule::{MOST_NEED, MOST_POOL, PLACES, SharingRule, admit, left_of};
