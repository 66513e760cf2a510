//! A group of two members, and the program that settles it.
#![tactic(auto)]

mod program;
mod two;

pub use program::{Lengths, OUTPUT, settle_input, write_printed};
pub use two::settle_two;
