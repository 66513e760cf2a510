//! Lines of cells, written into a slice: words, numbers, dates and months parted by commas.
#![tactic(auto)]

mod rows;
mod texts;

pub use rows::{Cell, write_cell, write_row};
