//! A journal run over a book: from a text of entries, issues and year closings to a text of bills and year ends; and the lines of that text, written into a slice.
#![tactic(auto)]

mod bills;
mod fault;
mod fault_line;
mod law;
mod output;
mod refusal;
mod runs;
mod setup;
mod step;

pub use fault::{Layer, RunFault, RunRefusal};
pub use fault_line::{FAULT_ROOM, write_fault};
pub use law::{
    journals_go_on, lines_make_text, one_outcome, output_in_order, runs_go_on, runs_stop,
};
pub use output::{Figures, write_figures, write_names};
pub use refusal::OutputRefusal;
pub use runs::{MOST_JOURNAL, Outcome, run};
pub use setup::{Setup, settle};
