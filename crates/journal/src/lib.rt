//! The journal as text: what a line says, how it is read and written, and why it is refused.
#![tactic(auto)]

mod kind;
mod line;
mod names;
mod read;
mod refusal;
mod row;
mod words;
mod write;

pub use kind::Kind;
pub use line::Line;
pub use names::after_names;
pub use read::read_line;
pub use refusal::{LineFault, ReadRefusal, WriteRefusal};
pub use row::Row;
pub use write::{LINE_ROOM, write_line};
