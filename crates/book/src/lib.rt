//! The book that settles a group, and its drafts.
#![tactic(auto)]

mod book;
mod call;
mod draft;
mod month;
mod posting;
mod year;

pub use book::Book;
pub use draft::Draft;
