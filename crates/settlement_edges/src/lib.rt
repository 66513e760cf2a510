//! The edges of a run of a journal over a book, as tests.
#![tactic(auto)]

#[cfg(test)]
mod fixture;
#[cfg(test)]
mod full_group;
#[cfg(test)]
mod line_one;
#[cfg(test)]
mod refusals;
#[cfg(test)]
mod room;
#[cfg(test)]
mod runs;
#[cfg(test)]
mod setups;
