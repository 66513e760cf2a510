//! The edges of the sharing rules and of the comparison, as tests.
#![tactic(auto)]

#[cfg(test)]
mod figures;
#[cfg(test)]
mod refusals;
#[cfg(test)]
mod texts;
