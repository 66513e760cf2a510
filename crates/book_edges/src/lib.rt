//! The edges of the book, as tests.
#![tactic(auto)]

#[cfg(test)]
mod closing;
#[cfg(test)]
mod drafts;
#[cfg(test)]
mod entries;
#[cfg(test)]
mod fixture;
#[cfg(test)]
mod months;
#[cfg(test)]
mod opening;
#[cfg(test)]
mod year_end;
