//! The edges of a journal's lines and of the output's, as tests.
#![tactic(auto)]

#[cfg(test)]
mod line_cases;
#[cfg(test)]
mod output_lines;
#[cfg(test)]
mod parts;
#[cfg(test)]
mod reading;
#[cfg(test)]
mod slices;
#[cfg(test)]
mod writing;
