//! The text of a question: a pool with its needs, and the parts if there are any.
ghost use Rattle.std.specs.Prelude.{◌≡◌, ◌+◌, ◌≤◌, length, Some};
ghost use Rattle.sharing.specs.Limits.{most_places};
ghost use Rattle.comparison.specs.Questions.{ReadsParts, ReadsQuestion, at};
ghost use Rattle.comparison.specs.Rows.{ReadsField, ReadsNumbers};
ghost use Rattle.comparison.specs.Words.{fault_words, wrong_words};
ghost use Rattle.comparison.specs.declared.problem.Problem.TheVariants.{At};

use crate::problem::Problem;
use fields::{COMMA, Place, line, number};
use sharing::PLACES;
use std::alloc::Global;
use std::error::Error;
use std::fmt;

/// The largest number that a question may have: ten digits.
pub const MOST_NUMBER: u64 = 9_999_999_999;

/// What is wrong at a place of the text.
#[derive(Clone, Copy, PartialEq, Eq, Debug)]
pub enum Wrong {
    /// The line does not end in a line feed.
    LineFeed,
    /// The field is no number of up to ten digits without a needless zero in front.
    Number,
    /// The line ends before its first need.
    Missing,
    /// The line goes on to a field that it may not have.
    Surplus,
    /// The text goes on to a line that it may not have.
    Line,
}

impl Wrong {
    // What is wrong, in words.
    fn words(self) -> &'static str
        ensures { result.now ≡ wrong_words self }
    {
        match self {
            Wrong::LineFeed => "the line does not end in a line feed",
            Wrong::Number =>
                "this is no number of up to ten digits without a needless zero in front",
            Wrong::Missing => "the line ends before its first need",
            Wrong::Surplus => "the line has more fields than it may",
            Wrong::Line => "the text goes on after its second line",
        }
    }
}

/// The first place at which a text is no question.
#[derive(Clone, Copy, PartialEq, Eq, Debug)]
pub struct Fault {
    /// The line, counted from 1.
    pub line: usize,
    /// The field of the line, counted from 1, or none where the whole line is meant.
    pub field: Option<usize>,
    /// What is wrong there.
    pub wrong: Wrong,
}

// By hand: a derive of the kit states no words (`thiserror` states no `output`), and these are proved.
impl fmt::Display for Fault {
    ghost output = { λ fault. Some (fault_words fault) };

    fn fmt<W: fmt::Write>(&self, f: &mut fmt::Formatter<W>) -> fmt::Result {
        let Fault { line, field, wrong } = *self;
        let place = Place { line, field };
        let words = wrong.words();
        write!(f, "{place}: {words}")
    }
}

impl Error for Fault {}

/// What is asked, with the needs and the parts lent: a pool to be shared, and the parts that go ahead of the needs.
#[derive(Clone, Copy, Debug)]
pub struct Asked<'a> {
    /// The pool in kWh.
    pub pool: u64,
    /// The need of each place in kWh.
    pub needs: &'a [u64],
    /// The part of each of the first places, in ten-thousandths of the pool.
    pub parts: &'a [u64],
}

/// A pool to be shared, with the parts that some places are to get ahead of the others.
#[derive(Debug, Drop)]
pub struct Question {
    /// The pool in kWh.
    pub pool: u64,
    /// The need of each place in kWh.
    pub needs: Vec<u64>,
    /// The part of each of the first places, in ten-thousandths of the pool.
    pub parts: Vec<u64>,
}

impl Question {
    /// What the question asks.
    pub fn asked(&self) -> Asked<'_>
        ensures pool { result.pool ≡ self.now.pool }
        ensures needs { result.needs.now ≡ self.now.needs.items }
        ensures parts { result.parts.now ≡ self.now.parts.items }
    {
        Asked {
            pool: self.pool,
            needs: &self.needs,
            parts: &self.parts,
        }
    }
}

// The problem of a fault.
fn wrong_at(line: usize, field: Option<usize>, wrong: Wrong) -> Problem
    ensures { result ≡ At (at line field wrong) }
{
    Problem::At(Fault { line, field, wrong })
}

// Adds the number of one more field of a line that may have `most` fields.
fn read_field(found: &mut Vec<u64>, line: usize, field: &[u8], most: usize) -> Result<(), Problem>
    requires few { most ≤ most_places + 1 }
    requires room { length found.old.items ≤ most }
    ensures { ReadsField line most found.old.items field.now result found.new.items }
{
    let before = found.len();
    if before == most {
        return Err(wrong_at(line, Some(before + 1), Wrong::Surplus));
    }
    let Some(n) = number(field, MOST_NUMBER) else {
        return Err(wrong_at(line, Some(before + 1), Wrong::Number));
    };
    found.push(n)?;
    Ok(())
}

// The numbers of a line that may have `most` fields.
fn read_row(alloc: Global, line: usize, text: &[u8], most: usize) -> Result<Vec<u64>, Problem>
    requires few { most ≤ most_places + 1 }
    ensures { ReadsNumbers line most text.now result }
{
    let mut found = Vec::new(alloc);
    for field in text.split(|byte| *byte == COMMA) {
        read_field(&mut found, line, field, most)?;
    }
    Ok(found)
}

// The parts of a second line, or none where the text has ended.
fn read_parts(alloc: Global, text: &[u8]) -> Result<Vec<u64>, Problem>
    ensures { ReadsParts text.now result }
{
    if text.is_empty() {
        return Ok(Vec::new(alloc));
    }
    let Some((second, rest)) = line(text) else {
        return Err(wrong_at(2, None, Wrong::LineFeed));
    };
    let parts = read_row(alloc, 2, second, PLACES)?;
    if !rest.is_empty() {
        return Err(wrong_at(3, None, Wrong::Line));
    }
    Ok(parts)
}

/// Reads a question, or tells the first place at which the text is none.
pub fn read(alloc: Global, text: &[u8]) -> Result<Question, Problem>
    ensures { ReadsQuestion text.now result }
{
    let Some((first, rest)) = line(text) else {
        return Err(wrong_at(1, None, Wrong::LineFeed));
    };
    let mut needs = read_row(alloc, 1, first, PLACES + 1)?;
    let pool = needs.remove(0);
    if needs.is_empty() {
        return Err(wrong_at(1, Some(2), Wrong::Missing));
    }
    let parts = read_parts(alloc, rest)?;
    Ok(Question { pool, needs, parts })
}
