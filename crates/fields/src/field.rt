//! A field of a line.
ghost use Rattle.std.specs.Prelude.{◌≡◌, Some};
ghost use Rattle.fields.specs.Places.{wrong_field_words};
ghost use Rattle.fields.specs.Tokens.{IsFieldOf, IsTokenOf};

use crate::place::Place;
use crate::token::{Token, token_of};
use std::error::Error;
use std::fmt;

/// A part of a text, with its line and its number in that line, both counted from 1.
#[derive(Clone, Copy, Debug)]
pub struct Field<'a> {
    /// The line.
    pub line: usize,
    /// The number of the field in its line.
    pub number: usize,
    /// The bytes of the field.
    pub part: &'a [u8],
}

/// Where a field stands that is spelled wrong.
#[derive(Clone, Copy, PartialEq, Eq, Debug)]
pub struct WrongField {
    /// The line, counted from 1.
    pub line: usize,
    /// The number of the field in its line, counted from 1.
    pub number: usize,
}

// By hand: a derive of the kit states no words, and these are proved.
impl fmt::Display for WrongField {
    ghost output = { λ wrong. Some (wrong_field_words wrong) };

    fn fmt<W: fmt::Write>(&self, f: &mut fmt::Formatter<W>) -> fmt::Result {
        let WrongField { line, number } = *self;
        let field = Some(number);
        let place = Place { line, field };
        write!(f, "{place}: this field is spelled wrong")
    }
}

impl Error for WrongField {}

impl<'a> Field<'a> {
    /// The field with this line and this number in it.
    pub fn new(line: usize, number: usize, part: &'a [u8]) -> Field<'a>
        ensures { IsFieldOf line number part.entry result }
    {
        Field { line, number, part }
    }

    /// The token of the field.
    pub fn token(self) -> Token<'a>
        ensures { IsTokenOf self.entry.part.now result }
    {
        token_of(self.part)
    }

    /// That it is this field that is wrong.
    pub fn wrong(self) -> WrongField
        ensures line { result.line ≡ self.entry.line }
        ensures number { result.number ≡ self.entry.number }
    {
        WrongField {
            line: self.line,
            number: self.number,
        }
    }
}
