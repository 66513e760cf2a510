//! What a column of a table holds.
ghost use Rattle.std.specs.Prelude.{◌≤◌, codes, decimal, unsigned_abs};
ghost use Rattle.calendar.specs.Gregorian.{last_day};
ghost use Rattle.fields.specs.Columns.{ReadsColumn, DateForm, MissingForm, NumberForm, SignedForm, Spelling, ReadsValue};
ghost use Rattle.fields.specs.Reads.{Reads};
ghost use Rattle.fields.specs.Texts.{day_text};
ghost use Rattle.std.specs.Fmt.{signed_decimal};

use crate::dates::day;
use crate::field::{Field, WrongField};
use crate::numbers::{number, signed_number};
use crate::token::{Token, token_of};
use calendar::Day;

/// The largest number of a table: nine digits.
pub const MOST_NUMBER: u32 = 999_999_999;

/// What a column holds: values, each with its text.
pub trait Column: Copy {
    // How the column is spelled: the form of its texts, the values that have a text, and the text of each.
    ghost spelling: { Spelling Self };

    /// The value that the bytes spell, or none where they have not the form of the column.
    fn of(part: &[u8]) -> Option<Self>
        ensures { ReadsValue spelling part.now result };

    /// The value that the field spells, or that the field is wrong where it has not the form of the column.
    final fn read(field: Field<'_>) -> Result<Self, WrongField>
        ensures { ReadsColumn spelling field.entry result }
    {
        Self::of(field.part).ok_or(field.wrong())
    }
}

/// A number; a column holds those of up to nine digits.
#[derive(Clone, Copy, Debug)]
pub struct Number(pub u32);

impl Column for Number {
    ghost spelling = { record {
      form = NumberForm;
      fine = λ n. n.0 ≤ 999999999;
      text = λ n. decimal n.0;
    } };

    fn of(part: &[u8]) -> Option<Number> {
        let Token::Number(digits) = token_of(part) else {
            return None;
        };
        Some(Number(short_number(digits)?))
    }
}

// The number of up to nine digits that the part spells.
fn short_number(part: &[u8]) -> Option<u32>
    ensures { Reads (λ n. n ≤ 999999999) decimal part.now result }
{
    let value = number(part, MOST_NUMBER as u64)?;
    Some(value as u32)
}

/// A signed number; a column holds those of up to nine digits.
#[derive(Clone, Copy, Debug)]
pub struct Signed(pub i32);

impl Column for Signed {
    ghost spelling = { record {
      form = SignedForm;
      fine = λ z. unsigned_abs z.0 ≤ 999999999;
      text = λ z. signed_decimal z.0;
    } };

    fn of(part: &[u8]) -> Option<Signed> {
        let Token::Number(digits) = token_of(part) else {
            return None;
        };
        Some(Signed(short_signed(digits)?))
    }
}

// The signed number of up to nine digits that the part spells. Not one function with the last, since each casts to a type of its own.
fn short_signed(part: &[u8]) -> Option<i32>
    ensures { Reads (λ z. unsigned_abs z ≤ 999999999) signed_decimal part.now result }
{
    let value = signed_number(part, MOST_NUMBER)?;
    Some(value as i32)
}

/// A day, told by its date.
#[derive(Clone, Copy, Debug)]
pub struct Dated(pub Day);

impl Column for Dated {
    ghost spelling = { record {
      form = DateForm;
      fine = λ date. date.0 ≤ last_day;
      text = λ date. day_text date.0;
    } };

    fn of(part: &[u8]) -> Option<Dated> {
        let Token::Date(date) = token_of(part) else {
            return None;
        };
        Some(Dated(day(date)?))
    }
}

/// Nothing, told by a hyphen.
#[derive(Clone, Copy, Debug)]
pub struct Missing;

impl Column for Missing {
    ghost spelling = { record {
      form = MissingForm;
      fine = λ _. Unit {0};
      text = λ _. codes "-";
    } };

    fn of(part: &[u8]) -> Option<Missing> {
        match token_of(part) {
            Token::Missing => Some(Missing),
            _ => None,
        }
    }
}
