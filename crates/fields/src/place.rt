//! A place in a text, as it is told.
ghost use Rattle.std.specs.Prelude.{Some};
ghost use Rattle.fields.specs.Places.{place_text};

use std::fmt;

/// A line of a text, or a field of it.
#[derive(Clone, Copy, PartialEq, Eq, Debug)]
pub struct Place {
    /// The line, counted from 1.
    pub line: usize,
    /// The field of the line, counted from 1, where one is meant.
    pub field: Option<usize>,
}

// By hand: a derive of the kit states no words, and these are proved.
impl fmt::Display for Place {
    ghost output = { λ place. Some (place_text place.line place.field) };

    fn fmt<W: fmt::Write>(&self, f: &mut fmt::Formatter<W>) -> fmt::Result {
        let line = self.line;
        match self.field {
            None => write!(f, "line {line}"),
            Some(field) => write!(f, "line {line}, field {field}"),
        }
    }
}
