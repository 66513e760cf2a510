//! What holds of the text of a question, as a law.
ghost use Rattle.comparison.specs.Questions.{HasOneFault, AsksOneQuestion};

/// A text asks at most one question, and has at most one first fault.
pub fn one_reading()
    ensures question { AsksOneQuestion }
    ensures fault { HasOneFault }
{}
