//! What holds of every run, as laws.
ghost use Rattle.settlement.specs.Laws.{JournalsGoOn, LinesMakeText, HasOneOutcome, OutputIsInOrder, RunsGoOn, RunsStop};

/// The lines of a text, joined, are the text; a line feed stands only at the end of a line, and at the end of each but perhaps the last.
pub fn lines_make_text()
    ensures { LinesMakeText }
{}

/// The output of a run is the line of names and then the texts of the issues and year closings before its fault, in order; or it stops at line 1 and writes nothing.
pub fn output_in_order()
    ensures { OutputIsInOrder }
{}

/// Lines that are run to their end and more lines from there are one run of all of them.
pub fn runs_go_on()
    ensures { RunsGoOn }
{}

/// Lines behind that of a fault change nothing.
pub fn runs_stop()
    ensures { RunsStop }
{}

/// A journal that is run to its end, and then more lines, are one run of the longer journal, unless that is too long.
pub fn journals_go_on()
    ensures { JournalsGoOn }
{}

/// A run comes to one thing alone.
pub fn one_outcome()
    ensures { HasOneOutcome }
{}
