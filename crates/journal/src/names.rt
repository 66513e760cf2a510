//! The line of names at a journal's start.
ghost use Rattle.std.specs.Prelude.{◌≡◌};
ghost use Rattle.journal.specs.Names.{IsAfterNames, journal_names};

const NAMES: &[u8] = b"kind,member,zone,flow,value,second,date\n";

/// What follows the line of names at a journal's start, or none where the journal starts otherwise.
pub fn after_names(text: &[u8]) -> Option<&[u8]>
    ensures { IsAfterNames text.now result }
{
    text.strip_prefix(names())
}

// The line of names of a journal.
fn names() -> &'static [u8]
    ensures { result.now ≡ journal_names }
{
    NAMES
}
