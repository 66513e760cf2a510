//! What the calls of a book leave as it was, and when they refuse, as laws.
ghost use Rattle.group.specs.Changes.{EntriesAlterOne, YearsAlterTheHolder};
ghost use Rattle.group.specs.Registers.{QuantitiesHaveSevenDigits};
ghost use Rattle.group.specs.Standing.{ClosingsStandByTests, DrawingsStandByTests, EntriesStandByTests, IssuesStandByTests, MembersStandByTests, OpeningsStandByTests};

/// An accepted entry alters the record that it is for alone: every other place has the record that it had, and the group its number, its holder, its carried balances and its phase.
pub fn entries_alter_one()
    ensures { EntriesAlterOne }
{}

/// A year closing alters the record of the holder alone.
pub fn years_alter_the_holder()
    ensures { YearsAlterTheHolder }
{}

/// Where a call answers a refusal, the named test of that refusal holds of its input; where it is accepted, no such test does. So it is of an entry, an opening, a drawing, an issue, the closing of a year and asking for a record; asking for the figures of a closing is refused just so.
pub fn refusals_stand()
    ensures entries { EntriesStandByTests }
    ensures openings { OpeningsStandByTests }
    ensures drawings { DrawingsStandByTests }
    ensures issues { IssuesStandByTests }
    ensures closings { ClosingsStandByTests }
    ensures members { MembersStandByTests }
{}

/// A value of at most seven digits tells a quantity of at most seven digits, whatever the register stood at.
pub fn quantities_have_seven_digits()
    ensures { QuantitiesHaveSevenDigits }
{}
