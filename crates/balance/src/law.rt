//! The balance as a law over whole lists of calls, and what else holds of every history.
ghost use Rattle.balance.specs.CurrentDrafts.{DraftsStayByCall, DraftsStayByHistory};
ghost use Rattle.balance.specs.Debts.{IssuesTellDebts, YearEndsTellDebts};
ghost use Rattle.balance.specs.Histories.{LeadsToOneGroup};
ghost use Rattle.balance.specs.Issues.{IssuesShare, IssuesWriteDrawings, NetsSplit};
ghost use Rattle.balance.specs.Phases.{MonthsFollow, YearsFollow};
ghost use Rattle.balance.specs.Runs.{EveryRunBalances};
ghost use Rattle.balance.specs.Sample.{SampleTells};
ghost use Rattle.balance.specs.Told.{EntriesAreCounted, CapacitiesAndClassesStay};

/// Any list of calls on a blank book, by any rule that keeps the law of sharing and any tariff, is balanced at the start and after each call.
pub fn every_run_balances()
    ensures { EveryRunBalances }
{}

/// One history with its figures balances, and with one kWh more on one bill it does not.
pub fn sample_tells()
    ensures { SampleTells }
{}

/// A history leads to one group alone: any two groups that it leads to are equal.
pub fn history_leads_to_one_group()
    ensures { LeadsToOneGroup }
{}

/// After an issue the bill at each place has the debt of the member there, and as drams that less the debt before; so it is with what the closing of a year answers and the holder of a group as every book has it.
pub fn debts_are_told()
    ensures by_bills { IssuesTellDebts }
    ensures by_year_ends { YearEndsTellDebts }
{}

/// A draft that is drawn now is current, and stays so until something is posted: after an accepted entry or issue it is not, in no other phase than an open month is one, and a refused call leaves it as it was.
pub fn drafts_are_current_while_nothing_is_posted()
    ensures by_call { DraftsStayByCall }
    ensures by_history { DraftsStayByHistory }
{}

/// An accepted issue covers in each zone, in order of place, just what the rule shares of the pool among the members' needs; billed and covered are each member's need, and carried on and covered the pool. A net is its need less its surplus, of which one is nothing.
pub fn issues_share_by_the_rule()
    ensures by_zones { IssuesShare }
    ensures by_nets { NetsSplit }
{}

/// An accepted issue writes the bills of a drawing that is made now, which has the three numbers of the draft that is issued.
pub fn issues_write_what_is_drawn()
    ensures { IssuesWriteDrawings }
{}

/// After an accepted issue the year end of its month follows exactly where that is a December, else the next month opens; after the closing of a year the next January opens, but after December 2099 the book is over.
pub fn phases_follow_the_calendar()
    ensures by_months { MonthsFollow }
    ensures by_years { YearsFollow }
{}

/// In every history that leads to a group, the group counts just the entries that were posted since the last issue.
pub fn entries_are_counted()
    ensures { EntriesAreCounted }
{}

/// In every history that leads to a group, the group has a member for each record that it opened with, in order of place, of the same capacity and class.
pub fn capacities_and_classes_stay()
    ensures { CapacitiesAndClassesStay }
{}
