//! The worked cases of the project, proved together.
#![tactic(auto)]

ghost use Rattle.worked_cases.specs.Cases.{ChargesByClass, CreditsAsWorked, DatesAsWorked, ReadsAgain, ReadsLeapDayOnly, SharesAsWorked, TalliesAsWorked};
ghost use Rattle.worked_cases.specs.Numbers.{NumbersRefusals, AsksForRoom};
ghost use Rattle.worked_cases.specs.Orders.{AmountsHaveEdges, ChangeRefusesInOrder, ClosingRefusesInOrder, CorrectionRefusesInOrder, DrawingRefusesInOrder, IssueRefusesInOrder, LengthHasAnEdge, LineRefusesInOrder, OpeningHasEdges, OpeningRefusesInOrder, PaymentRefusesInOrder, PhasesFollowInOrder, ReadingRefusesInOrder, SharingRefusesInOrder, ValuesHaveEdges};
ghost use Rattle.worked_cases.specs.Runs.{TellsFault, SettlesMonth, SettlesScarceMonth, SettlesYear};

use settlement::one_outcome;

/// Holds the proof of every worked case; there is nothing to run.
pub fn cases_stand()
    ensures credited { CreditsAsWorked }
    ensures dated { DatesAsWorked }
    ensures read { ReadsLeapDayOnly }
    ensures read_again { ReadsAgain }
    ensures shared { SharesAsWorked }
    ensures tallied { TalliesAsWorked }
    ensures charged { ChargesByClass }
    ensures month_settled { SettlesMonth }
    ensures scarce_settled { SettlesScarceMonth }
    ensures year_settled { SettlesYear }
    ensures fault_told { TellsFault }
    ensures numbered { NumbersRefusals }
    ensures roomed { AsksForRoom }
    ensures sharing_in_order { SharingRefusesInOrder }
    ensures opening_in_order { OpeningRefusesInOrder }
    ensures reading_in_order { ReadingRefusesInOrder }
    ensures change_in_order { ChangeRefusesInOrder }
    ensures correction_in_order { CorrectionRefusesInOrder }
    ensures payment_in_order { PaymentRefusesInOrder }
    ensures drawing_in_order { DrawingRefusesInOrder }
    ensures issue_in_order { IssueRefusesInOrder }
    ensures closing_in_order { ClosingRefusesInOrder }
    ensures lines_in_order { LineRefusesInOrder }
    ensures opening_at_edges { OpeningHasEdges }
    ensures amounts_at_edges { AmountsHaveEdges }
    ensures values_at_edges { ValuesHaveEdges }
    ensures phases_in_order { PhasesFollowInOrder }
    ensures length_at_edge { LengthHasAnEdge }
{
    lines_stand();
    registers_stand();
    runs_stand();
    numbers_stand();
    orders_stand();
}

// Holds the proof of the cases on lines.
fn lines_stand()
    ensures { ReadsLeapDayOnly }
{}

// Holds the proof of the cases on registers.
fn registers_stand()
    ensures read_again { ReadsAgain }
    ensures tallied { TalliesAsWorked }
{}

// Holds the proof of the cases on whole runs.
fn runs_stand()
    ensures month_settled { SettlesMonth }
    ensures scarce_settled { SettlesScarceMonth }
    ensures year_settled { SettlesYear }
    ensures fault_told { TellsFault }
    ensures lines_in_order { LineRefusesInOrder }
    ensures length_at_edge { LengthHasAnEdge }
{
    one_outcome();
}

// Holds the proof of the tables of numbers and of rooms.
fn numbers_stand()
    ensures numbered { NumbersRefusals }
    ensures roomed { AsksForRoom }
{}

// Holds the proof of the cases on the order of the tests, and on their edges.
fn orders_stand()
    ensures reading_in_order { ReadingRefusesInOrder }
    ensures change_in_order { ChangeRefusesInOrder }
    ensures opening_at_edges { OpeningHasEdges }
    ensures amounts_at_edges { AmountsHaveEdges }
    ensures values_at_edges { ValuesHaveEdges }
    ensures phases_in_order { PhasesFollowInOrder }
{}
