//! Drafts of a month's bills.
ghost use Rattle.std.specs.Prelude.{◌≡◌};
ghost use Rattle.group.specs.Drafts.{is_of, stamp_of};

use calendar::Month;
use group::Group;
use std::marker::Model;

/// A draft of a month's bills. It can be neither copied nor dropped: only drawing makes one, and it ends in an issue or a withdrawal.
#[derive(Debug)]
pub struct Draft {
    // The number of the group that it was drawn of.
    number: u32,
    // The month that was open then.
    month: Month,
    // How many entries the month had.
    entries: u16,
}

impl Model for Draft {
    ghost use Rattle.group.specs.Drafts.{Stamp};

    ghost Value = { Stamp };

    ghost view = { λ draft.
        record { number = draft.number; month = draft.month; entries = draft.entries } };
}

impl Draft {
    // A draft of the group as it stands in a month.
    pub(crate) fn of(group: &Group, month: Month) -> Draft
        ensures { result ≡ stamp_of month group.now }
    {
        Draft {
            number: group.number,
            month,
            entries: group.entries,
        }
    }

    /// The month that it was drawn of.
    pub fn month(&self) -> Month
        ensures { result ≡ self.now.month }
    {
        self.month
    }

    // Whether its three numbers are those of a draft of the group in a month.
    pub(crate) fn is_of(&self, group: &Group, month: Month) -> bool
        ensures { result ≡ is_of month group.now self.now }
    {
        self.number == group.number && self.month == month && self.entries == group.entries
    }

    // Lets the draft go.
    pub(crate) fn end(self) {
        let Draft {
            number: _,
            month: _,
            entries: _,
        } = self;
    }
}
