//! Why a call on the book is turned away.
ghost use Rattle.std.specs.Prelude.{◌≡◌, Some};
ghost use Rattle.group.specs.Refusals.{meaning, book_refusal_number};

use std::error::Error;
use std::fmt;

/// The refusals of the book's calls.
#[derive(Clone, Copy, PartialEq, Eq, Debug)]
pub enum BookRefusal {
    /// A group stands in this book already.
    Opened,
    /// The list of members is empty, or longer than a group may be.
    Count,
    /// The group would begin after December 2099.
    Start,
    /// One member has more than 150 kW, or all together have more than 1,050 kW.
    Capacity,
    /// Nobody stands at the place named for the holder, or somebody without a kW.
    Holder,
    /// A meter begins with more than seven digits.
    Register,
    /// No month is open.
    NoMonth,
    /// No year waits to be closed.
    NoYearEnd,
    /// Nobody has this place.
    Place,
    /// The month is full: it took its thousandth entry.
    Full,
    /// That day belongs to another month than the one that is open.
    Day,
    /// The figure is larger than its kind of entry takes, or a payment of nothing.
    Value,
    /// The meter would have run backwards.
    Below,
    /// The month's kWh on this register would pass 1,000,000, up or down.
    Tally,
    /// The group would owe the member more than 1,000,000,000 drams.
    Debt,
    /// The slice ends before the bill of the last member.
    Bills,
    /// The draft does not agree with the book as it stands.
    Draft,
}

impl BookRefusal {
    /// The refusal's number.
    pub fn number(self) -> u8
        ensures { result ≡ book_refusal_number self }
    {
        match self {
            BookRefusal::Opened => 1,
            BookRefusal::Count => 2,
            BookRefusal::Start => 3,
            BookRefusal::Capacity => 4,
            BookRefusal::Holder => 5,
            BookRefusal::Register => 6,
            BookRefusal::NoMonth => 11,
            BookRefusal::NoYearEnd => 12,
            BookRefusal::Place => 13,
            BookRefusal::Full => 14,
            BookRefusal::Day => 15,
            BookRefusal::Value => 16,
            BookRefusal::Below => 17,
            BookRefusal::Tally => 18,
            BookRefusal::Debt => 19,
            BookRefusal::Bills => 20,
            BookRefusal::Draft => 21,
        }
    }

    // What the refusal stands for, in words.
    fn words(self) -> &'static str
        ensures { result.now ≡ (meaning self).words }
    {
        match self {
            BookRefusal::Opened => "the book has been opened already",
            BookRefusal::Count => "a group has 1 to 32 members",
            BookRefusal::Start => "no book opens after December 2099",
            BookRefusal::Capacity => "a member has over 150 kW, or all together have over 1050 kW",
            BookRefusal::Holder => "nobody with a capacity is at the place of the holder",
            BookRefusal::Register => "a register opens with more than seven digits",
            BookRefusal::NoMonth => "no month is open",
            BookRefusal::NoYearEnd => "no year waits for its closing",
            BookRefusal::Place => "nobody has this place",
            BookRefusal::Full => "the month has its 1000 entries already",
            BookRefusal::Day => "the day is not one of the open month",
            BookRefusal::Value => "the value, the correction or the payment is out of its range",
            BookRefusal::Below => "the register stands higher already",
            BookRefusal::Tally => {
                "the register would have over 1000000 kWh in the month, either way"
            }
            BookRefusal::Debt =>
                "the payment would leave the member over 1000000000 drams in credit",
            BookRefusal::Bills => "there are more members than places for bills",
            BookRefusal::Draft => "the draft is out of date",
        }
    }
}

// By hand, as the words are proved.
impl fmt::Display for BookRefusal {
    ghost output = { λ refusal. Some (meaning refusal).words };

    fn fmt<W: fmt::Write>(&self, f: &mut fmt::Formatter<W>) -> fmt::Result {
        write!(f, "{}", self.words())
    }
}

impl Error for BookRefusal {}
