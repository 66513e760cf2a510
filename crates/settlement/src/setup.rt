//! A group with what it is settled by, from which a book is opened.
ghost use Rattle.std.specs.Prelude.{◌≡◌};
ghost use Rattle.settlement.specs.Setups.{OpensBook, SettlesJournal};

use crate::runs::{Outcome, run};
use book::Book;
use calendar::Month;
use group::{BookRefusal, OpeningRecord};
use sharing::SharingRule;
use tariff::Tariff;

/// A group as its book opens, with the rule and the tariff that settle it.
#[derive(Drop, Debug)]
pub struct Setup<'a, R, T> {
    /// The number of the group.
    pub number: u32,
    /// The first month.
    pub start: Month,
    /// The place of the holder.
    pub holder: usize,
    /// What each member opens with, in order of place.
    pub records: &'a [OpeningRecord],
    /// The sharing rule.
    pub rule: R,
    /// The tariff.
    pub tariff: T,
}

impl<R: SharingRule + Drop, T: Tariff + Drop> Setup<'_, R, T> {
    /// A book of the group, with its first month open.
    pub fn open(self) -> Result<Book<R, T>, BookRefusal>
        ensures opened { OpensBook R.SharingRule.sharing T.Tariff.price self.entry result }
    {
        let mut book = Book::new(self.rule, self.tariff);
        book.open(self.number, self.start, self.holder, self.records)?;
        Ok(book)
    }
}

/// Opens a book of the group, and runs a journal over it.
pub fn settle<R: SharingRule + Drop, T: Tariff + Drop>(
    setup: Setup<'_, R, T>,
    journal: &[u8],
    out: &mut [u8],
) -> Result<Outcome, BookRefusal>
    ensures { SettlesJournal R.SharingRule.sharing T.Tariff.price
        setup.entry journal.now out.old result out.new }
{
    let mut book = setup.open()?;
    Ok(run(&mut book, journal, out))
}
