//! The book, by its calls.
ghost use Rattle.std.specs.Prelude.{◌≡◌, ◌≤◌, IfOk, length};
ghost use Rattle.balance.specs.Balances.{BeginsBalanced, GoesOnBalanced, drawing_answer, issue_answer, bills_in};
ghost use Rattle.book.specs.Calls.{IsInPhaseFor, month_for};
ghost use Rattle.balance.specs.Histories.{Opening, Entering, Drawing, Checking, Issuing, Withdrawing, Closing};
ghost use Rattle.ledger.specs.Zones.{in_zone};
ghost use Rattle.group.specs.Changes.{AltersOne, EntersOne};
ghost use Rattle.group.specs.Groups.{blank, member_at};
ghost use Rattle.group.specs.Results.{Answers, Follows};
ghost use Rattle.group.specs.declared.group.Phase.TheVariants.{Blank};
ghost use Rattle.group.specs.Books.{KeepsTerms, after_opening};
ghost use Rattle.group.specs.Drafts.{after_drawing, after_issue, is_current};
ghost use Rattle.group.specs.Entries.{after_entry};
ghost use Rattle.group.specs.Sound.{IsSoundPhase, most_carried, most_entries};
ghost use Rattle.group.specs.Years.{closing_result, preview_result};

use crate::call::Call;
use crate::draft::Draft;
use crate::month::{issue_bills, write_bills};
use crate::year::{post_year, year_end};
use calendar::Month;
use group::{BookRefusal, Group, Member, MeterReading, OpeningRecord, Phase};
use ledger::{Bill, Entry, YearEnd, Zone};
use sharing::SharingRule;
use std::marker::Model;
use tariff::Tariff;

/// The settlement book of a group, settled by a sharing rule and a tariff.
#[derive(Drop, Debug)]
pub struct Book<R, T> {
    rule: R,
    tariff: T,
    group: Group,
}

impl<R, T> Model for Book<R, T> {
    ghost use Rattle.group.specs.Books.{BookState};
    ghost use Rattle.group.specs.Sound.{IsSound};

    ghost Value = { BookState R T };

    ghost view = { λ book. record { rule = book.rule; tariff = book.tariff; group = book.group } };

    ghost invariant = { λ book. IsSound book.group };
}

impl<R: SharingRule, T: Tariff> Book<R, T> {
    /// A blank book.
    pub fn new(rule: R, tariff: T) -> Book<R, T>
        ensures book { result ≡ record { rule = rule; tariff = tariff; group = blank } }
        ensures balance { BeginsBalanced R.SharingRule.sharing T.Tariff.price result }
    {
        Book {
            rule,
            tariff,
            group: Group::blank(),
        }
    }

    /// The balance that a zone carries, in kWh, which is none before the opening.
    pub fn carried(&self, zone: Zone) -> u64
        ensures kwh { result ≡ in_zone self.now.group.carried zone }
        ensures most { result ≤ most_carried self.now.group.phase }
    {
        self.group.carried.in_zone(zone)
    }

    /// The record of the member at a place.
    pub fn member(&self, place: usize) -> Result<Member, BookRefusal>
        ensures { result ≡ member_at place self.now.group }
    {
        self.group.member_at(place)
    }

    /// How many members the group has, which is none before the opening.
    pub fn members(&self) -> usize
        ensures count { result ≡ length self.now.group.members.items }
        ensures unopened { self.now.group.phase ≡ Blank → result ≡ 0 }
    {
        self.group.members.len()
    }

    /// The number of the group, which is 0 before the opening.
    pub fn number(&self) -> u32
        ensures number { result ≡ self.now.group.number }
        ensures unopened { self.now.group.phase ≡ Blank → result ≡ 0 }
    {
        self.group.number
    }

    /// The place of the holder, which is 0 before the opening.
    pub fn holder(&self) -> usize
        ensures place { result ≡ self.now.group.holder }
        ensures unopened { self.now.group.phase ≡ Blank → result ≡ 0 }
    {
        self.group.holder
    }

    /// The phase, with its month.
    pub fn phase(&self) -> Phase
        ensures phase { result ≡ self.now.group.phase }
        ensures values { IsSoundPhase result self.now.group.holder
            (length self.now.group.members.items) }
    {
        self.group.phase
    }

    /// How many entries the open month has, which is at most 1,000, and none where no month is open.
    pub fn entries(&self) -> u16
        ensures count { result ≡ self.now.group.entries }
        ensures most { result ≤ most_entries self.now.group.phase }
    {
        self.group.entries
    }

    /// The figures that the closing of the year would post, which alters nothing.
    pub fn year_end(&self) -> Result<YearEnd, BookRefusal>
        ensures { result ≡ preview_result (T.Tariff.price self.now.tariff) self.now.group }
    {
        let december = self.month_for(Call::Close)?;
        let (figures, _) = year_end(&self.tariff, &self.group, december);
        Ok(figures)
    }

    /// Opens the book with the members' records.
    pub fn open(
        &mut self,
        number: u32,
        start: Month,
        holder: usize,
        records: &[OpeningRecord],
    ) -> Result<(), BookRefusal>
        ensures group { Follows (after_opening number start holder records.now self.old.group)
            self.old.group result self.new.group }
        ensures terms { KeepsTerms self.old self.new }
        ensures balance { GoesOnBalanced R.SharingRule.sharing T.Tariff.price
            self.old (Opening number start holder records.now result) self.new }
    {
        let month = self.month_for(Call::Open { start })?;
        self.group = Group::opened(number, month, holder, records)?;
        Ok(())
    }

    /// Makes an entry in the open month.
    pub fn enter(&mut self, entry: Entry) -> Result<(), BookRefusal>
        ensures group { Follows (after_entry entry self.old.group)
            self.old.group result self.new.group }
        ensures one { EntersOne entry self.old.group self.new.group }
        ensures terms { KeepsTerms self.old self.new }
        ensures balance { GoesOnBalanced R.SharingRule.sharing T.Tariff.price
            self.old (Entering entry result) self.new }
    {
        match (self.group.phase, entry) {
            (
                Phase::Open(month),
                Entry::Reading {
                    register,
                    day,
                    value,
                },
            ) => self.group.enter_reading(
                month,
                MeterReading {
                    register,
                    day,
                    value,
                    start: value,
                },
            ),
            (
                Phase::Open(month),
                Entry::Change {
                    register,
                    day,
                    value,
                    start,
                },
            ) => self.group.enter_reading(
                month,
                MeterReading {
                    register,
                    day,
                    value,
                    start,
                },
            ),
            (Phase::Open(_), Entry::Correction { register, quantity }) => {
                self.group.enter_correction(register, quantity)
            }
            (Phase::Open(_), Entry::Payment { place, drams }) => self
                .group
                .enter_payment(place, drams),
            (Phase::Blank | Phase::YearEnd(_) | Phase::Over, _) => Err(BookRefusal::NoMonth),
        }
    }

    /// Writes the bills of the open month into a slice and gives a draft of them, which alters nothing in the book.
    pub fn draw(&self, bills: &mut [Bill]) -> Result<Draft, BookRefusal>
        ensures drawing { Answers
            (after_drawing (R.SharingRule.sharing self.now.rule) (T.Tariff.price self.now.tariff)
            self.now.group bills.old)
            bills.old result bills.new }
        ensures balance { GoesOnBalanced R.SharingRule.sharing T.Tariff.price
            self.now
            (Drawing (length bills.old) (drawing_answer result (bills_in self.now.group bills.new)))
            self.now }
    {
        let month = self.month_for(Call::Draw {
            places: bills.len(),
        })?;
        write_bills(&self.rule, &self.tariff, &self.group, month, bills);
        Ok(Draft::of(&self.group, month))
    }

    /// Gives the draft back, with whether it is current.
    pub fn check(&self, draft: Draft) -> (Draft, bool)
        ensures answer { result ≡ (draft, is_current self.now.group draft) }
        ensures balance { GoesOnBalanced R.SharingRule.sharing T.Tariff.price
            self.now (Checking draft result.1) self.now }
    {
        let current = self.is_current(&draft);
        (draft, current)
    }

    /// Takes the draft, posts the month's figures, writes the bills of a drawing made now into a slice, and opens what follows.
    pub fn issue(&mut self, draft: Draft, bills: &mut [Bill]) -> Result<(), BookRefusal>
        ensures group { Follows
            (after_issue (R.SharingRule.sharing self.old.rule) (T.Tariff.price self.old.tariff)
            draft (self.old.group, bills.old))
            (self.old.group, bills.old) result (self.new.group, bills.new) }
        ensures terms { KeepsTerms self.old self.new }
        ensures balance { GoesOnBalanced R.SharingRule.sharing T.Tariff.price
            self.old
            (Issuing draft (length bills.old)
            (issue_answer result (bills_in self.old.group bills.new)))
            self.new }
    {
        let current = self.is_current(&draft);
        self.withdraw(draft);
        let month = self.month_for(Call::Issue {
            places: bills.len(),
            current,
        })?;
        issue_bills(&self.rule, &self.tariff, &mut self.group, month, bills);
        Ok(())
    }

    /// Takes the draft, which alters nothing.
    pub fn withdraw(&self, draft: Draft)
        ensures balance { GoesOnBalanced R.SharingRule.sharing T.Tariff.price
            self.now (Withdrawing draft) self.now }
    {
        draft.end();
    }

    /// Closes the year: pays what each zone carries to the holder, and opens January.
    pub fn close_year(&mut self) -> Result<YearEnd, BookRefusal>
        ensures group { Answers (closing_result (T.Tariff.price self.old.tariff) self.old.group)
            self.old.group result self.new.group }
        ensures holder { AltersOne self.old.group.holder self.old.group self.new.group }
        ensures terms { KeepsTerms self.old self.new }
        ensures balance { GoesOnBalanced R.SharingRule.sharing T.Tariff.price
            self.old (Closing result) self.new }
    {
        let december = self.month_for(Call::Close)?;
        let (figures, holder) = year_end(&self.tariff, &self.group, december);
        post_year(&mut self.group, holder, december);
        Ok(figures)
    }

    // The month that a call is for, where the book is in the phase for it.
    fn month_for(&self, call: Call) -> Result<Month, BookRefusal>
        ensures answer { result ≡ month_for call self.now.group }
        ensures phase { IfOk result (λ month. IsInPhaseFor call self.now.group month) }
    {
        let members = self.members();
        match (self.group.phase, call) {
            (Phase::Blank, Call::Open { start }) => Ok(start),
            (Phase::Open(_), Call::Draw { places } | Call::Issue { places, .. })
                if places < members => { Err(BookRefusal::Bills) }
            (Phase::Open(month), Call::Draw { .. } | Call::Issue { current: true, .. }) => {
                Ok(month)
            }
            (Phase::Open(_), Call::Issue { current: false, .. }) => Err(BookRefusal::Draft),
            (Phase::YearEnd(december), Call::Close) => Ok(december),
            (_, Call::Open { .. }) => Err(BookRefusal::Opened),
            (_, Call::Draw { .. } | Call::Issue { .. }) => Err(BookRefusal::NoMonth),
            (_, Call::Close) => Err(BookRefusal::NoYearEnd),
        }
    }

    // Whether a draft is current, which none is but in an open month.
    fn is_current(&self, draft: &Draft) -> bool
        ensures { result ≡ is_current self.now.group draft.now }
    {
        match (self.group.phase, draft) {
            (Phase::Open(month), draft) => draft.is_of(&self.group, month),
            (Phase::Blank | Phase::YearEnd(_) | Phase::Over, _) => false,
        }
    }
}
