//! A group, its opening, and its entries, each of which changes one record.
ghost use Rattle.std.specs.Prelude.{◌≡◌, ◌<◌, ◌≤◌, length};
ghost use Rattle.group.specs.Groups.{entry_result, blank, capacities_fit, entry_group, is_producer, member_at, members_of, most_in_month, most_members, opening_result, opening_check, room_for_entry, some_register_over};
ghost use Rattle.group.specs.Members.{on_account, on_register};
ghost use Rattle.group.specs.Payments.{with_payment};
ghost use Rattle.group.specs.Registers.{with_correction, with_reading};
ghost use Rattle.group.specs.Results.{Follows};

use crate::member::{Member, OpeningRecord};
use crate::refusal::BookRefusal;
use crate::register::MeterReading;
use arrayvec::ArrayVec;
use calendar::{LAST_MONTH, Month};
use ledger::{ByZone, MemberRegister};
use sharing::PLACES;

/// The largest capacity of a member, in kW.
pub const MOST_CAPACITY: u32 = 150;
/// The largest sum of the members' capacities, in kW.
pub const MOST_CAPACITIES: u32 = 1_050;
/// The most entries of a month.
pub const MOST_ENTRIES: u16 = 1_000;

/// The phase of a group.
#[derive(Clone, Copy, PartialEq, Eq, Debug)]
pub enum Phase {
    /// The group was never opened.
    Blank,
    /// A month is open.
    Open(Month),
    /// A December was issued, and its year is not closed yet.
    YearEnd(Month),
    /// The last year is closed.
    Over,
}

/// A group.
#[derive(Drop, Debug)]
pub struct Group {
    /// The number of the group.
    pub number: u32,
    /// The place of the holder.
    pub holder: usize,
    /// The records of the members, in order of place.
    pub members: ArrayVec<Member, PLACES>,
    /// The carried balances in kWh.
    pub carried: ByZone<u64>,
    /// The phase.
    pub phase: Phase,
    /// How many entries the open month has.
    pub entries: u16,
}

impl Group {
    /// The group that was never opened.
    pub fn blank() -> Group
        ensures { result ≡ blank }
    {
        Group {
            number: 0,
            holder: 0,
            members: ArrayVec::new(),
            carried: ByZone { day: 0, night: 0 },
            phase: Phase::Blank,
            entries: 0,
        }
    }

    /// A group as it opens.
    pub fn opened(
        number: u32,
        start: Month,
        holder: usize,
        records: &[OpeningRecord],
    ) -> Result<Group, BookRefusal>
        ensures { result ≡ opening_result number start holder records.now }
    {
        opening_check(start, holder, records)?;
        Ok(Group {
            number,
            holder,
            members: members_of(records),
            phase: Phase::Open(start),
            ..Group::blank()
        })
    }

    /// The record of the member at a place.
    pub fn member_at(&self, place: usize) -> Result<Member, BookRefusal>
        ensures { result ≡ member_at place self.now }
    {
        self.members.get(place).copied().ok_or(BookRefusal::Place)
    }

    /// Enters what is read of a register in a month, of which the caller has seen that it is open.
    pub fn enter_reading(&mut self, month: Month, reading: MeterReading) -> Result<(), BookRefusal>
        ensures { Follows
            (entry_result reading.register.place
            (on_register reading.register
            (with_reading month reading.day reading.value reading.start)) self.old)
            self.old result self.new }
    {
        let mut member = self.member_at(reading.register.place)?;
        self.room_for_entry()?;
        member.enter_reading(month, reading)?;
        self.enter(reading.register.place, member);
        Ok(())
    }

    /// Enters a correction of a register's tally where the caller has seen that a month is open.
    pub fn enter_correction(&mut self, at: MemberRegister, kwh: i32) -> Result<(), BookRefusal>
        ensures { Follows (entry_result at.place (on_register at (with_correction kwh)) self.old)
            self.old result self.new }
    {
        let mut member = self.member_at(at.place)?;
        self.room_for_entry()?;
        member.enter_correction(at, kwh)?;
        self.enter(at.place, member);
        Ok(())
    }

    /// Enters a payment in drams by the member at a place where the caller has seen that a month is open.
    pub fn enter_payment(&mut self, place: usize, drams: u32) -> Result<(), BookRefusal>
        ensures { Follows (entry_result place (on_account (with_payment drams)) self.old)
            self.old result self.new }
    {
        let mut member = self.member_at(place)?;
        self.room_for_entry()?;
        member.enter_payment(drams)?;
        self.enter(place, member);
        Ok(())
    }

    // Whether the month has room for one more entry.
    fn room_for_entry(&self) -> Result<(), BookRefusal>
        ensures { result ≡ room_for_entry self.now }
    {
        if self.entries >= MOST_ENTRIES {
            return Err(BookRefusal::Full);
        }
        Ok(())
    }

    // Replaces the record at a place by what an entry made of it; every other record stays.
    fn enter(&mut self, place: usize, member: Member)
        requires place { place < length self.old.members.items }
        requires room { self.old.entries < most_in_month }
        ensures { self.new ≡ entry_group place member self.old }
    {
        self.members[place] = member;
        self.entries += 1;
    }
}

// Whether a group may open so.
fn opening_check(start: Month, holder: usize, records: &[OpeningRecord]) -> Result<(), BookRefusal>
    ensures { result ≡ opening_check start holder records.now }
{
    if records.is_empty() || records.len() > PLACES {
        return Err(BookRefusal::Count);
    }
    if start > LAST_MONTH {
        return Err(BookRefusal::Start);
    }
    if !capacities_fit(records) {
        return Err(BookRefusal::Capacity);
    }
    if !is_producer(holder, records) {
        return Err(BookRefusal::Holder);
    }
    if some_register_over(records) {
        return Err(BookRefusal::Register);
    }
    Ok(())
}

// Whether each capacity and their sum are within their limits.
fn capacities_fit(records: &[OpeningRecord]) -> bool
    requires { length records.now ≤ most_members }
    ensures { result ≡ capacities_fit records.now }
{
    let mut sum = 0;
    for record in records {
        if record.capacity() > MOST_CAPACITY {
            return false;
        }
        sum += record.capacity();
    }
    sum <= MOST_CAPACITIES
}

// Whether somebody stands at this place, and has at least 1 kW.
fn is_producer(place: usize, records: &[OpeningRecord]) -> bool
    ensures { result ≡ is_producer place records.now }
{
    records
        .get(place)
        .is_some_and(|record| record.capacity() > 0)
}

// Whether a register opens over its largest value.
fn some_register_over(records: &[OpeningRecord]) -> bool
    ensures { result ≡ some_register_over records.now }
{
    records.iter().any(|record| record.is_over())
}

// The records of the members as a group opens.
fn members_of(records: &[OpeningRecord]) -> ArrayVec<Member, PLACES>
    requires { length records.now ≤ most_members }
    ensures { result.items ≡ members_of records.now }
{
    let mut members = ArrayVec::new();
    for record in records {
        members.push(Member::opened(*record));
    }
    members
}
