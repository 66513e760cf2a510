//! A small group with its prices, and short names for what the tests do with it.
use billing::Account;
use book::{Book, Draft};
use calendar::{Day, Month};
use group::{BookRefusal, Member, OpeningRecord, Phase};
use ledger::{Bill, ByFlow, ByZone, Entry, Flow, MemberRegister, YearEnd, Zone};
use sharing::{Proportion, SharingRule};
use std::process::Abort;
use tariff::{Class, ClassPrices, FixedTariff, PriceTable, Tariff};

/// October 2024, which begins on day 9040 and ends on day 9070.
pub const OCTOBER: Month = 297;

/// A line that no month of the tests comes to.
pub const MARK: Bill = Bill {
    billed: ByZone { day: 77, night: 77 },
    covered: ByZone { day: 77, night: 77 },
    drams: 77,
    debt: 77,
};

const YEAR_END: ByZone<u32> = ByZone {
    day: 2000,
    night: 1500,
};

const HOUSEHOLD: ClassPrices = ClassPrices {
    energy: ByZone {
        day: 4845,
        night: 3585,
    },
    distribution: 1263,
    year_end: YEAR_END,
};

const OTHER: ClassPrices = ClassPrices {
    energy: ByZone {
        day: 5333,
        night: 4077,
    },
    distribution: 1607,
    year_end: YEAR_END,
};

const VULNERABLE: ClassPrices = ClassPrices {
    energy: ByZone {
        day: 2999,
        night: 1999,
    },
    distribution: 901,
    year_end: YEAR_END,
};

/// The prices of the tests.
pub const TARIFF: FixedTariff = FixedTariff {
    prices: PriceTable {
        household: HOUSEHOLD,
        other: OTHER,
        vulnerable: VULNERABLE,
    },
};

/// The book of most tests.
pub type PlainBook = Book<Proportion, FixedTariff>;

// A book that was never opened.
pub(crate) fn blank() -> PlainBook {
    Book::new(Proportion, TARIFF)
}

// What a group opens with for a member whose registers all stand at one value.
pub(crate) fn record(capacity: u32, class: Class, standing: u32) -> OpeningRecord {
    let flows = ByFlow {
        consumed: standing,
        delivered: standing,
    };
    let standings = ByZone {
        day: flows,
        night: flows,
    };
    OpeningRecord::new(capacity, class, standings)
}

// Opens a book in October 2024 with three members, the first of whom is the holder.
pub(crate) fn open<R: SharingRule, T: Tariff>(rt: &impl Abort, book: &mut Book<R, T>, number: u32) {
    let records = [
        record(100, Class::Household, 1_000),
        record(0, Class::Other, 0),
        record(50, Class::Vulnerable, 9_000_000),
    ];
    assert_eq!(rt; book.open(number, OCTOBER, 0, &records), Ok(()));
}

// A book that was opened so.
pub(crate) fn opened(rt: &impl Abort, number: u32) -> PlainBook {
    let mut book = blank();
    open(rt, &mut book, number);
    book
}

fn at(place: usize, zone: Zone, flow: Flow) -> MemberRegister {
    MemberRegister { place, zone, flow }
}

// A reading of what a member consumed.
pub(crate) fn consumed(place: usize, zone: Zone, day: Day, value: u32) -> Entry {
    Entry::Reading {
        register: at(place, zone, Flow::Consumed),
        day,
        value,
    }
}

// A reading of what a member delivered.
pub(crate) fn delivered(place: usize, zone: Zone, day: Day, value: u32) -> Entry {
    Entry::Reading {
        register: at(place, zone, Flow::Delivered),
        day,
        value,
    }
}

// A change of the meter that counts a flow by night.
pub(crate) fn change(place: usize, flow: Flow, day: Day, value: u32, start: u32) -> Entry {
    Entry::Change {
        register: at(place, Zone::Night, flow),
        day,
        value,
        start,
    }
}

// A correction of what a member consumed.
pub(crate) fn correction(place: usize, zone: Zone, quantity: i32) -> Entry {
    Entry::Correction {
        register: at(place, zone, Flow::Consumed),
        quantity,
    }
}

// A payment.
pub(crate) fn payment(place: usize, drams: u32) -> Entry {
    Entry::Payment { place, drams }
}

// The number of the refusal that a call answered, if it was refused.
pub(crate) fn number(answer: Result<(), BookRefusal>) -> Option<u8> {
    answer.err().map(|refusal| refusal.number())
}

/// All that a book of up to three members answers to questions.
#[derive(Clone, Copy, PartialEq, Eq, Debug)]
pub struct Answers {
    number: u32,
    holder: usize,
    members: usize,
    entries: u16,
    /// The phase.
    pub phase: Phase,
    /// The carried balances.
    pub carried: ByZone<u64>,
    /// The figures of a closing.
    pub year_end: Result<YearEnd, BookRefusal>,
    /// The record at each place, and none at the last.
    pub records: [Result<Member, BookRefusal>; 4],
}

// Asks a book every question.
pub(crate) fn seen<R: SharingRule, T: Tariff>(book: &Book<R, T>) -> Answers {
    Answers {
        number: book.number(),
        holder: book.holder(),
        members: book.members(),
        entries: book.entries(),
        phase: book.phase(),
        carried: ByZone {
            day: book.carried(Zone::Day),
            night: book.carried(Zone::Night),
        },
        year_end: book.year_end(),
        records: [
            book.member(0),
            book.member(1),
            book.member(2),
            book.member(3),
        ],
    }
}

// Makes an entry that is to be taken, or refused by a number with the book left as it was.
pub(crate) fn enter<R: SharingRule, T: Tariff>(
    rt: &impl Abort,
    book: &mut Book<R, T>,
    entry: Entry,
    refusal: Option<u8>,
) {
    let before = seen(book);
    let answer = book.enter(entry);
    assert_eq!(rt; number(answer), refusal, "at {entry:?}");
    if refusal.is_some() {
        assert_eq!(rt; seen(book), before, "at {entry:?}");
    }
}

// Makes entries that are all to be taken.
pub(crate) fn enter_all<R: SharingRule, T: Tariff>(
    rt: &impl Abort,
    book: &mut Book<R, T>,
    entries: &[Entry],
) {
    for entry in entries {
        enter(rt, book, *entry, None);
    }
}

// Draws where the slice has room.
pub(crate) fn draw<R: SharingRule, T: Tariff>(
    rt: &impl Abort,
    book: &Book<R, T>,
    bills: &mut [Bill],
) -> Draft {
    book.draw(bills).expect(rt, "a drawing")
}

// Draws where that is to be refused, and answers the refusal's number.
pub(crate) fn refused_drawing(book: &PlainBook, bills: &mut [Bill]) -> Option<u8> {
    match book.draw(bills) {
        Ok(draft) => {
            book.withdraw(draft);
            None
        }
        Err(refusal) => Some(refusal.number()),
    }
}

// Checks a draft and gives it back.
pub(crate) fn check(rt: &impl Abort, book: &PlainBook, draft: Draft, expected: bool) -> Draft {
    let (draft, current) = book.check(draft);
    assert_eq!(rt; current, expected);
    draft
}

// The account of the member at a place.
pub(crate) fn account<R: SharingRule, T: Tariff>(
    book: &Book<R, T>,
    place: usize,
) -> Option<Account> {
    book.member(place).ok().map(|member| member.account)
}
