// Settles one month of a small group from its opening to its issued bills, and prints what it comes to.
#![tactic(auto)]

mod entries;
mod members;
mod table;

use book::Book;
use calendar::Month;
use entries::{october, too_low};
use group::BookRefusal;
use ledger::Bill;
use members::{HOLDER, MEMBERS, TARIFF, records};
use sharing::{Proportion, SharingRule};
use std::io;
use std::process::ExitCode;
use table::{print_bills, print_carried};
use tariff::Tariff;

// Months are counted from January 2000: this is October 2024.
const OCTOBER: Month = 297;

// A number of its own for each group, so that no draft of one is issued in another.
const GROUP: u32 = 1;

fn main(rt: HostRuntime) -> io::Result<ExitCode> {
    // A book knows how to share a pool and what the energy costs. It is blank until it is opened.
    let mut book = Book::new(Proportion, TARIFF);
    let mut bills = [Bill::default(); MEMBERS];
    if let Err(refusal) = settle(&mut book, &mut bills) {
        eprintln!(rt; "refused by {}", refusal.number())?;
        return Ok(ExitCode::FAILURE);
    }
    print_bills(&rt, &bills)?;
    print_carried(&rt, &book)?;
    // After the issue November is open, and every register stands where October left it.
    if let Err(refusal) = book.enter(too_low()) {
        println!(rt;
            "a reading below its register: refused by {}",
            refusal.number()
        )?;
    }
    Ok(ExitCode::SUCCESS)
}

// Opens the group in October, enters what happened, and issues the bills.
fn settle<R: SharingRule, T: Tariff>(
    book: &mut Book<R, T>,
    bills: &mut [Bill],
) -> Result<(), BookRefusal> {
    book.open(GROUP, OCTOBER, HOLDER, &records())?;
    for entry in october() {
        book.enter(entry)?;
    }
    issue(book, bills)
}

// Draws the bills, and issues them if no entry came in between.
fn issue<R: SharingRule, T: Tariff>(
    book: &mut Book<R, T>,
    bills: &mut [Bill],
) -> Result<(), BookRefusal> {
    // Drawing alters nothing in the book: the bills can be looked over before they count.
    let draft = book.draw(bills)?;
    // A draft is never just dropped. It goes in and comes back here, and ends in an issue or a withdrawal.
    let (draft, current) = book.check(draft);
    if !current {
        book.withdraw(draft);
        return Err(BookRefusal::Draft);
    }
    book.issue(draft, bills)
}
