//! What the month came to, as text.
use crate::members::NAMES;
use book::Book;
use ledger::{Bill, Zone};
use sharing::SharingRule;
use std::io;
use tariff::Tariff;

// Prints a line for each member.
pub(crate) fn print_bills(rt: &impl Print, bills: &[Bill]) -> io::Result<()> {
    println!(rt; "October 2024     billed kWh    covered kWh         drams")?;
    println!(rt; "member           day  night     day  night    bill    debt")?;
    for (name, bill) in NAMES.iter().zip(bills) {
        print_bill(rt, name, bill)?;
    }
    Ok(())
}

fn print_bill(rt: &impl Print, name: &str, bill: &Bill) -> io::Result<()> {
    let Bill {
        billed,
        covered,
        drams,
        debt,
    } = *bill;
    print!(rt; "{name:<13} {:>6} {:>6}", billed.day, billed.night)?;
    print!(rt; "  {:>6} {:>6}", covered.day, covered.night)?;
    println!(rt; "  {drams:>6}  {debt:>6}")
}

// Prints what the pools hold for the next month.
pub(crate) fn print_carried<R: SharingRule, T: Tariff>(
    rt: &impl Print,
    book: &Book<R, T>,
) -> io::Result<()> {
    println!(rt; "carried on by day: {} kWh", book.carried(Zone::Day))?;
    println!(rt; "carried on by night: {} kWh", book.carried(Zone::Night))
}
