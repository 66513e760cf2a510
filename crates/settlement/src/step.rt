//! What a line of a journal does to a book and to the output.
ghost use Rattle.std.specs.Prelude.{◌≡◌, ◌≤◌, IfOk, length};
ghost use Rattle.journal.specs.declared.line.Line.TheVariants as lines;
ghost use Rattle.settlement.specs.Steps.{DoesLine, ChecksRoom, DoesText, output_room};
ghost use Rattle.group.specs.Books.{KeepsTerms};

use crate::bills::{write_bills, write_whole};
use crate::fault::{NO_LINE, RunFault, RunRefusal};
use book::Book;
use group::Phase;
use journal::{Line, read_line};
use ledger::{Bill, Entry};
use sharing::{PLACES, SharingRule};
use tariff::Tariff;

// The bytes that the output must have left where a line writes.
pub(crate) const OUTPUT_ROOM: usize = 4_096;

// Enters what a line says.
fn enter<R: SharingRule, T: Tariff>(
    book: &mut Book<R, T>,
    entry: Entry,
    out: &mut [u8],
    at: usize,
) -> Result<usize, RunFault>
    ensures done { DoesLine (R.SharingRule.sharing book.old.rule) (T.Tariff.price book.old.tariff)
        (lines.Enter entry) at (out.old, book.old.group) result (out.new, book.new.group) }
    ensures terms { KeepsTerms book.old book.new }
{
    book.enter(entry)?;
    Ok(at)
}

// Whether so much room is left as a run asks for where it writes.
pub(crate) fn check_room(room: usize) -> Result<(), RunFault>
    ensures answer { ChecksRoom room result }
    ensures room { IfOk result (λ _. output_room ≤ room) }
{
    if room < OUTPUT_ROOM {
        return Err(RunFault::new(NO_LINE, RunRefusal::Room));
    }
    Ok(())
}

// Closes the year, and writes the line of its figures.
fn close_year<R: SharingRule, T: Tariff>(
    book: &mut Book<R, T>,
    out: &mut [u8],
    at: usize,
) -> Result<usize, RunFault>
    requires { at ≤ length out.old }
    ensures done { DoesLine (R.SharingRule.sharing book.old.rule) (T.Tariff.price book.old.tariff)
        lines.Year at (out.old, book.old.group) result (out.new, book.new.group) }
    ensures terms { KeepsTerms book.old book.new }
    ensures inside { IfOk result (λ end. end ≤ length out.new) }
{
    book.year_end()?;
    check_room(out.len() - at)?;
    let Phase::YearEnd(december) = book.phase() else {
        unreachable!()
    };
    let holder = book.holder();
    let figures = book.close_year()?;
    Ok(write_whole(december, holder, figures, out, at))
}

// Draws the open month, issues it, and writes the lines of its bills.
fn issue<R: SharingRule, T: Tariff>(
    book: &mut Book<R, T>,
    out: &mut [u8],
    at: usize,
) -> Result<usize, RunFault>
    requires { at ≤ length out.old }
    ensures done { DoesLine (R.SharingRule.sharing book.old.rule) (T.Tariff.price book.old.tariff)
        lines.Issue at (out.old, book.old.group) result (out.new, book.new.group) }
    ensures terms { KeepsTerms book.old book.new }
    ensures inside { IfOk result (λ end. end ≤ length out.new) }
{
    let mut bills = [Bill::default(); PLACES];
    let draft = book.draw(&mut bills)?;
    if let Err(fault) = check_room(out.len() - at) {
        book.withdraw(draft);
        return Err(fault);
    }
    let month = draft.month();
    let members = book.members();
    book.issue(draft, &mut bills)?;
    Ok(write_bills(month, &bills[..members], out, at))
}

// Does what a line says, writes what that comes to from `at` on, and answers the place after it; or refuses, with the book and the output as they were.
pub(crate) fn carry_out<R: SharingRule, T: Tariff>(
    book: &mut Book<R, T>,
    line: Line,
    out: &mut [u8],
    at: usize,
) -> Result<usize, RunFault>
    requires { at ≤ length out.old }
    ensures done { DoesLine (R.SharingRule.sharing book.old.rule) (T.Tariff.price book.old.tariff)
        line at (out.old, book.old.group) result (out.new, book.new.group) }
    ensures terms { KeepsTerms book.old book.new }
    ensures inside { IfOk result (λ end. end ≤ length out.new) }
{
    match line {
        Line::Enter(entry) => enter(book, entry, out, at),
        Line::Issue => issue(book, out, at),
        Line::Year => close_year(book, out, at),
    }
}

// The same for the text of a line, which is read first.
pub(crate) fn run_line<R: SharingRule, T: Tariff>(
    book: &mut Book<R, T>,
    text: &[u8],
    number: usize,
    out: &mut [u8],
    at: usize,
) -> Result<usize, RunFault>
    requires { at ≤ length out.old }
    ensures done { DoesText (R.SharingRule.sharing book.old.rule) (T.Tariff.price book.old.tariff)
        text.now number at (out.old, book.old.group) result (out.new, book.new.group) }
    ensures terms { KeepsTerms book.old book.new }
    ensures inside { IfOk result (λ end. end ≤ length out.new) }
{
    let line = read_line(text, number)?;
    match carry_out(book, line, out, at) {
        Ok(end) => Ok(end),
        Err(fault) => Err(RunFault {
            line: number,
            ..fault
        }),
    }
}
