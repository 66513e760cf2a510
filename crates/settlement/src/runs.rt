//! A run of a journal over a book.
ghost use Rattle.std.specs.Prelude.{◌≤◌, length};
ghost use Rattle.settlement.specs.Leading.{LeadsOnBalanced};
ghost use Rattle.settlement.specs.Runs.{BeginsRun, RunsBody, RunsJournal};
ghost use Rattle.settlement.specs.Texts.{IsNextLine};
ghost use Rattle.group.specs.Books.{KeepsTerms};

use crate::fault::{NO_LINE, RunFault, RunRefusal};
use crate::output::write_names;
use crate::step::{check_room, run_line};
use book::Book;
use fields::next_line_feed;
use journal::after_names;
use sharing::SharingRule;
use tariff::Tariff;

/// The longest journal, in bytes.
pub const MOST_JOURNAL: usize = 65_536;

/// What a run comes to.
#[derive(Clone, Copy, PartialEq, Eq, Debug)]
pub struct Outcome {
    /// How many bytes of output it wrote.
    pub written: usize,
    /// The fault that it stopped at, or none.
    pub fault: Option<RunFault>,
}

/// Runs a journal over a book, and writes the output at the slice's start; stops at the first fault, with the book and the output as the lines before it left them.
pub fn run<R: SharingRule, T: Tariff>(
    book: &mut Book<R, T>,
    journal: &[u8],
    out: &mut [u8],
) -> Outcome
    ensures outcome { RunsJournal
        (R.SharingRule.sharing book.old.rule) (T.Tariff.price book.old.tariff)
        journal.now (out.old, book.old.group) result (out.new, book.new.group) }
    ensures terms { KeepsTerms book.old book.new }
    ensures balance { LeadsOnBalanced R.SharingRule.sharing T.Tariff.price
        journal.now (out.old, book.old) result (out.new, book.new) }
{
    match begin(journal, out) {
        Ok((body, at)) => run_body(book, body, out, at),
        Err(fault) => Outcome {
            written: 0,
            fault: Some(RunFault { line: 1, ..fault }),
        },
    }
}

// Goes through line 1: the text behind it, and the place behind the line of names of the output.
fn begin<'a>(journal: &'a [u8], out: &mut [u8]) -> Result<(&'a [u8], usize), RunFault>
    ensures { BeginsRun journal.now out.old result out.new }
{
    if journal.len() > MOST_JOURNAL {
        return Err(RunFault::new(NO_LINE, RunRefusal::Journal));
    }
    let Some(body) = after_names(journal) else {
        return Err(RunFault::new(NO_LINE, RunRefusal::Journal));
    };
    check_room(out.len())?;
    let Ok(at) = write_names(out, 0) else {
        unreachable!()
    };
    Ok((body, at))
}

// The first line of a text, with the line feed that ends it where one does, and what follows; none where there is no text.
fn next_line(text: &[u8]) -> Option<(&[u8], &[u8])>
    ensures { IsNextLine text.now result }
{
    if text.is_empty() {
        return None;
    }
    let end = match next_line_feed(text, 0) {
        Some(feed) => feed + 1,
        None => text.len(),
    };
    Some(text.split_at(end))
}

// Runs the lines behind the line of names, and writes from `at` on.
fn run_body<R: SharingRule, T: Tariff>(
    book: &mut Book<R, T>,
    body: &[u8],
    out: &mut [u8],
    at: usize,
) -> Outcome
    requires { at ≤ length out.old }
    ensures done { RunsBody (R.SharingRule.sharing book.old.rule) (T.Tariff.price book.old.tariff)
        body.now at (out.old, book.old.group) result (out.new, book.new.group) }
    ensures terms { KeepsTerms book.old book.new }
{
    let mut written = at;
    let mut line = 1;
    let mut rest = body;
    while let Some((text, after)) = next_line(rest) {
        line += 1;
        match run_line(book, text, line, out, written) {
            Ok(end) => written = end,
            Err(fault) => {
                let fault = Some(fault);
                return Outcome { written, fault };
            }
        }
        rest = after;
    }
    Outcome {
        written,
        fault: None,
    }
}
