//! Reads a line of a journal.
ghost use Rattle.std.specs.Prelude.{◌≡◌, ◌↔◌, IsOk, Result};
ghost use Rattle.journal.specs.Lines.{HasForm, ReadsLine};
ghost use Rattle.journal.specs.Rows.{others_of, texts_of};
ghost use Rattle.journal.specs.Steps.{ReadsAs, ReadsBare, ReadsRow};
ghost use Rattle.journal.specs.declared.kind.Kind.TheVariants as kinds;

use crate::kind::Kind;
use crate::line::Line;
use crate::refusal::{LineFault, ReadRefusal};
use crate::row::Row;
use crate::words::Word;
use fields::{Column, Dated, Missing, Number, Signed, WrongField};
use ledger::{Entry, MemberRegister};

/// Reads the line of a journal that has this number, with its line feed as its last byte; or tells at which line, in which field and why it is none.
pub fn read_line(text: &[u8], line: usize) -> Result<Line, LineFault>
    ensures read { ReadsLine text.now line result }
    ensures exactly { IsOk result ↔ HasForm text.now }
    ensures only { (other : Result Line LineFault)
        → ReadsLine text.now line other → other ≡ result }
{
    line_of(text, line)
}

// The same, by the fields of the line; what else its caller promises follows from what it answers.
fn line_of(text: &[u8], line: usize) -> Result<Line, LineFault>
    ensures { ReadsLine text.now line result }
{
    let refusal = ReadRefusal::Fields;
    let row = Row::of(text, line).ok_or(LineFault { line, refusal })?;
    Ok(line_in(row)?)
}

// What a row says.
fn line_in(row: Row<'_>) -> Result<Line, WrongField>
    ensures { ReadsRow row.entry.kind.line (texts_of row.entry) result }
{
    let kind = Kind::read(row.kind)?;
    line_as(kind, row)
}

// The reading of a row. Each kind has a reader of its own, since its columns are types.
fn reading_in(row: Row<'_>) -> Result<Line, WrongField>
    ensures { ReadsAs kinds.Reading row.entry.kind.line (others_of row.entry) result }
{
    let (Number(place), Word(zone), Word(flow), Number(value), Missing, Dated(day)) =
        row.columns()?;
    let place = place as usize;
    Ok(Line::Enter(Entry::Reading {
        register: MemberRegister { place, zone, flow },
        day,
        value,
    }))
}

// The meter change of a row.
fn change_in(row: Row<'_>) -> Result<Line, WrongField>
    ensures { ReadsAs kinds.Change row.entry.kind.line (others_of row.entry) result }
{
    let (Number(place), Word(zone), Word(flow), Number(value), Number(start), Dated(day)) =
        row.columns()?;
    let place = place as usize;
    Ok(Line::Enter(Entry::Change {
        register: MemberRegister { place, zone, flow },
        day,
        value,
        start,
    }))
}

// The correction of a row.
fn correction_in(row: Row<'_>) -> Result<Line, WrongField>
    ensures { ReadsAs kinds.Correction row.entry.kind.line (others_of row.entry) result }
{
    let (Number(place), Word(zone), Word(flow), Signed(quantity), Missing, Missing) =
        row.columns()?;
    let place = place as usize;
    Ok(Line::Enter(Entry::Correction {
        register: MemberRegister { place, zone, flow },
        quantity,
    }))
}

// The payment of a row.
fn payment_in(row: Row<'_>) -> Result<Line, WrongField>
    ensures { ReadsAs kinds.Payment row.entry.kind.line (others_of row.entry) result }
{
    let (Number(place), Missing, Missing, Number(drams), Missing, Missing) = row.columns()?;
    let place = place as usize;
    Ok(Line::Enter(Entry::Payment { place, drams }))
}

// The line itself, where no field after the kind is filled.
fn bare_line(line: Line, row: Row<'_>) -> Result<Line, WrongField>
    ensures { ReadsBare line row.entry.kind.line (others_of row.entry) result }
{
    let (Missing, Missing, Missing, Missing, Missing, Missing) = row.columns()?;
    Ok(line)
}

// What a row of this kind says.
fn line_as(kind: Kind, row: Row<'_>) -> Result<Line, WrongField>
    ensures { ReadsAs kind row.entry.kind.line (others_of row.entry) result }
{
    match kind {
        Kind::Reading => reading_in(row),
        Kind::Change => change_in(row),
        Kind::Correction => correction_in(row),
        Kind::Payment => payment_in(row),
        Kind::Issue => bare_line(Line::Issue, row),
        Kind::Year => bare_line(Line::Year, row),
    }
}
