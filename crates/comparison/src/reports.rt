//! From the text of a question to its table.
ghost use Rattle.comparison.specs.Reports.{PrintsTable, Reports};

use crate::columns::compare;
use crate::problem::Problem;
use crate::question::{Asked, read};
use crate::table::table_text;
use std::alloc::Global;

// The table of what is asked, the places past the list of parts having none.
fn table_for(alloc: Global, asked: Asked<'_>) -> Result<String, Problem>
    ensures { PrintsTable asked.entry.pool asked.entry.needs.now asked.entry.parts.now result }
{
    let compared = compare(alloc, asked)?;
    Ok(table_text(alloc, asked.needs, &compared)?)
}

/// The table of what the text asks, or why there is none.
pub fn report(alloc: Global, text: &[u8]) -> Result<String, Problem>
    ensures { Reports text.now result }
{
    let question = read(alloc, text)?;
    table_for(alloc, question.asked())
}
