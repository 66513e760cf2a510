//! The table of a comparison as text.
ghost use Rattle.std.specs.Prelude.{◌≡◌, IfOk, string_bytes, slice_index};
ghost use Rattle.comparison.specs.Tables.{last_row, place_row, table_of};

use crate::columns::{Column, Comparison};
use std::alloc::{AllocError, Global};

const NAMES: &str =
    "place,need,line_order,proportion,parts_over_line_order,parts_over_proportion\n";

// The share of a place, or 0 where the column has none.
fn share_at(column: &Column, place: usize) -> u64
    ensures { result ≡ slice_index column.now.shares.items place }
{
    column.shares.get(place).copied().unwrap_or(0)
}

// The line of a place. By `format!`: a `Display` would want a struct of its own for each line.
fn row(alloc: Global, place: usize, need: u64, c: &Comparison) -> Result<String, AllocError>
    ensures { IfOk result (λ s. string_bytes s ≡ place_row c.now place need) }
{
    format!(in alloc;
        "{place},{need},{},{},{},{}\n",
        share_at(&c.line_order, place),
        share_at(&c.proportion, place),
        share_at(&c.parts_over_line_order, place),
        share_at(&c.parts_over_proportion, place),
    )
}

// The line of what is left of the pool. One format for both lines would want what stands in front as a text of its own.
fn rest(alloc: Global, c: &Comparison) -> Result<String, AllocError>
    ensures { IfOk result (λ s. string_bytes s ≡ last_row c.now) }
{
    format!(in alloc;
        "left,-,{},{},{},{}\n",
        c.line_order.left,
        c.proportion.left,
        c.parts_over_line_order.left,
        c.parts_over_proportion.left,
    )
}

/// The table as text: a line of names, a line for each place, and a line of what is left of the pool.
pub fn table_text(alloc: Global, needs: &[u64], c: &Comparison) -> Result<String, AllocError>
    ensures { IfOk result (λ s. string_bytes s ≡ table_of needs.now c.now) }
{
    let mut text = String::from_str(alloc, NAMES)?;
    for (place, need) in needs.iter().enumerate() {
        text.push_str(row(alloc, place, *need, c)?.as_str())?;
    }
    text.push_str(rest(alloc, c)?.as_str())?;
    Ok(text)
}
