//! What each rule gives every place, and what it leaves of the pool.
ghost use Rattle.std.specs.Prelude.{◌≡◌, IfOk};
ghost use Rattle.comparison.specs.Columns.{MakesColumn, Compares, MakesPartsColumn, padded_parts};

use crate::problem::Problem;
use crate::question::Asked;
use sharing::{LineOrder, PLACES, Parts, Proportion, SharingRule, left_of};
use std::alloc::{AllocError, Global};

// A list and no pairs with the needs: a rule writes its shares into a slice of numbers.
/// The shares by a rule, and what it leaves of the pool.
#[derive(Debug, Drop)]
pub struct Column {
    /// The share of each place in kWh.
    pub shares: Vec<u64>,
    /// What is left of the pool in kWh.
    pub left: u64,
}

// The column of a rule.
fn column_of<R: SharingRule>(
    alloc: Global,
    rule: &R,
    pool: u64,
    needs: &[u64],
) -> Result<Column, Problem>
    ensures { MakesColumn (R.SharingRule.sharing rule.now) pool needs.now result }
{
    let mut shares = vec![in alloc; 0; needs.len()]?;
    rule.share(pool, needs, &mut shares)?;
    let left = left_of(pool, &shares);
    Ok(Column { shares, left })
}

// The parts of all 32 places, of which those past the list are 0.
fn pad(alloc: Global, parts: &[u64]) -> Result<Vec<u64>, AllocError>
    ensures { IfOk result (λ v. v.items ≡ padded_parts parts.now) }
{
    let mut all = Vec::from_slice(alloc, parts)?;
    all.resize(PLACES.max(parts.len()), 0)?;
    Ok(all)
}

// The column of the layer that gives the places their parts ahead of the rule.
fn column_with_parts<R: SharingRule + Drop>(
    alloc: Global,
    rule: R,
    asked: Asked<'_>,
) -> Result<Column, Problem>
    ensures { let pool = asked.entry.pool in
        let needs = asked.entry.needs.now in
        MakesPartsColumn (R.SharingRule.sharing rule) asked.entry.parts.now pool needs result }
{
    let mut layer = Parts::over(rule);
    layer.set(asked.parts)?;
    column_of(alloc, &layer, asked.pool, asked.needs)
}

/// The four columns of a comparison.
#[derive(Debug, Drop)]
pub struct Comparison {
    /// By line order.
    pub line_order: Column,
    /// By proportion.
    pub proportion: Column,
    /// By parts over line order.
    pub parts_over_line_order: Column,
    /// By parts over proportion.
    pub parts_over_proportion: Column,
}

// The four columns, where all 32 places have their parts.
fn columns_of(alloc: Global, asked: Asked<'_>) -> Result<Comparison, Problem>
    ensures { Compares asked.entry.pool asked.entry.needs.now asked.entry.parts.now result }
{
    let line_order = column_of(alloc, &LineOrder, asked.pool, asked.needs)?;
    let proportion = column_of(alloc, &Proportion, asked.pool, asked.needs)?;
    let parts_over_line_order = column_with_parts(alloc, LineOrder, asked)?;
    let parts_over_proportion = column_with_parts(alloc, Proportion, asked)?;
    Ok(Comparison {
        line_order,
        proportion,
        parts_over_line_order,
        parts_over_proportion,
    })
}

/// Compares the rules on what is asked, the places past the list of parts having none.
pub fn compare(alloc: Global, asked: Asked<'_>) -> Result<Comparison, Problem>
    ensures { let parts = padded_parts asked.entry.parts.now in
        Compares asked.entry.pool asked.entry.needs.now parts result }
{
    let all = pad(alloc, asked.parts)?;
    columns_of(
        alloc,
        Asked {
            parts: &all,
            ..asked
        },
    )
}
