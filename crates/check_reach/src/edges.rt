ghost use Rattle.std.specs.Prelude.{◌≡◌, ◌<◌, ℕ, IfOk, OnOk, length, replicate, []};
ghost use Rattle.check_reach.specs.Edges.{targets};
ghost use Rattle.check_reach.specs.Spreading.{row_of, with_edge};

use check_expressions::logic_values_api::Items;
use std::alloc::{AllocError, Global};

/// An edge from one number to another.
#[derive(Clone, Copy)]
pub struct Edge {
    /// The number that it leads from.
    pub source: usize,
    /// The number that it leads to.
    pub target: usize,
}

/// So many rows without numbers.
fn empty_rows(alloc: Global, count: usize) -> Result<Vec<Items<usize>>, AllocError>
    ensures { IfOk result (λ rows. rows.items ≡ replicate count []) }
{
    let mut rows = Vec::new(alloc);
    for _ in 0..count {
        rows.push(Items::new(alloc))?;
    }
    Ok(rows)
}

/// Puts the target of an edge into the row of its source, where there is one.
fn add_edge(rows: &mut Vec<Items<usize>>, edge: Edge) -> Result<(), AllocError>
    ensures { OnOk result (rows.new.items ≡ with_edge rows.old.items edge) }
{
    if edge.source < rows.len() {
        rows[edge.source].push(edge.target)?;
    }
    Ok(())
}

/// For each number below the count, where the edges from it lead. Edges from other numbers are left out.
pub(crate) fn rows_of(
    alloc: Global,
    count: usize,
    edges: &[Edge],
) -> Result<Vec<Items<usize>>, AllocError>
    ensures many { IfOk result (λ rows. length rows.items ≡ count) }
    ensures rows { IfOk result (λ rows. (n : ℕ) → n < count → row_of rows.items n ≡ targets edges.now n) }
{
    let mut rows = empty_rows(alloc, count)?;
    for edge in edges {
        add_edge(&mut rows, *edge)?;
    }
    Ok(rows)
}
