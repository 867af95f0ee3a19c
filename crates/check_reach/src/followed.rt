ghost use Rattle.std.specs.Prelude.{◌≡◌, ℕ, List, [], IfOk, OnOk, replicate, false};
ghost use Rattle.check_reach.specs.Edges.{is_marked, IsSpread};
ghost use Rattle.check_reach.specs.Spreading as spec;

use super::edges::{Edge, rows_of};
use check_expressions::logic_values_api::Items;
use std::alloc::{AllocError, Global};

fn is_marked(marks: &[bool], n: usize) -> bool
    ensures { result ≡ is_marked marks.now n }
{
    match marks.get(n) {
        Some(marked) => *marked,
        None => true,
    }
}

/// Marks a number; it waits if it was not marked before.
fn reach(n: usize, marks: &mut Vec<bool>, waiting: &mut Vec<usize>) -> Result<(), AllocError>
    ensures { OnOk result ((marks.new.items, waiting.new.items) ≡ spec.reach n (marks.old.items, waiting.old.items)) }
{
    if !is_marked(marks.as_slice(), n) {
        marks[n] = true;
        waiting.push(n)?;
    }
    Ok(())
}

/// Marks numbers, in their order.
fn reach_all(
    numbers: &[usize],
    marks: &mut Vec<bool>,
    waiting: &mut Vec<usize>,
) -> Result<(), AllocError>
    ensures { OnOk result ((marks.new.items, waiting.new.items) ≡ spec.reach_all numbers.now (marks.old.items, waiting.old.items)) }
{
    for n in numbers {
        reach(*n, marks, waiting)?;
    }
    Ok(())
}

fn row_of(rows: &[Items<usize>], n: usize) -> &[usize]
    ensures { result.now ≡ spec.row_of rows.now n }
{
    match rows.get(n) {
        Some(row) => row.as_slice(),
        None => &[],
    }
}

/// Follows the edges of what waits, until nothing does.
fn follow(
    rows: &[Items<usize>],
    marks: &mut Vec<bool>,
    waiting: &mut Vec<usize>,
) -> Result<(), AllocError>
    ensures { OnOk result ((count : ℕ) (roots : List ℕ) → spec.IsUnderWay count rows.now roots (marks.old.items, waiting.old.items) → spec.IsUnderWay count rows.now roots (marks.new.items, [])) }
{
    while let Some(n) = waiting.pop() {
        reach_all(row_of(rows, n), marks, waiting)?;
    }
    Ok(())
}

/// So many numbers without a mark.
fn unmarked(alloc: Global, count: usize) -> Result<Vec<bool>, AllocError>
    ensures { IfOk result (λ marks. marks.items ≡ replicate count false) }
{
    vec![in alloc; false; count]
}

/// Marks for the numbers below a count: the least set that has the roots and with each number those to which edges lead from
/// it. Each number is followed once, so the time grows with the count, the roots and the edges.
pub fn spread(
    alloc: Global,
    count: usize,
    edges: &[Edge],
    roots: &[usize],
) -> Result<Vec<bool>, AllocError>
    ensures { IfOk result (λ marks. IsSpread count edges.now roots.now marks.items) }
{
    let rows = rows_of(alloc, count, edges)?;
    let mut marks = unmarked(alloc, count)?;
    let mut waiting = Vec::new(alloc);
    reach_all(roots, &mut marks, &mut waiting)?;
    follow(rows.as_slice(), &mut marks, &mut waiting)?;
    Ok(marks)
}
