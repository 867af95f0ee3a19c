//! The name that is told of an inexact time.
ghost use Rattle.std.specs.Prelude.{◌≡◌, IfOk};
ghost use Rattle.tick_trees.specs.Unfit.{told};

use model_tree::logic_values_api::Text;
use model_tree::{Span, unit_name};
use std::alloc::{AllocError, Global};

/// The name that is told of an inexact time: its number in decimal, a space and the unit. The only error is being out of memory.
pub fn inexact_name(alloc: Global, span: Span) -> Result<Text, AllocError>
    ensures { IfOk result (λ text. text ≡ told span) }
{
    let count = span.count;
    let digits = format!(in alloc; "{count}")?;
    let mut name = digits.into_bytes();
    name.extend_from_slice(b" ")?;
    name.extend_from_slice(unit_name(span.unit).as_bytes())?;
    Ok(Text::from_vec(name))
}
