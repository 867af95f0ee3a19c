ghost use Rattle.std.specs.Prelude.{◌≡◌, IfOk};
ghost use Rattle.model_tree.specs.WholeTree.{source_of};
ghost use Rattle.model_tree.specs.Views.{modules_of};
ghost use Rattle.model_print.specs.Printed.{printed_text};

use super::items::{first_lines, modules, top};
use crate::Page;
use model_tree::logic_values_api::Text;
use model_tree::{Head, Module, Top, Tree};
use std::alloc::{AllocError, Global};

/// The text of these modules behind this head, with this instance at the top.
pub(crate) fn written(
    alloc: Global,
    head: &Head,
    parts: &[Module],
    last: &Top,
) -> Result<Text, AllocError>
    ensures { IfOk result (λ text. text ≡ printed_text (record { head = head.now; model = record { modules = modules_of parts.now; top = last.now } })) }
{
    let mut page = Page::new(alloc);
    first_lines(&mut page, head)?;
    modules(&mut page, parts)?;
    top(&mut page, last)?;
    Ok(page.into_text())
}

/// The text of a tree: its tokens in order, numbers in decimal, a line for each brace and each `;`, and two blanks
/// before a line for each brace that is open.
pub fn print(alloc: Global, tree: &Tree) -> Result<Text, AllocError>
    ensures { IfOk result (λ text. text ≡ printed_text (source_of tree.now)) }
{
    written(alloc, &tree.head, tree.modules.as_slice(), &tree.top)
}
