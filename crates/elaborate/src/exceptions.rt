//! The names of the exceptions of a tree.
ghost use Rattle.std.specs.Prelude.{◌≡◌, IfOk, map};
ghost use Rattle.model_tree.specs.WholeTree.{model_of};
ghost use Rattle.model_check.specs.CodeRules.Bodies as bodies;

use model_check::code_terms_api::exceptions_of;
use model_check::logic_values_api::{Items, Text};
use model_tree::Tree;
use std::alloc::{AllocError, Global};

/// Names, in memory of their own.
fn texts(alloc: Global, names: &[&[u8]]) -> Result<Items<Text>, AllocError>
    ensures { IfOk result (λ texts. texts ≡ map (λ name. name.now) names.now) }
{
    let mut texts = Items::new(alloc);
    for name in names {
        texts.push(Text::from_vec(Vec::from_slice(alloc, name)?))?;
    }
    Ok(texts)
}

/// The names of the exceptions of a tree by their numbers, in memory of their own.
pub(crate) fn exceptions(alloc: Global, tree: &Tree) -> Result<Items<Text>, AllocError>
    ensures { IfOk result (λ names. names ≡ bodies.exceptions_of (model_of tree.now)) }
{
    let names = exceptions_of(alloc, tree.modules.as_slice())?;
    texts(alloc, names.as_slice())
}
