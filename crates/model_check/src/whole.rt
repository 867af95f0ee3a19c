ghost use Rattle.std.specs.Prelude.{◌≡◌, ◌<◌, [], IfOk, OnOk, get_or, length};
ghost use Rattle.model_tree.specs.WholeTree.{model_of};
ghost use Rattle.model_tree.specs.Views.{module_of, modules_of};
ghost use Rattle.code_rules.specs.Bodies.{AreBodies, AreModules, IsCodeOf};
ghost use Rattle.code_blocks.specs.LawsCode.HasCode.{ItemsHaveCode, ModelHasCode, ModulesHaveCode};
ghost use Rattle.check_reach.specs.CheckNames.ModelNames.{module_items};
ghost use Rattle.code_blocks.specs.Laid.{EachFrom, FromNowOn, Grows, IsNested, StandsInside};
ghost use Rattle.model_check.specs.Parts.{AddsBodies, AllStand, AreLaidApart, IsNestedCode, body_blocks, home_from};
ghost use Rattle.code_blocks.specs.LawsCode.OwnBlocks.{HaveOwnBlocks};

use super::bodies::in_32_bits;
use super::items::add_items;
use check_reach::check_names_api::ModelNames;
use code_blocks::Laid;
use code_blocks::code_deeds_api::Home;
use code_blocks::code_terms_api::{NameList, body_names, exceptions_of};
use code_rules::logic_values_api::Items;
use flat_design::{Code, CodeBody};
use model_tree::{Module, Tree};
use std::alloc::{AllocError, Global};

/// Puts the bodies of the module at this place behind those of the modules before it.
fn add_module<'a>(
    alloc: Global,
    model: &'a ModelNames<'a>,
    exceptions: &NameList<'_>,
    place: usize,
    module: &'a Module,
    bodies: &mut Items<CodeBody>,
    laid: &mut Laid,
) -> Result<(), AllocError>
    requires within { place < length model.now }
    requires there { get_or (module_items model.now) place [] ≡ «module».now.items.items }
    requires coded { ItemsHaveCode (modules_of model.now) (module_of «module».now).items (home_from (length bodies.old) exceptions.now) (module_of «module».now).items }
    requires nested { IsNested laid.old }
    requires apart { AreLaidApart laid.old (body_blocks bodies.old) }
    ensures grows { OnOk result (Grows laid.old laid.new) }
    ensures nested { OnOk result (IsNested laid.new) }
    ensures owned { OnOk result (EachFrom (length laid.old.blocks) laid.new (λ a n. StandsInside a (body_blocks bodies.new) n)) }
    ensures apart { OnOk result (AreLaidApart laid.new (body_blocks bodies.new)) }
    ensures reads { OnOk result (AddsBodies laid.new bodies.old bodies.new (λ a new rest. AreBodies (modules_of model.now) (module_of «module».now).items place (home_from (length bodies.old) exceptions.now) a (module_of «module».now).items new rest)) }
{
    let names = model.names_at(place);
    let items = module.items.as_slice();
    let module_place = in_32_bits(place)?;
    let first_body = in_32_bits(bodies.as_slice().len())?;
    let numbered = body_names(alloc, items)?;
    let home = Home {
        first_body,
        bodies: &numbered,
        exceptions,
    };
    add_items(alloc, model, names, module_place, home, items, bodies, laid)
}

/// The bodies of modules, in text order.
fn modules_code<'a>(
    alloc: Global,
    model: &'a ModelNames<'a>,
    exceptions: &NameList<'_>,
    modules: &'a [Module],
    laid: &mut Laid,
) -> Result<Items<CodeBody>, AllocError>
    requires named { model.now ≡ modules.now }
    requires coded { ModulesHaveCode (modules_of model.now) exceptions.now 0 (modules_of modules.now) }
    requires nested { IsNested laid.old }
    ensures nested { OnOk result (IsNested laid.new) }
    ensures owned { IfOk result (λ bodies. EachFrom (length laid.old.blocks) laid.new (λ a n. StandsInside a (body_blocks bodies) n)) }
    ensures apart { IfOk result (λ bodies. AreLaidApart laid.new (body_blocks bodies)) }
    ensures reads { IfOk result (λ bodies. FromNowOn laid.new (λ a. AreModules (modules_of model.now) exceptions.now a 0 0 (modules_of modules.now) bodies)) }
{
    let mut bodies = Items::new(alloc);
    for (i, module) in modules.iter().enumerate() {
        add_module(alloc, model, exceptions, i, module, &mut bodies, laid)?;
    }
    Ok(bodies)
}

/// The code of a tree, whose modules have these names.
fn tree_code<'a, 't: 'a>(
    alloc: Global,
    model: &'a ModelNames<'t>,
    tree: &'t Tree,
) -> Result<Code, AllocError>
    requires named { model.now ≡ tree.now.modules.items }
    requires coded { ModelHasCode (model_of tree.now) }
    ensures code { IfOk result (λ c. IsCodeOf (model_of tree.now) c) }
    ensures nested { IfOk result (λ c. IsNestedCode c) }
    ensures apart { IfOk result (λ c. HaveOwnBlocks c) }
    ensures stand { IfOk result (λ c. AllStand c) }
{
    let modules = tree.modules.as_slice();
    let exceptions = exceptions_of(alloc, modules)?;
    let mut laid = Laid {
        blocks: Items::new(alloc),
        statements: Items::new(alloc),
    };
    let bodies = modules_code(alloc, model, &exceptions, modules, &mut laid)?;
    let Laid { blocks, statements } = laid;
    Ok(Code {
        bodies,
        blocks,
        statements,
    })
}

/// The code of the model of a tree, of which each part has code: one body for each function, process and clock, in text
/// order over all modules, and each block before the block that it stands in; no block stands inside two bodies. The room of
/// each body is 0, since the text does not tell it.
///
/// Bodies, blocks and statements are numbered in 32 bits, and the times of clocks are below 2^64 picoseconds: what passes
/// that is answered as out of memory, the only error.
pub fn code_of(alloc: Global, tree: &Tree) -> Result<Code, AllocError>
    requires coded { ModelHasCode (model_of tree.now) }
    ensures code { IfOk result (λ c. IsCodeOf (model_of tree.now) c) }
    ensures nested { IfOk result (λ c. IsNestedCode c) }
    ensures apart { IfOk result (λ c. HaveOwnBlocks c) }
    ensures stand { IfOk result (λ c. AllStand c) }
{
    let model = ModelNames::new(alloc, tree.modules.as_slice())?;
    tree_code(alloc, &model, tree)
}
