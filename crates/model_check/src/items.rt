ghost use Rattle.std.specs.Prelude.{◌≡◌, ◌++◌, IfOk, OnOk, List, length, option_to_list};
ghost use Rattle.std.specs.Option.{IfSome};
ghost use Rattle.model_tree.specs.Views.{item_of, modules_of};
ghost use Rattle.flat_design.specs.Reach.{Inside};
ghost use Rattle.flat_design.specs.declared.code.CodeBody.{CodeBody};
ghost use Rattle.code_rules.specs.Bodies.{AreBodies, IsBodyIf, around_item, source_of};
ghost use Rattle.code_blocks.specs.LawsCode.HasCode.{BodyIfHasCode, ItemsHaveCode};
ghost use Rattle.code_blocks.specs.CodeTerms.Names.{body_names};
ghost use Rattle.code_blocks.specs.CodeDeeds.Homes.{home_of};
ghost use Rattle.code_rules.specs.ModelRules.Scopes.{item_scope};
ghost use Rattle.check_reach.specs.CheckNames.ModuleNames.{items_of};
ghost use Rattle.code_blocks.specs.Laid.{EachFrom, FromNowOn, Grows, IsNested, OnlyFrom, StandsInside};
ghost use Rattle.model_check.specs.Parts.{AddsBodies, AreLaidApart, body_blocks};

use super::bodies::{clock_body, function_body, process_body};
use check_reach::check_names_api::{ModelNames, ModuleNames};
use code_blocks::Laid;
use code_blocks::code_deeds_api::Home;
use code_rules::logic_values_api::Items;
use flat_design::CodeBody;
use model_tree::Item;
use std::alloc::{AllocError, Global};

/// The body of an item of the module at this place, where it has one.
fn item_body<'a>(
    alloc: Global,
    model: &'a ModelNames<'a>,
    names: &'a ModuleNames<'a>,
    module_place: u32,
    home: Home<'_>,
    item: &'a Item,
    laid: &mut Laid,
) -> Result<Option<CodeBody>, AllocError>
    requires home { home.bodies.now ≡ body_names (items_of names.now) }
    requires coded { BodyIfHasCode (home_of home) (item_scope (modules_of model.now) (items_of names.now) (around_item (item_of item.now))) (source_of (item_of item.now)) }
    requires nested { IsNested laid.old }
    ensures grows { OnOk result (Grows laid.old laid.new) }
    ensures nested { OnOk result (IsNested laid.new) }
    ensures owned { IfOk result (λ b. EachFrom (length laid.old.blocks) laid.new (λ a n. StandsInside a (body_blocks (option_to_list b)) n)) }
    ensures only { IfOk result (λ b. IfSome b (λ x. OnlyFrom (length laid.old.blocks) laid.new (λ a n. Inside a x.block n))) }
    ensures reads { IfOk result (λ b. FromNowOn laid.new (λ a. (rest : List CodeBody) → IsBodyIf module_place (home_of home.entry) a (item_scope (modules_of model.now) (items_of names.now) (around_item (item_of item.now))) (source_of (item_of item.now)) (option_to_list b ++ rest) rest)) }
{
    match item {
        Item::Clock(_, clock) => {
            let body = clock_body(alloc, model, names, module_place, home, clock, laid)?;
            Ok(Some(body))
        }
        Item::Function(_, function) => {
            let body = function_body(alloc, model, names, module_place, home, function, laid)?;
            Ok(Some(body))
        }
        Item::Process(_, process) => {
            let body = process_body(alloc, model, names, module_place, home, process, laid)?;
            Ok(Some(body))
        }
        _ => Ok(None),
    }
}

/// Puts a body behind others, where there is one.
fn add_body(bodies: &mut Items<CodeBody>, body: Option<CodeBody>) -> Result<(), AllocError>
    ensures { OnOk result (bodies.new ≡ bodies.old ++ option_to_list body) }
{
    match body {
        None => Ok(()),
        Some(body) => {
            bodies.push(body)?;
            Ok(())
        }
    }
}

/// Puts the bodies of items of the module at this place behind others, in text order.
pub(crate) fn add_items<'a>(
    alloc: Global,
    model: &'a ModelNames<'a>,
    names: &'a ModuleNames<'a>,
    module_place: u32,
    home: Home<'_>,
    items: &'a [Item],
    bodies: &mut Items<CodeBody>,
    laid: &mut Laid,
) -> Result<(), AllocError>
    requires home { home.bodies.now ≡ body_names (items_of names.now) }
    requires coded { ItemsHaveCode (modules_of model.now) (items_of names.now) (home_of home) (items_of items.now) }
    requires nested { IsNested laid.old }
    requires apart { AreLaidApart laid.old (body_blocks bodies.old) }
    ensures grows { OnOk result (Grows laid.old laid.new) }
    ensures nested { OnOk result (IsNested laid.new) }
    ensures owned { OnOk result (EachFrom (length laid.old.blocks) laid.new (λ a n. StandsInside a (body_blocks bodies.new) n)) }
    ensures apart { OnOk result (AreLaidApart laid.new (body_blocks bodies.new)) }
    ensures reads { OnOk result (AddsBodies laid.new bodies.old bodies.new (λ a new rest. AreBodies (modules_of model.now) (items_of names.now) module_place (home_of home.entry) a (items_of items.now) new rest)) }
{
    for item in items {
        let body = item_body(alloc, model, names, module_place, home, item, laid)?;
        add_body(bodies, body)?;
    }
    Ok(())
}
