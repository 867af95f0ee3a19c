//! Items, modules and whole trees.
ghost use Rattle.std.specs.Prelude.{◌≡◌, map};
ghost use Rattle.std.specs.List.{flat_map};
ghost use Rattle.model_tree.specs.WholeTree.{model_of};
ghost use Rattle.model_tree.specs.Views.{item_of, modules_of};
ghost use Rattle.tick_trees.specs.Times as times;
ghost use Rattle.tick_trees.specs.Unfit as spec;
ghost use Rattle.tick_trees.specs.Unfit.{first, unfit_in};

use crate::found::{Unfit, either, in_clock, in_literal};
use crate::parts::in_events;
use crate::statements::in_block;
use model_tree::sim_time_api::Resolution;
use model_tree::{Constant, ConstantForm, Item, Module, Span, Tree};

/// The time of a constant, where it is none of the resolution.
fn in_constant(constant: &Constant, r: Resolution) -> Option<Unfit>
    ensures { result ≡ first (unfit_in r) (times.in_constant constant.now) }
{
    match constant.form {
        ConstantForm::Number(_)
        | ConstantForm::Negative(_)
        | ConstantForm::Logic(_)
        | ConstantForm::Truth(_) => None,
        ConstantForm::Time(count, unit) => {
            either(in_literal(constant.line, Span { count, unit }, r), None)
        }
    }
}

/// The same where a constant is written.
fn in_first(constant: &Option<Constant>, r: Resolution) -> Option<Unfit>
    ensures { result ≡ first (unfit_in r) (times.in_option times.in_constant constant.now) }
{
    match constant {
        None => None,
        Some(constant) => in_constant(constant, r),
    }
}

/// The first time of an item that is none of the resolution.
#[tactic(auto, using(crate::proofs::Firsts::first_append))]
fn in_item(item: &Item, r: Resolution) -> Option<Unfit>
    ensures { result ≡ first (unfit_in r) (times.in_item (item_of item.now)) }
{
    match item {
        Item::Resolved(_, _)
        | Item::Fifo(_, _, _, _)
        | Item::Plain(_, _, _)
        | Item::Memory(_, _, _)
        | Item::Port(_, _, _, _)
        | Item::Export(_, _, _)
        | Item::Initiator(_, _, _)
        | Item::Target(_, _, _)
        | Item::Instance(_, _, _)
        | Item::Bind(_, _, _) => None,
        Item::Signal(_, signal) => in_first(&signal.initial, r),
        Item::Clock(line, clock) => either(in_clock(*line, clock, r), None),
        Item::Semaphore(_, _, first) => in_constant(first, r),
        Item::Variable(_, _, _, first) => in_first(first, r),
        Item::Function(_, function) => in_block(&function.body, r),
        Item::Process(_, process) => either(
            in_events(process.sensitive.as_slice(), r),
            in_block(&process.body, r),
        ),
    }
}

/// The first time of items that is none of the resolution.
fn in_items(items: &[Item], r: Resolution) -> Option<Unfit>
    ensures { result ≡ first (unfit_in r) (flat_map times.in_item (map item_of items.now)) }
{
    for item in items {
        match in_item(item, r) {
            None => {}
            Some(unfit) => return Some(unfit),
        }
    }
    None
}

/// The first time of modules that is none of the resolution.
fn in_modules(modules: &[Module], r: Resolution) -> Option<Unfit>
    ensures { result ≡ first (unfit_in r) (flat_map times.in_module (modules_of modules.now)) }
{
    for module in modules {
        match in_items(module.items.as_slice(), r) {
            None => {}
            Some(unfit) => return Some(unfit),
        }
    }
    None
}

/// The first time of a tree, in text order, that is no whole number of resolutions, or 2^64 of them or more. Of a clock it is the
/// first that is past the range, and else the first that is inexact.
pub fn first_unfit(tree: &Tree, r: Resolution) -> Option<Unfit>
    ensures { result ≡ spec.first_unfit r (model_of tree.now) }
{
    in_modules(tree.modules.as_slice(), r)
}
