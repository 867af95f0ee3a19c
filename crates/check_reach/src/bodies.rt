//! The bodies of a module.
ghost use Rattle.std.specs.Prelude.{◌≡◌, ◌++◌, ◌∷◌, [], false, OnOk, IfOk};
ghost use Rattle.model_tree.specs.Views.{body_of, item_of};
ghost use Rattle.check_expressions.specs.ModelRules.Reach as reach;
ghost use Rattle.check_expressions.specs.CheckNames.ModuleNames.{items_of};
ghost use Rattle.check_reach.specs.Flat.{seen, seen_list, flats_in};

use super::placed::{PlacedStatement, add_block};
use flat_design::BodyKind;
use model_tree::{Item, ProcessKind, Statement};
use std::alloc::{AllocError, Global};

/// A function or a process: its statements at any depth, each before those in it.
#[derive(Drop)]
pub struct FlatBody<'a> {
    /// What it is.
    pub kind: BodyKind,
    /// Its name.
    pub name: &'a [u8],
    /// Its statements.
    pub statements: Vec<PlacedStatement<'a>>,
}

/// What a process of this kind is as a body.
fn process_kind(kind: ProcessKind) -> BodyKind
    ensures { result ≡ reach.process_kind kind }
{
    match kind {
        ProcessKind::Thread => BodyKind::Thread,
        ProcessKind::Method => BodyKind::Method,
    }
}

/// A body of these statements.
fn flat_body<'a>(
    alloc: Global,
    kind: BodyKind,
    name: &'a [u8],
    body: &'a Vec<Statement>,
) -> Result<FlatBody<'a>, AllocError>
    ensures { IfOk result (λ b. seen b ≡ record { kind = kind; name = name.now; statements = reach.all_in_block (body_of body.now.items) false }) }
{
    let mut statements = Vec::new(alloc);
    add_block(body, false, &mut statements)?;
    Ok(FlatBody {
        kind,
        name,
        statements,
    })
}

/// Puts the body of an item behind others, where it has one.
fn add_body<'a>(
    alloc: Global,
    item: &'a Item,
    bodies: &mut Vec<FlatBody<'a>>,
) -> Result<(), AllocError>
    ensures { OnOk result (seen_list bodies.new.items ≡ seen_list bodies.old.items ++ flats_in (item_of item.now ∷ [])) }
{
    match item {
        Item::Function(_, function) => {
            let body = flat_body(
                alloc,
                BodyKind::Function,
                function.name.bytes(),
                &function.body,
            )?;
            bodies.push(body)?;
            Ok(())
        }
        Item::Process(_, process) => {
            let kind = process_kind(process.kind);
            let body = flat_body(alloc, kind, process.name.bytes(), &process.body)?;
            bodies.push(body)?;
            Ok(())
        }
        Item::Signal(_, _)
        | Item::Resolved(_, _)
        | Item::Clock(_, _)
        | Item::Fifo(_, _, _, _)
        | Item::Plain(_, _, _)
        | Item::Semaphore(_, _, _)
        | Item::Memory(_, _, _)
        | Item::Variable(_, _, _, _)
        | Item::Port(_, _, _, _)
        | Item::Export(_, _, _)
        | Item::Initiator(_, _, _)
        | Item::Target(_, _, _)
        | Item::Instance(_, _, _)
        | Item::Bind(_, _, _) => Ok(()),
    }
}

/// The bodies of items, in text order.
pub(crate) fn bodies_of<'a>(
    alloc: Global,
    items: &'a [Item],
) -> Result<Vec<FlatBody<'a>>, AllocError>
    ensures { IfOk result (λ bodies. seen_list bodies.items ≡ flats_in (items_of items.now)) }
{
    let mut bodies = Vec::new(alloc);
    for item in items {
        add_body(alloc, item, &mut bodies)?;
    }
    Ok(bodies)
}
