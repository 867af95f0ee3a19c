//! The sets of names that the rules on what is reached ask for.
ghost use Rattle.std.specs.Prelude.{◌≡◌, [], map, IfOk};
ghost use Rattle.flat_design.specs.declared.code.BodyKind.TheVariants as body_kind;
ghost use Rattle.check_expressions.specs.ModelRules.Reach as reach;
ghost use Rattle.check_expressions.specs.CheckNames.ModuleNames.{items_of};
ghost use Rattle.check_reach.specs.Flat as flat;
ghost use Rattle.check_reach.specs.Flat.{seen_list};
ghost use Rattle.check_reach.specs.Sets as spec;

use super::begun::{Begin, add_name, begun, is_method, is_thread, name_if};
use super::bodies::{FlatBody, bodies_of};
use super::calls::{edges_of, function_numbers, numbers_of, turned};
use super::deeds::blocking_bodies;
use super::handlers::{add_handlers, nonblocking_handlers};
use crate::{Edge, spread};
use check_expressions::check_names_api::ModuleNames;
use check_expressions::model_rules_api::{blocking_is_least, reached_is_least};
use model_tree::Item;
use std::alloc::{AllocError, Global};

/// What is called in a module.
#[derive(Drop)]
pub struct Calls<'a> {
    /// How many items there are.
    pub count: usize,
    /// The names of the module.
    pub names: ModuleNames<'a>,
    /// The bodies.
    pub bodies: Vec<FlatBody<'a>>,
    /// The calls in functions.
    pub edges: Vec<Edge>,
    /// The same, the other way.
    pub back: Vec<Edge>,
}

/// Sets of names of a module, as marks on their places.
#[derive(Drop)]
pub struct Sets {
    /// The methods.
    pub methods: Vec<bool>,
    /// The threads.
    pub threads: Vec<bool>,
    /// The functions that block.
    pub blocking: Vec<bool>,
    /// The functions that are reached from methods.
    pub from_methods: Vec<bool>,
    /// Those reached from threads and handlers.
    pub from_threads: Vec<bool>,
    /// Those reached from handlers of non-blocking calls.
    pub from_nonblocking: Vec<bool>,
    /// Those reached from unwind blocks.
    pub from_unwinding: Vec<bool>,
}

/// What is called in a module of these items.
pub(crate) fn calls_of<'a>(alloc: Global, items: &'a [Item]) -> Result<Calls<'a>, AllocError>
    ensures names { IfOk result (λ calls. calls.names ≡ items.now) }
    ensures calls { IfOk result (λ calls. spec.AreCalls calls) }
{
    let names = ModuleNames::new(alloc, items)?;
    let bodies = bodies_of(alloc, items)?;
    let edges = edges_of(alloc, &names, bodies.as_slice())?;
    let back = turned(alloc, edges.as_slice())?;
    Ok(Calls {
        count: items.len(),
        names,
        bodies,
        edges,
        back,
    })
}

/// The methods.
fn methods_of<'a>(alloc: Global, bodies: &[FlatBody<'a>]) -> Result<Vec<&'a [u8]>, AllocError>
    ensures { IfOk result (λ found. map (λ n. n.now) found.items ≡ flat.named_of body_kind.Method (seen_list bodies.now)) }
{
    let mut found = Vec::new(alloc);
    for body in bodies {
        add_name(name_if(is_method(body.kind), body.name), &mut found)?;
    }
    Ok(found)
}

/// The threads.
fn threads_of<'a>(alloc: Global, bodies: &[FlatBody<'a>]) -> Result<Vec<&'a [u8]>, AllocError>
    ensures { IfOk result (λ found. map (λ n. n.now) found.items ≡ flat.named_of body_kind.Thread (seen_list bodies.now)) }
{
    let mut found = Vec::new(alloc);
    for body in bodies {
        add_name(name_if(is_thread(body.kind), body.name), &mut found)?;
    }
    Ok(found)
}

/// No edges.
fn no_edges() -> &'static [Edge]
    ensures { result.now ≡ [] }
{
    &[]
}

/// The set of the methods.
fn methods(alloc: Global, calls: &Calls<'_>) -> Result<Vec<bool>, AllocError>
    requires calls { spec.AreCalls calls.now }
    ensures { IfOk result (λ marks. spec.Tells (items_of calls.now.names) marks.items (reach.is_process_of (items_of calls.now.names) body_kind.Method)) }
{
    let named = methods_of(alloc, calls.bodies.as_slice())?;
    let numbers = numbers_of(alloc, &calls.names, named.as_slice())?;
    spread(alloc, calls.count, no_edges(), numbers.as_slice())
}

/// The set of the threads.
fn threads(alloc: Global, calls: &Calls<'_>) -> Result<Vec<bool>, AllocError>
    requires calls { spec.AreCalls calls.now }
    ensures { IfOk result (λ marks. spec.Tells (items_of calls.now.names) marks.items (reach.is_process_of (items_of calls.now.names) body_kind.Thread)) }
{
    let named = threads_of(alloc, calls.bodies.as_slice())?;
    let numbers = numbers_of(alloc, &calls.names, named.as_slice())?;
    spread(alloc, calls.count, no_edges(), numbers.as_slice())
}

/// The set of the functions that block.
fn blocking(alloc: Global, calls: &Calls<'_>) -> Result<Vec<bool>, AllocError>
    requires calls { spec.AreCalls calls.now }
    ensures { IfOk result (λ marks. spec.Tells (items_of calls.now.names) marks.items (reach.is_among (reach.blocking_functions (items_of calls.now.names)))) }
{
    let named = blocking_bodies(alloc, &calls.names, calls.bodies.as_slice())?;
    let numbers = function_numbers(alloc, &calls.names, named.as_slice())?;
    blocking_is_least();
    spread(
        alloc,
        calls.count,
        calls.back.as_slice(),
        numbers.as_slice(),
    )
}

/// The set of what is reached from those of these names that are functions.
fn reached(alloc: Global, calls: &Calls<'_>, named: &[&[u8]]) -> Result<Vec<bool>, AllocError>
    requires calls { spec.AreCalls calls.now }
    ensures { IfOk result (λ marks. spec.TellsReached (items_of calls.now.names) (map (λ n. n.now) named.now) marks.items) }
{
    let numbers = function_numbers(alloc, &calls.names, named)?;
    reached_is_least();
    spread(
        alloc,
        calls.count,
        calls.edges.as_slice(),
        numbers.as_slice(),
    )
}

/// The set of what is reached from methods.
fn from_methods(alloc: Global, calls: &Calls<'_>) -> Result<Vec<bool>, AllocError>
    requires calls { spec.AreCalls calls.now }
    ensures { IfOk result (λ marks. spec.Tells (items_of calls.now.names) marks.items (reach.is_among (reach.from_methods (items_of calls.now.names)))) }
{
    let named = begun(alloc, Begin::Methods, calls.bodies.as_slice())?;
    reached(alloc, calls, named.as_slice())
}

/// The set of what is reached from threads and from handlers.
fn from_threads<'a>(
    alloc: Global,
    calls: &Calls<'a>,
    items: &'a [Item],
) -> Result<Vec<bool>, AllocError>
    requires calls { spec.AreCalls calls.now }
    requires items { calls.now.names ≡ items.now }
    ensures { IfOk result (λ marks. spec.Tells (items_of calls.now.names) marks.items (reach.is_among (reach.from_threads (items_of calls.now.names)))) }
{
    let mut named = begun(alloc, Begin::Threads, calls.bodies.as_slice())?;
    add_handlers(items, &mut named)?;
    reached(alloc, calls, named.as_slice())
}

/// The set of what is reached from handlers of non-blocking calls.
fn from_nonblocking(
    alloc: Global,
    calls: &Calls<'_>,
    items: &[Item],
) -> Result<Vec<bool>, AllocError>
    requires calls { spec.AreCalls calls.now }
    requires items { calls.now.names ≡ items.now }
    ensures { IfOk result (λ marks. spec.Tells (items_of calls.now.names) marks.items (reach.is_among (reach.from_nonblocking (items_of calls.now.names)))) }
{
    let named = nonblocking_handlers(alloc, items)?;
    reached(alloc, calls, named.as_slice())
}

/// The set of what is reached from unwind blocks.
fn from_unwinding(alloc: Global, calls: &Calls<'_>) -> Result<Vec<bool>, AllocError>
    requires calls { spec.AreCalls calls.now }
    ensures { IfOk result (λ marks. spec.Tells (items_of calls.now.names) marks.items (reach.is_among (reach.from_unwinding (items_of calls.now.names)))) }
{
    let named = begun(alloc, Begin::Unwinding, calls.bodies.as_slice())?;
    reached(alloc, calls, named.as_slice())
}

/// The sets of a module.
pub(crate) fn sets_of<'a>(
    alloc: Global,
    calls: &Calls<'a>,
    items: &'a [Item],
) -> Result<Sets, AllocError>
    requires calls { spec.AreCalls calls.now }
    requires items { calls.now.names ≡ items.now }
    ensures { IfOk result (λ sets. spec.AreSets (items_of calls.now.names) sets) }
{
    Ok(Sets {
        methods: methods(alloc, calls)?,
        threads: threads(alloc, calls)?,
        blocking: blocking(alloc, calls)?,
        from_methods: from_methods(alloc, calls)?,
        from_threads: from_threads(alloc, calls, items)?,
        from_nonblocking: from_nonblocking(alloc, calls, items)?,
        from_unwinding: from_unwinding(alloc, calls)?,
    })
}
