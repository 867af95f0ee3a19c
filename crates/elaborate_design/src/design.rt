ghost use Rattle.std.specs.Prelude.{◌≡◌, IfOk};
ghost use Rattle.elaborate_objects.specs.ModelTree.Views.{modules_of};
ghost use Rattle.elaborate_objects.specs.ModelTree.WholeTree.{model_of};
ghost use Rattle.elaborate_objects.specs.DesignRules.Listing.{objects_of};
ghost use Rattle.elaborate_objects.specs.DesignRules.Bound.{bound};
ghost use Rattle.elaborate_objects.specs.CodeRules.Bodies.{IsCodeOf, exceptions_of};
ghost use Rattle.elaborate_objects.specs.DesignRules.Parts as spec;
ghost use Rattle.elaborate_objects.specs.DesignRules.Statics as statics;
ghost use Rattle.elaborate_objects.specs.DesignRules.Designs.{IsDesignOf};

use super::counting::totals;
use super::denoted::all_denoted;
use super::hops::hops;
use super::kinds::{
    fifos, instance_numbers, memories, resolved, semaphores, signals, variables, visible,
};
use super::named::instances;
use super::ports::ports;
use super::processes::{Sources, processes};
use super::statics::static_lists;
use elaborate_objects::design_rules_api::Bindings;
use elaborate_objects::flat_design_api::{
    Code, Design, FifoPart, Hop, InstancePart, MemoryPart, Object, Objects, PortPart, ProcessPart,
    ResolvedPart, SemaphorePart, SignalPart, VariablePart, Visible,
};
use elaborate_objects::logic_values_api::{Items, Text};
use elaborate_objects::model_tree_api::{Module, Tree};
use flat_design::sim_time_api::Resolution;
use std::alloc::{AllocError, Global};

/// What objects give by themselves.
#[derive(Drop)]
struct Kinds {
    signals: Items<SignalPart>,
    resolved: Items<ResolvedPart>,
    fifos: Items<FifoPart>,
    semaphores: Items<SemaphorePart>,
    memories: Items<MemoryPart>,
    variables: Items<VariablePart>,
    visible: Items<Visible>,
}

/// What these objects give by themselves.
fn kinds_of(alloc: Global, objects: &[Object]) -> Result<Kinds, AllocError>
    ensures signals { IfOk result (λ k. k.signals ≡ spec.signals_of objects.now) }
    ensures resolved { IfOk result (λ k. k.resolved ≡ spec.resolved_of objects.now) }
    ensures fifos { IfOk result (λ k. k.fifos ≡ spec.fifos_of objects.now) }
    ensures semaphores { IfOk result (λ k. k.semaphores ≡ spec.semaphores_of objects.now) }
    ensures memories { IfOk result (λ k. k.memories ≡ spec.memories_of objects.now) }
    ensures variables { IfOk result (λ k. k.variables ≡ spec.variables_of objects.now) }
    ensures visible { IfOk result (λ k. k.visible ≡ spec.visible_of objects.now) }
{
    let signals = signals(alloc, objects)?;
    let resolved = resolved(alloc, objects)?;
    let fifos = fifos(alloc, objects)?;
    let semaphores = semaphores(alloc, objects)?;
    let memories = memories(alloc, objects)?;
    let variables = variables(alloc, objects)?;
    let visible = visible(alloc, objects)?;
    Ok(Kinds {
        signals,
        resolved,
        fifos,
        semaphores,
        memories,
        variables,
        visible,
    })
}

/// What objects give together with their bindings and the text of their modules.
#[derive(Drop)]
struct Together {
    instances: Items<InstancePart>,
    ports: Items<PortPart>,
    hops: Items<Hop>,
    processes: Items<ProcessPart>,
}

/// What these objects give together with their bindings and the text of their modules.
#[tactic(auto, using(crate::proofs::ChildEntries::denoted_long))]
fn linked(
    alloc: Global,
    modules: &[Module],
    objects: &Objects,
    bindings: &Bindings,
) -> Result<Together, AllocError>
    requires { bindings.now ≡ bound objects.now }
    ensures instances { IfOk result (λ l. l.instances ≡ spec.instances_of (modules_of modules.now) objects.now) }
    ensures ports { IfOk result (λ l. l.ports ≡ spec.ports_of objects.now) }
    ensures hops { IfOk result (λ l. l.hops ≡ spec.hops_of objects.now) }
    ensures processes { IfOk result (λ l. l.processes ≡ statics.processes_of (statics.static_lists (modules_of modules.now)) l.ports l.instances objects.now.list) }
{
    let list = objects.list.as_slice();
    let joined = bindings.hops.as_slice();
    let all = all_denoted(alloc, joined, list)?;
    let numbers = instance_numbers(alloc, list)?;
    let lists = static_lists(alloc, modules)?;
    let instances = instances(alloc, modules, all.as_slice(), list)?;
    let ports = ports(alloc, all.as_slice(), bindings.ports.as_slice(), objects)?;
    let hops = hops(alloc, objects, numbers.as_slice(), joined)?;
    let from = Sources {
        lists: lists.as_slice(),
        ports: ports.as_slice(),
        instances: instances.as_slice(),
    };
    let processes = processes(alloc, &from, numbers.as_slice(), list)?;
    Ok(Together {
        instances,
        ports,
        hops,
        processes,
    })
}

/// The design of a tree that breaks no rule, from its objects, what their bindings give, the names of its exceptions and
/// its code: each kind of object by number, what names stand for in each instance, and static sensitivities.
///
/// Only memory is refused. It is also called refused where a number does not fit 32 bits. It takes time that grows with
/// the objects, the names that their modules declare and the channels of ports. Its resolution is a picosecond.
pub fn design_of(
    alloc: Global,
    tree: &Tree,
    objects: Objects,
    bindings: Bindings,
    exceptions: Items<Text>,
    code: Code,
) -> Result<Design, AllocError>
    requires objects { objects ≡ objects_of (model_of tree.now) }
    requires bindings { bindings ≡ bound objects }
    requires exceptions { exceptions ≡ exceptions_of (model_of tree.now) }
    requires code { IsCodeOf (model_of tree.now) code }
    ensures design { IfOk result (λ design. IsDesignOf (model_of tree.now) design) }
    ensures code { IfOk result (λ design. design.code ≡ code) }
    ensures resolution { IfOk result (λ design. design.resolution.power ≡ 3) }
{
    let Ok(counts) = totals(objects.list.as_slice()) else {
        return Err(AllocError);
    };
    let Ok(kinds) = kinds_of(alloc, objects.list.as_slice()) else {
        return Err(AllocError);
    };
    let Ok(linked) = linked(alloc, tree.modules.as_slice(), &objects, &bindings) else {
        return Err(AllocError);
    };
    Ok(Design {
        resolution: Resolution::picosecond(),
        objects,
        instances: linked.instances,
        signals: kinds.signals,
        resolved: kinds.resolved,
        fifos: kinds.fifos,
        mutexes: counts.mutexes,
        semaphores: kinds.semaphores,
        keepers: counts.keepers,
        memories: kinds.memories,
        variables: kinds.variables,
        ports: linked.ports,
        processes: linked.processes,
        hops: linked.hops,
        events: counts.events,
        visible: kinds.visible,
        exceptions,
        code,
    })
}
