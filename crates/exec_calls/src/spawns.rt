//! The statement `spawn`.
ghost use Rattle.std.specs.Prelude.{◌≤◌, ◌≡◌, ◌<◌, ◌+◌, ◌^◌, OnOk, OnErr};
ghost use Rattle.flat_design.specs.Code.{spawn_term};
ghost use Rattle.exec_data.specs.SimModel.Configuration.{Config};
ghost use Rattle.exec_data.specs.SimModel.Calls.{do_spawn, handle_stored, may_spawn, spawns};
ghost use Rattle.exec_data.specs.SimModel.Reading.{here};
ghost use Rattle.exec_data.specs.SimModel.Storing.{passes};
ghost use Rattle.exec_data.specs.KernelProcesses.InstanceViews as seen;
ghost use Rattle.exec_events.specs.Numbers.{NumbersEvents};
ghost use Rattle.exec_data.specs.KernelState.Kernel.{IsSound, StandsFor, whole_design};
ghost use Rattle.exec_data.specs.KernelState.Moves.{Moves, Steps, HasStatement, IsOnTop};
ghost use Rattle.exec_data.specs.KernelState.Stopping.{DoesOrStops};
ghost use Rattle.exec_calls.specs.Born.{brought_forth};

use crate::given::{first_arguments, judge_first_arguments};
use crate::sensitivity::static_events;
use exec_data::instance_table_api::{ProcessKind, SpawnStop};
use exec_data::kernel_state_api::{
    Kernel, Offspring, StatementStop, pass, spawn as bring_forth, top_lives,
};
use exec_data::kernel_view_api::home_at;
use exec_data::logic_values_api::{Items, Value};
use exec_data::model_tree_api::ProcessKind as Kind;
use exec_data::store;
use flat_design::{NameUse, RunFault, SpawnForm, Store, ValueType};
use std::alloc::{AllocError, Global};

/// The statement of the instance on top is past, and the variable that it names holds the handle of a new instance.
fn keep_handle(k: &mut Kernel, p: u32, handle: Option<NameUse>, serial: u32)
    requires sound { IsSound k.old }
    requires top { IsOnTop k.old p }
    requires statement { HasStatement k.old p }
    ensures steps { Steps k.old k.new p (λ c q i r. handle_stored (passes c q r) q (here c q i r) handle serial) }
    ensures sound { IsSound k.new }
    ensures made { k.new.made ≡ k.old.made }
{
    top_lives(k, p);
    match handle {
        Some(name) => {
            let target = Store {
                name,
                value_type: ValueType::Process,
            };
            store(k, p, target, Value::Handle(Some(serial)));
        }
        None => pass(k, p),
    }
}

/// A new instance is brought forth, and its handle is kept.
///
/// # Errors
/// It is refused; then nothing changes.
fn spawn_offspring(
    k: &mut Kernel,
    alloc: Global,
    p: u32,
    handle: Option<NameUse>,
    o: Offspring,
) -> Result<(), AllocError>
    requires sound { IsSound k.old }
    requires top { IsOnTop k.old p }
    requires statement { HasStatement k.old p }
    requires room { k.old.made < 2 ^ 31 + 2 }
    ensures steps { OnOk result (Steps k.old k.new p (λ c q i r. brought_forth (passes c q r) q (here c q i r) handle o)) }
    ensures stays { OnErr result (Moves k.old k.new (λ c. c)) }
    ensures sound { IsSound k.new }
    ensures made { k.new.made ≤ k.old.made + 1 }
    ensures refused { OnErr result (k.new.made ≡ k.old.made) }
{
    top_lives(k, p);
    match bring_forth(k, alloc, o) {
        Ok(serial) => {
            keep_handle(k, p, handle, serial);
            Ok(())
        }
        Err(SpawnStop::TooMany) => Err(AllocError),
        Err(SpawnStop::NoMemory) => Err(AllocError),
    }
}

/// The kind of a process, as it is kept.
fn kind_by(kind: Kind) -> ProcessKind
    ensures { seen.kind_of result ≡ kind }
{
    match kind {
        Kind::Thread => ProcessKind::Thread,
        Kind::Method => ProcessKind::Method,
    }
}

/// A new instance with these first arguments is spawned.
///
/// # Errors
/// It is refused; then nothing changes.
fn spawn_with(
    k: &mut Kernel,
    alloc: Global,
    p: u32,
    form: &SpawnForm,
    arguments: Items<Value>,
) -> Result<(), AllocError>
    requires sound { IsSound k.old }
    requires top { IsOnTop k.old p }
    requires statement { HasStatement k.old p }
    requires numbers { NumbersEvents (whole_design k.old) }
    requires room { k.old.made < 2 ^ 31 + 2 }
    ensures steps { OnOk result (Steps k.old k.new p (λ c q i r. spawns (passes c q r) q (here c q i r) (spawn_term form.now) arguments)) }
    ensures stays { OnErr result (Moves k.old k.new (λ c. c)) }
    ensures sound { IsSound k.new }
    ensures made { k.new.made ≤ k.old.made + 1 }
    ensures refused { OnErr result (k.new.made ≡ k.old.made) }
{
    top_lives(k, p);
    let home = home_at(k, p);
    match static_events(alloc, &k.design, home, form.sensitive.as_slice()) {
        Ok(sensitive) => {
            let o = Offspring {
                kind: kind_by(form.kind),
                home,
                code: form.function,
                arguments: arguments.into_vec(),
                sensitive,
                waits: form.dont_initialize,
            };
            spawn_offspring(k, alloc, p, form.handle, o)
        }
        Err(_) => Err(AllocError),
    }
}

/// As many instances as may live at once.
const MOST_LIVE: u32 = 65_536;

/// Whether one instance more may be spawned. It takes no memory.
///
/// # Errors
/// As many live as may.
fn judge_number(k: &Kernel) -> Result<(), RunFault>
    requires { IsSound k.now }
    ensures { (c : Config) → StandsFor k.now c → result ≡ may_spawn c }
{
    let living = k.schedule.lists.instances();
    if living < MOST_LIVE {
        Ok(())
    } else {
        Err(RunFault::TooManyInstances)
    }
}

/// `spawn`: a new instance of a function, with its first arguments, its kind and its static sensitivity, in which a port
/// without a place stands for all its channels; it is runnable at once, unless it is not to be initialized, and the variable
/// that the statement names holds its handle (IEEE 1666-2011, 5.5).
///
/// # Errors
/// The first fault of an argument; as many live instances as there may be; no memory, where there is no fault. Then nothing
/// changes.
pub fn spawn(k: &mut Kernel, alloc: Global, p: u32, form: &SpawnForm) -> Result<(), StatementStop>
    requires sound { IsSound k.old }
    requires top { IsOnTop k.old p }
    requires statement { HasStatement k.old p }
    requires numbers { NumbersEvents (whole_design k.old) }
    requires room { k.old.made < 2 ^ 31 + 2 }
    ensures does { DoesOrStops k.old k.new result p (λ c q i r. do_spawn c q r (here c q i r) (spawn_term form.now)) }
    ensures sound { IsSound k.new }
    ensures made { k.new.made ≤ k.old.made + 1 }
    ensures refused { OnErr result (k.new.made ≡ k.old.made) }
{
    top_lives(k, p);
    match judge_first_arguments(k, p, form.arguments.as_slice()) {
        Ok(()) => {}
        Err(fault) => return Err(StatementStop::Fault(fault)),
    }
    match judge_number(k) {
        Ok(()) => {}
        Err(fault) => return Err(StatementStop::Fault(fault)),
    }
    let arguments = match first_arguments(k, alloc, p, form.function, form.arguments.as_slice()) {
        Ok(arguments) => arguments,
        Err(_) => return Err(StatementStop::NoMemory),
    };
    match spawn_with(k, alloc, p, form, arguments) {
        Ok(()) => Ok(()),
        Err(_) => Err(StatementStop::NoMemory),
    }
}
