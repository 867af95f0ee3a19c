//! Where a statement puts a result.
ghost use Rattle.std.specs.Prelude.{◌≡◌, Option};
ghost use Rattle.flat_design.specs.declared.code.Store.{Store as Target};
ghost use Rattle.kernel_view.specs.LogicValues.Integers.{bits_of};
ghost use Rattle.kernel_view.specs.FifoSync.Locks as locks;
ghost use Rattle.kernel_view.specs.SimModel.Channels as channels;
ghost use Rattle.kernel_view.specs.SimModel.Reading.{Here};
ghost use Rattle.kernel_view.specs.SimModel.Storing.{passes, stored_if};
ghost use Rattle.kernel_view.specs.SimModel.Values.{signed};
ghost use Rattle.kernel_view.specs.KernelState.Kernel.{IsSound};
ghost use Rattle.kernel_view.specs.KernelState.Moves.{Moves, Steps, Lives, HasStatement, IsOnTop};
ghost use Rattle.kernel_view.specs.Standings.{Everywhere};
ghost use Rattle.exec_channels.specs.Slots as slots;
ghost use Rattle.exec_channels.specs.Slots.{slot_here, kept_in};

use flat_design::{Denoted, NameUse, Store, ValueType};
use kernel_view::denoted_at;
use kernel_view::expr_eval_api::cut_to;
use kernel_view::kernel_state_api::{Kernel, pass, set_local, set_variable, top_lives};
use kernel_view::logic_values_api::Value;

/// Where a result goes, once it is known what its name stands for.
#[derive(Clone, Copy)]
pub(crate) enum Slot {
    /// Nowhere.
    Nowhere,
    /// A local variable of the innermost call, of this type.
    Local(u32, ValueType),
    /// A variable of an instance of a module, of this type.
    Variable(u32, ValueType),
}

/// The statement of the instance on top is past, and the instance has not ended.
pub(crate) fn past(k: &mut Kernel, p: u32)
    requires sound { IsSound k.old }
    requires top { IsOnTop k.old p }
    requires statement { HasStatement k.old p }
    ensures steps { Steps k.old k.new p (λ c q i r. passes c q r) }
    ensures lives { Lives k.new p }
    ensures sound { IsSound k.new }
    ensures made { k.new.made ≡ k.old.made }
{
    top_lives(k, p);
    pass(k, p);
}

/// The slot of what a name that the module declares stands for: only a variable has one.
fn slot_of(d: Denoted, t: ValueType) -> Slot
    ensures { result ≡ slots.slot_of d t }
{
    match d {
        Denoted::Variable(n) => Slot::Variable(n, t),
        Denoted::Nothing
        | Denoted::Channel(_)
        | Denoted::Event(_)
        | Denoted::Keeper(_)
        | Denoted::Memory(_)
        | Denoted::Port(_)
        | Denoted::Process(_)
        | Denoted::Socket { .. } => Slot::Nowhere,
    }
}

/// The slot of a variable, where the next statement of an instance stands.
fn slot_named(k: &Kernel, p: u32, n: NameUse, t: ValueType) -> Slot
    requires { Lives k.now p }
    ensures { Everywhere k.now p (λ h. result ≡ slots.slot_named h n t) }
{
    match n {
        NameUse::Local(i) => Slot::Local(i, t),
        NameUse::Declared(i) => slot_of(denoted_at(k, p, i), t),
    }
}

/// The same of a variable that is written or not.
pub(crate) fn slot_at(k: &Kernel, p: u32, target: Option<Store>) -> Slot
    requires { Lives k.now p }
    ensures { Everywhere k.now p (λ h. result ≡ slot_here h target) }
{
    match target {
        Some(x) => slot_named(k, p, x.name, x.value_type),
        None => Slot::Nowhere,
    }
}

/// A result goes into its slot, cut to the type of that.
fn keep(k: &mut Kernel, p: u32, slot: Slot, v: Value)
    requires sound { IsSound k.old }
    requires lives { Lives k.old p }
    ensures moves { Moves k.old k.new (λ c. kept_in c p slot v) }
    ensures lives { Lives k.new p }
    ensures sound { IsSound k.new }
    ensures made { k.new.made ≡ k.old.made }
{
    match slot {
        Slot::Nowhere => {}
        Slot::Local(n, t) => set_local(k, p, n, cut_to(t, v)),
        Slot::Variable(n, t) => set_variable(k, n, cut_to(t, v)),
    }
}

/// A result goes into the variable that is written for it.
pub(crate) fn put(k: &mut Kernel, p: u32, slot: Slot, v: Value)
    requires sound { IsSound k.old }
    requires lives { Lives k.old p }
    ensures moves { (h : Here) (x : Option Target) → slot ≡ slot_here h x → Moves k.old k.new (λ c. stored_if c p h x v) }
    ensures lives { Lives k.new p }
    ensures sound { IsSound k.new }
    ensures made { k.new.made ≡ k.old.made }
{
    keep(k, p, slot, v);
}

/// What a call answers that can fail goes into the variable that is written for it: 0 where it was done, and -1 where not.
pub(crate) fn tell(k: &mut Kernel, p: u32, slot: Slot, done: bool)
    requires sound { IsSound k.old }
    requires lives { Lives k.old p }
    ensures moves { (h : Here) (x : Option Target) → slot ≡ slot_here h x → Moves k.old k.new (λ c. channels.answered c p h x done) }
    ensures sound { IsSound k.new }
    ensures made { k.new.made ≡ k.old.made }
{
    put(k, p, slot, answer(done));
}

/// 0 where it was done, and -1 where not, as a number of 64 bits.
fn answer(done: bool) -> Value
    ensures { result ≡ signed (bits_of (locks.answer done)) }
{
    Value::Int {
        width: 64,
        bits: if done { 0 } else { u64::MAX },
    }
}
