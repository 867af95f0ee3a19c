//! Where values go: local variables, and variables of instances of modules.
ghost use Rattle.std.specs.Prelude.{◌≡◌};
ghost use Rattle.flat_design.specs.declared.names.NameUse.TheVariants as name_use;
ghost use Rattle.kernel_view.specs.SimModel.Reading.{here};
ghost use Rattle.kernel_view.specs.SimModel.Storing as storing;
ghost use Rattle.kernel_view.specs.SimModel.Storing.{passes, set_denoted, set_name, stored};
ghost use Rattle.kernel_view.specs.KernelState.Kernel.{IsSound};
ghost use Rattle.kernel_view.specs.KernelState.Moves.{Steps, HasStatement, IsOnTop};
ghost use Rattle.exec_data.specs.Variables.{number_of};

use flat_design::{Denoted, NameUse, Store};
use kernel_view::denoted_at;
use kernel_view::expr_eval_api::cut_to;
use kernel_view::kernel_state_api::{Kernel, pass, store_variable, top_lives};
use kernel_view::logic_values_api::Value;

/// A value is stored in a local variable of the innermost call.
#[inline(always)]
pub(crate) fn store_local(k: &mut Kernel, p: u32, n: u32, v: Value)
    requires sound { IsSound k.old }
    requires top { IsOnTop k.old p }
    requires statement { HasStatement k.old p }
    ensures steps { Steps k.old k.new p (λ c q i r. storing.set_local (passes c q r) q n v) }
    ensures sound { IsSound k.new }
    ensures made { k.new.made ≡ k.old.made }
{
    top_lives(k, p);
    match k.schedule.table.get_mut(p) {
        Some(x) => {
            x.body.body.body.past(k.program);
            x.body.body.body.set_local(n as usize, v);
        }
        None => {}
    }
}

/// The variable that a name stands for.
pub fn variable_number(d: Denoted) -> Option<u32>
    ensures { result ≡ number_of d }
{
    match d {
        Denoted::Variable(n) => Some(n),
        Denoted::Nothing
        | Denoted::Channel(_)
        | Denoted::Event(_)
        | Denoted::Keeper(_)
        | Denoted::Memory(_)
        | Denoted::Port(_)
        | Denoted::Process(_)
        | Denoted::Socket { .. } => None,
    }
}

/// A value is stored in the variable that a name stands for; where it stands for none nothing is.
#[inline(always)]
pub(crate) fn store_denoted(k: &mut Kernel, p: u32, d: Denoted, v: Value)
    requires sound { IsSound k.old }
    requires top { IsOnTop k.old p }
    requires statement { HasStatement k.old p }
    ensures steps { Steps k.old k.new p (λ c q i r. set_denoted (passes c q r) d v) }
    ensures sound { IsSound k.new }
    ensures made { k.new.made ≡ k.old.made }
{
    top_lives(k, p);
    match variable_number(d) {
        Some(n) => store_variable(k, p, n, v),
        None => pass(k, p),
    }
}

/// A value is stored in a variable that the module declares.
fn store_declared(k: &mut Kernel, p: u32, n: u32, v: Value)
    requires sound { IsSound k.old }
    requires top { IsOnTop k.old p }
    requires statement { HasStatement k.old p }
    ensures steps { Steps k.old k.new p (λ c q i r. set_name (passes c q r) q (here c q i r) (name_use.Declared n) v) }
    ensures sound { IsSound k.new }
    ensures made { k.new.made ≡ k.old.made }
{
    top_lives(k, p);
    let d = denoted_at(k, p, n);
    store_denoted(k, p, d, v);
}

/// A value is stored in a variable.
#[inline(always)]
fn store_named(k: &mut Kernel, p: u32, n: NameUse, v: Value)
    requires sound { IsSound k.old }
    requires top { IsOnTop k.old p }
    requires statement { HasStatement k.old p }
    ensures steps { Steps k.old k.new p (λ c q i r. set_name (passes c q r) q (here c q i r) n v) }
    ensures sound { IsSound k.new }
    ensures made { k.new.made ≡ k.old.made }
{
    match n {
        NameUse::Local(i) => store_local(k, p, i, v),
        NameUse::Declared(i) => store_declared(k, p, i, v),
    }
}

/// A value is stored in a variable, cut to its type.
#[inline(always)]
pub fn store(k: &mut Kernel, p: u32, target: Store, v: Value)
    requires sound { IsSound k.old }
    requires top { IsOnTop k.old p }
    requires statement { HasStatement k.old p }
    ensures steps { Steps k.old k.new p (λ c q i r. stored (passes c q r) q (here c q i r) target v) }
    ensures sound { IsSound k.new }
    ensures made { k.new.made ≡ k.old.made }
{
    store_named(k, p, target.name, cut_to(target.value_type, v));
}
