//! Where values go that a call hands back.
ghost use Rattle.std.specs.Prelude.{◌≡◌};
ghost use Rattle.exec_data.specs.SimModel.Reading.{Here};
ghost use Rattle.exec_data.specs.SimModel.Storing.{set_denoted, set_name, stored_if};
ghost use Rattle.exec_data.specs.KernelState.Kernel.{IsSound, whole_design};
ghost use Rattle.exec_data.specs.KernelState.Moves.{Moves, Lives};

use exec_data::expr_eval_api::cut_to;
use exec_data::kernel_state_api::{Kernel, set_local, set_variable};
use exec_data::kernel_view_api::denoted_in;
use exec_data::logic_values_api::Value;
use exec_data::variable_number;
use flat_design::{Denoted, NameUse, Store};

/// A value is stored in the variable that a name stands for; where it stands for none nothing is.
fn store_denoted(k: &mut Kernel, p: u32, d: Denoted, v: Value)
    requires sound { IsSound k.old }
    requires lives { Lives k.old p }
    ensures moves { Moves k.old k.new (λ c. set_denoted c d v) }
    ensures design { whole_design k.new ≡ whole_design k.old }
    ensures lives { Lives k.new p }
    ensures sound { IsSound k.new }
    ensures made { k.new.made ≡ k.old.made }
{
    match variable_number(d) {
        Some(n) => set_variable(k, n, v),
        None => {}
    }
}

/// A variable gets a value, among the names of the instance of a module of this number. What is left of the body is else as it
/// was: finished parts of it stay.
pub fn store_in(k: &mut Kernel, p: u32, home: u32, n: NameUse, v: Value)
    requires sound { IsSound k.old }
    requires lives { Lives k.old p }
    ensures moves { (h : Here) → h.config.design ≡ whole_design k.old → h.home ≡ home → Moves k.old k.new (λ c. set_name c p h n v) }
    ensures design { whole_design k.new ≡ whole_design k.old }
    ensures lives { Lives k.new p }
    ensures sound { IsSound k.new }
    ensures made { k.new.made ≡ k.old.made }
{
    match n {
        NameUse::Local(i) => set_local(k, p, i, v),
        NameUse::Declared(i) => {
            let denoted = denoted_in(&k.design, home, i);
            store_denoted(k, p, denoted, v);
        }
    }
}

/// The same of a value that is cut to the variable's type, where a variable is written for it.
pub fn store_if_in(k: &mut Kernel, p: u32, home: u32, target: Option<Store>, v: Value)
    requires sound { IsSound k.old }
    requires lives { Lives k.old p }
    ensures moves { (h : Here) → h.config.design ≡ whole_design k.old → h.home ≡ home → Moves k.old k.new (λ c. stored_if c p h target v) }
    ensures design { whole_design k.new ≡ whole_design k.old }
    ensures lives { Lives k.new p }
    ensures sound { IsSound k.new }
    ensures made { k.new.made ≡ k.old.made }
{
    match target {
        Some(target) => store_in(k, p, home, target.name, cut_to(target.value_type, v)),
        None => {}
    }
}
