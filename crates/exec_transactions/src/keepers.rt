//! Statements on quantum keepers and the global quantum (IEEE 1666-2011, clause 12 and 16.2). None takes memory.
ghost use Rattle.std.specs.Prelude.{◌≡◌, Ok, Some};
ghost use Rattle.exec_calls.specs.QuantumKeeper.Keepers.{after_inc, after_reset, with_local};
ghost use Rattle.flat_design.specs.Code.{term_of};
ghost use Rattle.exec_calls.specs.SimModel.Reading.{here, keeper_at};
ghost use Rattle.exec_calls.specs.SimModel.Storing.{passes};
ghost use Rattle.exec_calls.specs.SimModel.Transport.{do_qk_global, do_qk_inc, do_qk_reset, do_qk_set, kept, on_keeper, with_global, with_keeper};
ghost use Rattle.exec_calls.specs.KernelState.Kernel.{IsSound};
ghost use Rattle.exec_calls.specs.KernelState.Moves.{Moves, Does, Lives, HasStatement};

use exec_calls::expr_eval_api::moment;
use exec_calls::kernel_state_api::{Kernel, pass};
use exec_calls::kernel_view_api::{denoted_at, eval_at, keeper_number};
use exec_calls::sim_time_api::Time;
use flat_design::{Expr, RunFault};

/// Another global quantum.
fn set_global(k: &mut Kernel, t: Time)
    requires { IsSound k.old }
    ensures moves { Moves k.old k.new (λ c. with_global c t.0) }
    ensures sound { IsSound k.new }
    ensures made { k.new.made ≡ k.old.made }
{
    k.transactions.set_global(t);
}

/// `qk_global`: the global quantum is set (IEEE 1666-2011, clause 12).
///
/// # Errors
/// The first fault of the time, and then nothing changes.
pub fn qk_global(k: &mut Kernel, p: u32, time: &Expr) -> Result<(), RunFault>
    requires sound { IsSound k.old }
    requires lives { Lives k.old p }
    requires statement { HasStatement k.old p }
    ensures does { Does k.old k.new result p (λ c q i r. do_qk_global c q r (here c q i r) (term_of time.now)) }
    ensures sound { IsSound k.new }
    ensures made { k.new.made ≡ k.old.made }
{
    let value = eval_at(k, p, time)?;
    pass(k, p);
    set_global(k, moment(value));
    Ok(())
}

/// A time is added to the local time of the keeper of this number.
///
/// # Errors
/// A sum past 2^64 - 1 ps, and then nothing changes.
fn inc_keeper(k: &mut Kernel, p: u32, n: u32, t: Time) -> Result<(), RunFault>
    requires sound { IsSound k.old }
    requires lives { Lives k.old p }
    requires statement { HasStatement k.old p }
    ensures does { Does k.old k.new result p (λ c q i r. on_keeper (passes c q r) (keeper_at c (Some n)) (λ x. kept (passes c q r) (Some n) (after_inc x t.0))) }
    ensures sound { IsSound k.new }
    ensures made { k.new.made ≡ k.old.made }
{
    match k.transactions.inc(n, t) {
        Ok(()) => {
            pass(k, p);
            Ok(())
        }
        Err(fault) => Err(fault),
    }
}

/// The same of the keeper that a name stands for; where it stands for none nothing is added.
///
/// # Errors
/// A sum past 2^64 - 1 ps, and then nothing changes.
fn inc_named(k: &mut Kernel, p: u32, keeper: Option<u32>, t: Time) -> Result<(), RunFault>
    requires sound { IsSound k.old }
    requires lives { Lives k.old p }
    requires statement { HasStatement k.old p }
    ensures does { Does k.old k.new result p (λ c q i r. on_keeper (passes c q r) (keeper_at c keeper) (λ x. kept (passes c q r) keeper (after_inc x t.0))) }
    ensures sound { IsSound k.new }
    ensures made { k.new.made ≡ k.old.made }
{
    match keeper {
        Some(n) => inc_keeper(k, p, n, t),
        None => {
            pass(k, p);
            Ok(())
        }
    }
}

/// `qk_inc`: a time is added to the local time of a keeper (IEEE 1666-2011, 16.2).
///
/// # Errors
/// The first fault of the time, then that the sum is past 2^64 - 1 ps; then nothing changes.
pub fn qk_inc(k: &mut Kernel, p: u32, n: u32, time: &Expr) -> Result<(), RunFault>
    requires sound { IsSound k.old }
    requires lives { Lives k.old p }
    requires statement { HasStatement k.old p }
    ensures does { Does k.old k.new result p (λ c q i r. do_qk_inc c q r (here c q i r) n (term_of time.now)) }
    ensures sound { IsSound k.new }
    ensures made { k.new.made ≡ k.old.made }
{
    let value = eval_at(k, p, time)?;
    let keeper = keeper_number(denoted_at(k, p, n));
    inc_named(k, p, keeper, moment(value))
}

/// The local time of the keeper of this number is set.
fn set_keeper(k: &mut Kernel, p: u32, n: u32, t: Time)
    requires sound { IsSound k.old }
    requires lives { Lives k.old p }
    requires statement { HasStatement k.old p }
    ensures does { Does k.old k.new (Ok tt) p (λ c q i r. on_keeper (passes c q r) (keeper_at c (Some n)) (λ x. Ok (with_keeper (passes c q r) (Some n) (with_local x t.0)))) }
    ensures sound { IsSound k.new }
    ensures made { k.new.made ≡ k.old.made }
{
    k.transactions.set_local(n, t);
    pass(k, p);
}

/// The same of the keeper that a name stands for; where it stands for none nothing is set.
fn set_named(k: &mut Kernel, p: u32, keeper: Option<u32>, t: Time)
    requires sound { IsSound k.old }
    requires lives { Lives k.old p }
    requires statement { HasStatement k.old p }
    ensures does { Does k.old k.new (Ok tt) p (λ c q i r. on_keeper (passes c q r) (keeper_at c keeper) (λ x. Ok (with_keeper (passes c q r) keeper (with_local x t.0)))) }
    ensures sound { IsSound k.new }
    ensures made { k.new.made ≡ k.old.made }
{
    match keeper {
        Some(n) => set_keeper(k, p, n, t),
        None => pass(k, p),
    }
}

/// `qk_set`: the local time of a keeper is set (IEEE 1666-2011, 16.2).
///
/// # Errors
/// The first fault of the time, and then nothing changes.
pub fn qk_set(k: &mut Kernel, p: u32, n: u32, time: &Expr) -> Result<(), RunFault>
    requires sound { IsSound k.old }
    requires lives { Lives k.old p }
    requires statement { HasStatement k.old p }
    ensures does { Does k.old k.new result p (λ c q i r. do_qk_set c q r (here c q i r) n (term_of time.now)) }
    ensures sound { IsSound k.new }
    ensures made { k.new.made ≡ k.old.made }
{
    let value = eval_at(k, p, time)?;
    let keeper = keeper_number(denoted_at(k, p, n));
    set_named(k, p, keeper, moment(value));
    Ok(())
}

/// The keeper of this number begins anew.
///
/// # Errors
/// A sync point past 2^64 - 1 ps, and then nothing changes.
fn reset_keeper(k: &mut Kernel, p: u32, n: u32) -> Result<(), RunFault>
    requires sound { IsSound k.old }
    requires lives { Lives k.old p }
    requires statement { HasStatement k.old p }
    ensures does { Does k.old k.new result p (λ c q i r. on_keeper (passes c q r) (keeper_at c (Some n)) (λ x. kept (passes c q r) (Some n) (after_reset c.quantum.global c.cycle.now))) }
    ensures sound { IsSound k.new }
    ensures made { k.new.made ≡ k.old.made }
{
    match k.transactions.reset(n, k.cycle.now) {
        Ok(()) => {
            pass(k, p);
            Ok(())
        }
        Err(fault) => Err(fault),
    }
}

/// The same of the keeper that a name stands for; where it stands for none nothing changes.
///
/// # Errors
/// A sync point past 2^64 - 1 ps, and then nothing changes.
fn reset_named(k: &mut Kernel, p: u32, keeper: Option<u32>) -> Result<(), RunFault>
    requires sound { IsSound k.old }
    requires lives { Lives k.old p }
    requires statement { HasStatement k.old p }
    ensures does { Does k.old k.new result p (λ c q i r. on_keeper (passes c q r) (keeper_at c keeper) (λ x. kept (passes c q r) keeper (after_reset c.quantum.global c.cycle.now))) }
    ensures sound { IsSound k.new }
    ensures made { k.new.made ≡ k.old.made }
{
    match keeper {
        Some(n) => reset_keeper(k, p, n),
        None => {
            pass(k, p);
            Ok(())
        }
    }
}

/// `qk_reset`: the local time of a keeper is set to 0, and its next sync point to the current time and what is left of the
/// global quantum there (IEEE 1666-2011, 16.2).
///
/// # Errors
/// A sync point past 2^64 - 1 ps, and then nothing changes.
pub fn qk_reset(k: &mut Kernel, p: u32, n: u32) -> Result<(), RunFault>
    requires sound { IsSound k.old }
    requires lives { Lives k.old p }
    requires statement { HasStatement k.old p }
    ensures does { Does k.old k.new result p (λ c q i r. do_qk_reset c q r (here c q i r) n) }
    ensures sound { IsSound k.new }
    ensures made { k.new.made ≡ k.old.made }
{
    let keeper = keeper_number(denoted_at(k, p, n));
    reset_named(k, p, keeper)
}
