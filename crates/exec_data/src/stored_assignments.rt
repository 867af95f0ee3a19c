//! Assignments.
ghost use Rattle.std.specs.Prelude.{◌≡◌, Ok};
ghost use Rattle.flat_design.specs.Code as code;
ghost use Rattle.flat_design.specs.Code.{term_of, destination_term};
ghost use Rattle.flat_design.specs.declared.names.NameUse.TheVariants as name_use;
ghost use Rattle.kernel_view.specs.SimModel.Reading.{Here, here, val};
ghost use Rattle.kernel_view.specs.SimModel.Storing.{passes, set_name, do_assign};
ghost use Rattle.kernel_view.specs.SimModel.Values as values;
ghost use Rattle.kernel_view.specs.SimModel.Values.{on_ok};
ghost use Rattle.kernel_view.specs.KernelState.Kernel.{IsSound};
ghost use Rattle.kernel_view.specs.KernelState.Moves.{Does, Lives, HasStatement, IsOnTop};
ghost use Rattle.kernel_view.specs.Standings.{Everywhere, ShowsHere};
ghost use Rattle.exec_data.specs.Assigned.{to_assign};

use crate::assignments::{assign_field, assign_name, assign_payload_byte};
use crate::elements::assign_element;
use crate::storing::store_denoted;
use flat_design::{
    Denoted, Destination, Expr, NameUse, PayloadBytes, PayloadField, RunFault, Store, ValueType,
};
use kernel_view::expr_eval_api::{cut_to, eval};
use kernel_view::kernel_state_api::{Kernel, top_lives};
use kernel_view::logic_values_api::Value;
use kernel_view::{Standing, eval_at, standing_at};

/// What is assigned to a variable of the module.
#[derive(Clone, Copy)]
pub(crate) struct Assigned {
    /// The value.
    pub value: Value,
    /// What the name of the variable stands for.
    pub to: Denoted,
}

/// What is assigned to a variable of the module, where the assignment stands.
///
/// # Errors
/// The fault of its expression.
#[inline(always)]
fn assigned_from(x: &Standing, n: u32, e: &Expr) -> Result<Assigned, RunFault>
    ensures { (h : Here) → ShowsHere x.now h → result ≡ to_assign h n (term_of e.now) }
{
    match eval(x, e) {
        Ok(value) => Ok(Assigned {
            value,
            to: x.denotes(n),
        }),
        Err(fault) => Err(fault),
    }
}

/// What is assigned to a variable of the module.
///
/// # Errors
/// The fault of its expression.
#[inline(always)]
fn what_is_assigned(k: &Kernel, p: u32, n: u32, e: &Expr) -> Result<Assigned, RunFault>
    requires { Lives k.now p }
    ensures { Everywhere k.now p (λ h. result ≡ to_assign h n (term_of e.now)) }
{
    match standing_at(k, p) {
        Some(x) => assigned_from(&x, n, e),
        None => Err(RunFault::EmptyHandle),
    }
}

/// An assignment to a variable of the module. Where it stands is looked up once, for the value and for the variable.
fn assign_declared(k: &mut Kernel, p: u32, n: u32, t: ValueType, e: &Expr) -> Result<(), RunFault>
    requires sound { IsSound k.old }
    requires top { IsOnTop k.old p }
    requires statement { HasStatement k.old p }
    ensures does { Does k.old k.new result p (λ c q i r. on_ok (val (here c q i r) (term_of e.now)) (λ v. Ok (set_name (passes c q r) q (here c q i r) (name_use.Declared n) (values.cut_to t v)))) }
    ensures sound { IsSound k.new }
    ensures made { k.new.made ≡ k.old.made }
{
    top_lives(k, p);
    match what_is_assigned(k, p, n, e) {
        Ok(x) => {
            store_denoted(k, p, x.to, cut_to(t, x.value));
            Ok(())
        }
        Err(fault) => Err(fault),
    }
}

/// An assignment to a variable.
#[inline(always)]
fn assign_to_name(k: &mut Kernel, p: u32, target: Store, e: &Expr) -> Result<(), RunFault>
    requires sound { IsSound k.old }
    requires top { IsOnTop k.old p }
    requires statement { HasStatement k.old p }
    ensures does { Does k.old k.new result p (λ c q i r. do_assign c q r (here c q i r) (code.to_name target) (term_of e.now)) }
    ensures sound { IsSound k.new }
    ensures made { k.new.made ≡ k.old.made }
{
    top_lives(k, p);
    match target.name {
        NameUse::Local(_) => {
            let value = eval_at(k, p, e);
            assign_name(k, p, target, value)
        }
        NameUse::Declared(n) => assign_declared(k, p, n, target.value_type, e),
    }
}

/// An assignment to a field of a payload.
#[inline(never)]
fn assign_to_field(
    k: &mut Kernel,
    p: u32,
    n: NameUse,
    field: PayloadField,
    e: &Expr,
) -> Result<(), RunFault>
    requires sound { IsSound k.old }
    requires top { IsOnTop k.old p }
    requires statement { HasStatement k.old p }
    ensures does { Does k.old k.new result p (λ c q i r. do_assign c q r (here c q i r) (code.to_field n field) (term_of e.now)) }
    ensures sound { IsSound k.new }
    ensures made { k.new.made ≡ k.old.made }
{
    top_lives(k, p);
    let value = eval_at(k, p, e);
    assign_field(k, p, n, field, value)
}

/// An assignment to a byte of a payload.
#[inline(never)]
fn assign_to_byte(
    k: &mut Kernel,
    p: u32,
    n: NameUse,
    part: PayloadBytes,
    index: &Expr,
    e: &Expr,
) -> Result<(), RunFault>
    requires sound { IsSound k.old }
    requires top { IsOnTop k.old p }
    requires statement { HasStatement k.old p }
    ensures does { Does k.old k.new result p (λ c q i r. do_assign c q r (here c q i r) (code.to_payload_byte n part (term_of index.now)) (term_of e.now)) }
    ensures sound { IsSound k.new }
    ensures made { k.new.made ≡ k.old.made }
{
    top_lives(k, p);
    let i = eval_at(k, p, index);
    let value = eval_at(k, p, e);
    assign_payload_byte(k, p, n, part, i, value)
}

/// An assignment to a variable, a field of a payload, an element of a memory, or a byte of a payload. It takes no memory.
///
/// # Errors
/// The fault of its index, where it has one, and then that of its expression; an empty handle; a payload that was freed; an
/// index past the last byte. Then nothing changes.
#[inline(always)]
pub fn assign(k: &mut Kernel, p: u32, to: &Destination, e: &Expr) -> Result<(), RunFault>
    requires sound { IsSound k.old }
    requires top { IsOnTop k.old p }
    requires statement { HasStatement k.old p }
    ensures does { Does k.old k.new result p (λ c q i r. do_assign c q r (here c q i r) (destination_term to.now) (term_of e.now)) }
    ensures sound { IsSound k.new }
    ensures made { k.new.made ≡ k.old.made }
{
    top_lives(k, p);
    match to {
        Destination::Name(target) => assign_to_name(k, p, *target, e),
        Destination::Field(n, field) => assign_to_field(k, p, *n, *field, e),
        Destination::Element(n, index) => assign_element(k, p, *n, index, e),
        Destination::PayloadByte(n, part, index) => assign_to_byte(k, p, *n, *part, index, e),
    }
}
