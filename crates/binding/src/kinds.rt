//! What is wrong with an object: by the number of its bindings, its channels, and the initiators that lead to it.
ghost use Rattle.std.specs.Prelude.{◌≡◌, ◌≤◌, ◌<◌, ℕ, List, Some, false, length, IfOk};
ghost use Rattle.design_rules.specs.Objects.{form_at};
ghost use Rattle.design_rules.specs.Formed.{AreFormed};
ghost use Rattle.design_rules.specs.Paths.{is_end, ends_of};
ghost use Rattle.design_rules.specs.BindingFaults.{has_twice, port_fault, broken_at};
ghost use Rattle.design_rules.specs.BindingFaults as spec;
ghost use Rattle.binding.specs.Leaders.{leading_of};
ghost use Rattle.binding.specs.Known.{IsKnown};

use super::ends::KEPT;
use super::known::Known;
use super::leading::{Leading, is_nobody, is_several, leading_at};
use super::twice::{has_twice, is_reached_twice};
use design_rules::flat_design_api::{ObjectForm, Objects};
use design_rules::model_tree_api::{BoundRule, Kind};
use std::alloc::{AllocError, Global};

/// At one object the kinds are tried in this order.
fn first_broken(twice: bool, many: bool, few: bool) -> Option<Kind>
    ensures { result ≡ spec.first_broken twice many few }
{
    if twice {
        return Some(Kind::DoubleBound);
    }
    if many {
        return Some(Kind::TooMany);
    }
    if few {
        return Some(Kind::Unbound);
    }
    None
}

/// Whether so many channels are too few for a port of this size.
fn has_too_few(rule: BoundRule, size: u64, count: u64) -> bool
    ensures { result ≡ spec.has_too_few rule size count }
{
    match rule {
        BoundRule::One => count == 0,
        BoundRule::Zero => false,
        BoundRule::All => count == 0 || count < size,
    }
}

/// Whether a port has a channel twice.
fn is_bound_twice(
    alloc: Global,
    objects: &Objects,
    known: &Known,
    i: u32,
) -> Result<bool, AllocError>
    requires formed { AreFormed objects.now }
    requires known { IsKnown objects.now known.now }
    requires within { i < length objects.now.list }
    requires going { is_end (form_at objects.now i) ≡ false }
    ensures { IfOk result (λ twice. twice ≡ has_twice (ends_of objects.now i)) }
{
    let ends = known.ends.row(i);
    if ends.len() < KEPT {
        return Ok(has_twice(ends));
    }
    is_reached_twice(
        alloc,
        objects,
        &known.from,
        &known.ends,
        known.order.as_slice(),
        i,
    )
}

/// What is wrong with a port.
fn port_kind(
    alloc: Global,
    objects: &Objects,
    known: &Known,
    i: u32,
    size: u64,
    rule: BoundRule,
) -> Result<Option<Kind>, AllocError>
    requires formed { AreFormed objects.now }
    requires known { IsKnown objects.now known.now }
    requires within { i < length objects.now.list }
    requires going { is_end (form_at objects.now i) ≡ false }
    requires small { size ≤ 64 }
    ensures { IfOk result (λ kind. kind ≡ port_fault size rule (ends_of objects.now i)) }
{
    let twice = is_bound_twice(alloc, objects, known, i)?;
    let count = known.ends.row(i).len() as u64;
    Ok(first_broken(twice, size < count, has_too_few(rule, size, count)))
}

/// What is wrong with an export or an initiator that has so many bindings.
fn single_kind(count: usize) -> Option<Kind>
    ensures { result ≡ spec.single_fault count }
{
    first_broken(1 < count, false, count == 0)
}

/// What is wrong with a target that has so many bindings, and to which these initiators lead.
fn socket_kind(count: usize, leading: Leading, pass: bool) -> Option<Kind>
    ensures { (leaders : List ℕ) → leading ≡ leading_of leaders → result ≡ spec.socket_fault count leaders pass }
{
    if pass {
        return first_broken(1 < count || is_several(leading), false, count == 0);
    }
    first_broken(is_several(leading), false, is_nobody(leading))
}

/// What is wrong with the object of this number and form.
pub(crate) fn kind_at(
    alloc: Global,
    objects: &Objects,
    known: &Known,
    i: u32,
    form: ObjectForm,
) -> Result<Option<Kind>, AllocError>
    requires formed { AreFormed objects.now }
    requires known { IsKnown objects.now known.now }
    requires there { form_at objects.now i ≡ Some form }
    ensures { IfOk result (λ kind. kind ≡ broken_at objects.now i form) }
{
    match form {
        ObjectForm::Port { size, rule, .. } => port_kind(alloc, objects, known, i, size, rule),
        ObjectForm::Export { .. } | ObjectForm::Initiator { .. } => {
            Ok(single_kind(known.from.row(i).len()))
        }
        ObjectForm::Target { pass, .. } => Ok(socket_kind(
            known.from.row(i).len(),
            leading_at(known.leading.as_slice(), i),
            pass,
        )),
        ObjectForm::Instance { .. }
        | ObjectForm::Signal { .. }
        | ObjectForm::Resolved
        | ObjectForm::Clock { .. }
        | ObjectForm::Fifo { .. }
        | ObjectForm::Mutex
        | ObjectForm::Event
        | ObjectForm::Keeper
        | ObjectForm::Semaphore { .. }
        | ObjectForm::Memory { .. }
        | ObjectForm::Variable { .. }
        | ObjectForm::Process { .. } => Ok(None),
    }
}
