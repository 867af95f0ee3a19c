//! How many initiators lead to each socket.
ghost use Rattle.std.specs.Prelude.{◌≡◌, IfOk};
ghost use Rattle.design_rules.specs.Objects.{bindings_to};
ghost use Rattle.design_rules.specs.Formed.{AreFormed};
ghost use Rattle.binding.specs.Rows.{AreRows};
ghost use Rattle.binding.specs.Order.{IsOrder};
ghost use Rattle.binding.specs.Leaders as spec;

use super::forms::is_beginning;
use super::rows::Rows;
use design_rules::flat_design_api::{Binding, Objects};
use std::alloc::{AllocError, Global};

/// The initiators that lead to a socket, as far as they are told apart.
#[derive(Clone, Copy)]
pub(crate) enum Leading {
    /// None does.
    Nobody,
    /// One does, by its number among the objects.
    One(u32),
    /// At least two do.
    Several,
}

/// Those of two lists, one behind the other.
fn both(first: Leading, second: Leading) -> Leading
    ensures { result ≡ spec.both first second }
{
    match first {
        Leading::Nobody => second,
        Leading::Several => Leading::Several,
        Leading::One(x) => match second {
            Leading::One(y) if y != x => Leading::Several,
            Leading::Nobody | Leading::One(_) => Leading::One(x),
            Leading::Several => Leading::Several,
        },
    }
}

pub(crate) fn is_nobody(leading: Leading) -> bool
    ensures { result ≡ spec.is_nobody leading }
{
    match leading {
        Leading::Nobody => true,
        Leading::One(_) | Leading::Several => false,
    }
}

pub(crate) fn is_several(leading: Leading) -> bool
    ensures { result ≡ spec.is_several leading }
{
    match leading {
        Leading::Several => true,
        Leading::Nobody | Leading::One(_) => false,
    }
}

/// What is known of an object.
pub(crate) fn leading_at(known: &[Leading], i: u32) -> Leading
    ensures { result ≡ spec.leading_at known.now i }
{
    match known.get(i as usize) {
        Some(leading) => *leading,
        None => Leading::Nobody,
    }
}

/// Who leads on from a left end: itself where it is an initiator without `pass`, and else who leads to it.
fn led_by(objects: &Objects, known: &[Leading], left: u32) -> Leading
    ensures { result ≡ spec.led_by objects.now (spec.leading_at known.now) left }
{
    if is_beginning(objects, left) {
        return Leading::One(left);
    }
    leading_at(known, left)
}

/// Who leads on through bindings.
fn through(objects: &Objects, known: &[Leading], links: &[Binding]) -> Leading
    ensures { result ≡ spec.led_through objects.now (spec.leading_at known.now) links.now }
{
    let mut found = Leading::Nobody;
    for b in links {
        found = both(found, led_by(objects, known, b.left));
    }
    found
}

/// How many initiators lead to each object.
pub(crate) fn all_leading(
    alloc: Global,
    objects: &Objects,
    to: &Rows<Binding>,
    order: &[u32],
) -> Result<Vec<Leading>, AllocError>
    requires formed { AreFormed objects.now }
    requires linked { AreRows (bindings_to objects.now) to.now }
    requires ordered { IsOrder objects.now order.now }
    ensures { IfOk result (λ known. spec.AreLed objects.now known.items) }
{
    let mut known = vec![in alloc; Leading::Nobody; objects.list.as_slice().len()]?;
    for k in (0..order.len()).rev() {
        let i = order[k];
        let found = through(objects, known.as_slice(), to.row(i));
        known[i as usize] = found;
    }
    Ok(known)
}
