//! Where each object leads, as far as it is kept.
ghost use Rattle.std.specs.Prelude.{◌≡◌, ◌≤◌, ◌++◌, length, take, IfOk, OnOk};
ghost use Rattle.std.specs.List.{flat_map};
ghost use Rattle.design_rules.specs.Objects.{bindings_of};
ghost use Rattle.design_rules.specs.Formed.{AreFormed};
ghost use Rattle.binding.specs.Rows.{row_at, AreRows};
ghost use Rattle.binding.specs.Order.{IsOrder};
ghost use Rattle.binding.specs.Ends.{kept_ends, leads};

use super::forms::is_end;
use super::rows::Rows;
use design_rules::flat_design_api::{Binding, Objects};
use design_rules::logic_values_api::Items;
use std::alloc::{AllocError, Global};

/// One more than the greatest number of channels of a port: so many are kept of an object.
pub(crate) const KEPT: usize = 65;

/// Adds ends to those that were found, as far as they are kept.
fn add_kept(found: &mut Items<u32>, ends: &[u32]) -> Result<(), AllocError>
    requires { length found.old ≤ 65 }
    ensures { OnOk result (found.new ≡ take 65 (found.old ++ ends.now)) }
{
    for end in ends {
        if found.as_slice().len() >= KEPT {
            return Ok(());
        }
        found.push(*end)?;
    }
    Ok(())
}

/// Adds where a right end leads: itself where it is an end, and else what is known of it.
fn add_leads(
    objects: &Objects,
    known: &Rows<u32>,
    right: u32,
    found: &mut Items<u32>,
) -> Result<(), AllocError>
    requires { length found.old ≤ 65 }
    ensures { OnOk result (found.new ≡ take 65 (found.old ++ leads objects.now (row_at known.now) right)) }
{
    if is_end(objects, right) {
        return add_kept(found, &[right]);
    }
    add_kept(found, known.row(right))
}

/// Where bindings lead, one after another.
fn through(
    alloc: Global,
    objects: &Objects,
    known: &Rows<u32>,
    links: &[Binding],
) -> Result<Items<u32>, AllocError>
    ensures { IfOk result (λ found. found ≡ take 65 (flat_map (λ b. leads objects.now (row_at known.now) b.right) links.now)) }
{
    let mut found = Items::new(alloc);
    for b in links {
        add_leads(objects, known, b.right, &mut found)?;
    }
    Ok(found)
}

/// Where each object leads: the channels of a port or an export, the target of an initiator.
pub(crate) fn all_ends(
    alloc: Global,
    objects: &Objects,
    from: &Rows<Binding>,
    order: &[u32],
) -> Result<Rows<u32>, AllocError>
    requires formed { AreFormed objects.now }
    requires linked { AreRows (bindings_of objects.now) from.now }
    requires ordered { IsOrder objects.now order.now }
    ensures { IfOk result (λ ends. AreRows (kept_ends objects.now) ends) }
{
    let mut ends = Rows::empty(alloc, objects.list.as_slice().len())?;
    for i in order {
        let found = through(alloc, objects, &ends, from.row(*i))?;
        ends.put(*i, found);
    }
    Ok(ends)
}
