//! Labels that spread along blocks: each rises at most twice, so the time grows with the blocks that are come to and the targets
//! from them.
ghost use Rattle.std.specs.Prelude.{◌≡◌, ℕ, List, [], OnOk, IfOk, replicate};
ghost use Rattle.order_free.specs.Spreading as spec;
ghost use Rattle.order_free.specs.declared.users.Users.TheVariants as users;
ghost use Rattle.order_free.specs.declared.roots.Root.{Root as Begun};

use super::roots::Root;
use super::users::{Users, is_within, joined};
use crate::BlockPart;
use std::alloc::{AllocError, Global};

pub(crate) fn label_at(labels: &[Users], n: u32) -> Users
    ensures { result ≡ spec.label_at labels.now n }
{
    match labels.get(n as usize) {
        Some(label) => *label,
        None => Users::Many,
    }
}

/// The blocks to which a block leads.
fn targets_of(parts: &[BlockPart], n: u32) -> &[u32]
    ensures { result.now ≡ spec.targets_at parts.now n }
{
    match parts.get(n as usize) {
        Some(part) => part.targets.as_slice(),
        None => &[],
    }
}

/// A block gets these users; it is listed if its label rises.
fn raise(
    x: Users,
    n: u32,
    labels: &mut Vec<Users>,
    listing: &mut Vec<u32>,
) -> Result<(), AllocError>
    ensures { OnOk result ((labels.new.items, listing.new.items) ≡ spec.raise x n (labels.old.items, listing.old.items)) }
{
    let before = label_at(labels.as_slice(), n);
    if !is_within(x, before) {
        labels[n as usize] = joined(before, x);
        listing.push(n)?;
    }
    Ok(())
}

fn raise_all(
    x: Users,
    blocks: &[u32],
    labels: &mut Vec<Users>,
    listing: &mut Vec<u32>,
) -> Result<(), AllocError>
    ensures { OnOk result ((labels.new.items, listing.new.items) ≡ spec.raise_all x blocks.now (labels.old.items, listing.old.items)) }
{
    for n in blocks {
        raise(x, *n, labels, listing)?;
    }
    Ok(())
}

fn raise_roots(
    roots: &[Root],
    labels: &mut Vec<Users>,
    listing: &mut Vec<u32>,
) -> Result<(), AllocError>
    ensures { OnOk result ((labels.new.items, listing.new.items) ≡ spec.raise_roots roots.now (labels.old.items, listing.old.items)) }
{
    for root in roots {
        raise(Users::One(root.process), root.block, labels, listing)?;
    }
    Ok(())
}

/// Follows the targets of the blocks that are listed, until the list has ended.
fn follow(
    parts: &[BlockPart],
    labels: &mut Vec<Users>,
    listing: &mut Vec<u32>,
) -> Result<(), AllocError>
    ensures { OnOk result ((roots : List Begun) → spec.IsUnderWay parts.now roots 0 (labels.old.items, listing.old.items) → spec.AreLabels parts.now roots labels.new.items listing.new.items) }
{
    let mut i = 0;
    while i < listing.len() {
        let n = listing[i];
        let x = label_at(labels.as_slice(), n);
        raise_all(x, targets_of(parts, n), labels, listing)?;
        i += 1;
    }
    Ok(())
}

/// So many labels of nobody.
pub(crate) fn no_labels(alloc: Global, count: usize) -> Result<Vec<Users>, AllocError>
    ensures { IfOk result (λ labels. labels.items ≡ replicate count users.Nobody) }
{
    vec![in alloc; Users::Nobody; count]
}

/// Labels the blocks to which processes come that begin in these places, and lists them. No block has a label before.
pub(crate) fn spread(
    alloc: Global,
    parts: &[BlockPart],
    roots: &[Root],
    labels: &mut Vec<Users>,
) -> Result<Vec<u32>, AllocError>
    ensures { IfOk result (λ listing. spec.AreEmpty parts.now labels.old.items → spec.AreLabels parts.now roots.now labels.new.items listing.items) }
{
    let mut listing = Vec::new(alloc);
    raise_roots(roots, labels, &mut listing)?;
    follow(parts, labels, &mut listing)?;
    Ok(listing)
}

/// Takes the labels of these blocks back.
pub(crate) fn clear(blocks: &[u32], labels: &mut Vec<Users>)
    ensures { labels.new.items ≡ spec.cleared blocks.now labels.old.items }
{
    for n in blocks {
        if let Some(label) = labels.get_mut(*n as usize) {
            *label = Users::Nobody;
        }
    }
}
