//! Whom a control call reaches that is for an instance and its descendants (IEEE 1666-2011, 5.6.6, SC_INCLUDE_DESCENDANTS).
ghost use Rattle.std.specs.Prelude.{◌≡◌, ◌==◌, [], ◌∷◌, IfOk, OnOk, not, reverse};
ghost use Rattle.std.specs.FinMap as map;
ghost use Rattle.kernel_processes.specs.SimModel.Configuration.{Config};
ghost use Rattle.kernel_processes.specs.SimModel.Control as spec;
ghost use Rattle.kernel_state.specs.Kernel.{StandsFor};
ghost use Rattle.kernel_state.specs.Added.{added_if, all_added};

use crate::control::lives;
use crate::kernel::Kernel;
use kernel_processes::is_active;
use process_bodies::with_descendants;
use std::alloc::{AllocError, Global};

/// One more at the end of a list, if it is one of those that are asked for.
fn add_if(found: &mut Vec<u32>, n: u32, is_one: bool) -> Result<(), AllocError>
    ensures { OnOk result (found.new.items ≡ added_if is_one n found.old.items) }
{
    if !is_one {
        return Ok(());
    }
    found.push(n)?;
    Ok(())
}

/// Those of a list that have not ended.
fn living(k: &Kernel, alloc: Global, serials: &[u32]) -> Result<Vec<u32>, AllocError>
    ensures { IfOk result (λ found. found.items ≡ all_added (λ n. map.contains_key k.now.schedule.table.live n) serials.now []) }
{
    let mut found = Vec::new(alloc);
    for n in serials {
        add_if(&mut found, *n, lives(k, *n))?;
    }
    Ok(found)
}

/// This one, and then all others of a list.
fn behind(alloc: Global, serials: &[u32], p: u32) -> Result<Vec<u32>, AllocError>
    ensures { IfOk result (λ found. found.items ≡ all_added (λ n. not (n == p)) serials.now (p ∷ [])) }
{
    let mut found = Vec::new(alloc);
    found.push(p)?;
    for n in serials {
        add_if(&mut found, *n, *n != p)?;
    }
    Ok(found)
}

/// A list that is read from behind, in which this one comes last, if it is in it.
fn last_of_all(alloc: Global, serials: Vec<u32>, p: u32) -> Result<Vec<u32>, AllocError>
    ensures { IfOk result (λ found. reverse found.items ≡ spec.last_if (reverse serials.items) p) }
{
    if !is_active(serials.as_slice(), p) {
        return Ok(serials);
    }
    let found = behind(alloc, serials.as_slice(), p)?;
    Ok(found)
}

/// Whom a call of instance `p` reaches that is for instance `q` and its descendants, the last of them first in the list: nobody
/// where `q` has ended. It is made in one pass over the serials above `q`.
pub fn targets(k: &Kernel, alloc: Global, q: u32, p: u32) -> Result<Vec<u32>, AllocError>
    ensures { IfOk result (λ found. (c : Config) → StandsFor k.now c → reverse found.items ≡ spec.targets c q p) }
{
    if !lives(k, q) {
        return Ok(Vec::new(alloc));
    }
    let all = with_descendants(alloc, k.parents.as_slice(), q)?;
    let found = living(k, alloc, all.as_slice())?;
    let reached = last_of_all(alloc, found, p)?;
    Ok(reached)
}
