//! The objects in an order in which what an object is bound to stands before it.
ghost use Rattle.std.specs.Prelude.{◌≡◌, ◌≤◌, ◌^◌, ◌<◌, length, IfOk};
ghost use Rattle.std.specs.List.Sorted.{IsNonDecreasingBy, IsPermutation};
ghost use Rattle.design_rules.specs.Formed.{AreFormed};
ghost use Rattle.binding.specs.Order.{rank_in, ranked_from, numbers_of, IsOrder};

use design_rules::flat_design_api::{Object, ObjectForm, Objects};
use std::alloc::{AllocError, Global};

/// An object with what it is ordered by.
#[derive(Clone, Copy)]
struct Ranked {
    rank: u64,
    object: u32,
}

/// What an object is ordered by, among so many.
fn rank(count: u64, object: &Object) -> u64
    requires few { count < 2 ^ 32 }
    requires within { object.now.parent ≤ count }
    ensures { result ≡ rank_in count object.now.parent object.now.form }
{
    match object.form {
        ObjectForm::Port { .. } | ObjectForm::Initiator { .. } => count + u64::from(object.parent),
        ObjectForm::Export { .. } | ObjectForm::Target { .. } => count - u64::from(object.parent),
        ObjectForm::Instance { .. }
        | ObjectForm::Signal { .. }
        | ObjectForm::Resolved
        | ObjectForm::Clock { .. }
        | ObjectForm::Fifo { .. }
        | ObjectForm::Mutex
        | ObjectForm::Event
        | ObjectForm::Keeper
        | ObjectForm::Semaphore { .. }
        | ObjectForm::Memory { .. }
        | ObjectForm::Variable { .. }
        | ObjectForm::Process { .. } => 0,
    }
}

/// Each object with its rank.
fn all_ranked(alloc: Global, objects: &Objects) -> Result<Vec<Ranked>, AllocError>
    requires { AreFormed objects.now }
    ensures { IfOk result (λ all. all.items ≡ ranked_from (length objects.now.list) 0 objects.now.list) }
{
    let list = objects.list.as_slice();
    let count = list.len() as u64;
    let mut all = Vec::new(alloc);
    for (i, object) in list.iter().enumerate() {
        all.push(Ranked {
            rank: rank(count, object),
            object: i as u32,
        })?;
    }
    Ok(all)
}

/// The objects in the order of their ranks.
fn sorted(alloc: Global, objects: &Objects) -> Result<Vec<Ranked>, AllocError>
    requires { AreFormed objects.now }
    ensures rising { IfOk result (λ all. IsNonDecreasingBy (λ r. r.rank) all.items) }
    ensures same { IfOk result (λ all. IsPermutation (ranked_from (length objects.now.list) 0 objects.now.list) all.items) }
{
    let mut all = all_ranked(alloc, objects)?;
    all.sort_by_key(|r| r.rank)?;
    Ok(all)
}

fn numbers(alloc: Global, all: &[Ranked]) -> Result<Vec<u32>, AllocError>
    ensures { IfOk result (λ order. order.items ≡ numbers_of all.now) }
{
    all.iter().map(|r| r.object).collect(alloc)
}

/// The objects, by their numbers, in an order in which what an object is bound to stands before it.
pub(crate) fn order_of(alloc: Global, objects: &Objects) -> Result<Vec<u32>, AllocError>
    requires { AreFormed objects.now }
    ensures { IfOk result (λ order. IsOrder objects.now order.items) }
{
    let all = sorted(alloc, objects)?;
    numbers(alloc, all.as_slice())
}
