//! Where the processes of each instance begin.
ghost use Rattle.std.specs.Prelude.{◌≡◌, ◌<◌, ◌++◌, ◌∷◌, [], OnOk, IfOk, length, replicate, slice_set, slice_get, option_map, ◌+◌, Some};
ghost use Rattle.flat_design.specs.Code.{arena_of, body_at};
ghost use Rattle.flat_design.specs.declared.code.CodeBody.{CodeBody};
ghost use Rattle.order_free.specs.Roots as spec;

use flat_design::logic_values_api::Items;
use flat_design::{Design, ProcessPart};
use std::alloc::{AllocError, Global};

/// Where a process begins.
#[derive(Clone, Copy)]
pub struct Root {
    /// The process, by its serial.
    pub process: usize,
    /// The block of its body.
    pub block: u32,
}

fn no_roots(alloc: Global, count: usize) -> Result<Vec<Items<Root>>, AllocError>
    ensures { IfOk result (λ rows. rows.items ≡ replicate count []) }
{
    let mut rows = Vec::new(alloc);
    for _ in 0..count {
        rows.push(Items::new(alloc))?;
    }
    Ok(rows)
}

/// The block of the body of a process.
fn first_block(design: &Design, part: &ProcessPart) -> Option<u32>
    ensures { result ≡ option_map (λ (b : CodeBody). b.block) (body_at (arena_of design.now.code) part.now.code) }
{
    match design.code.bodies.as_slice().get(part.code as usize) {
        None => None,
        Some(body) => Some(body.block),
    }
}

/// The instance of a process; all that are in none count as one more.
fn home_of(design: &Design, part: &ProcessPart) -> usize
    ensures { result ≡ spec.home_of design.now part.now }
{
    (part.home as usize).min(design.instances.as_slice().len())
}

/// Puts a place to begin behind those of its instance.
fn add_root(rows: &mut Vec<Items<Root>>, home: usize, root: Root) -> Result<(), AllocError>
    requires { home < length rows.old.items }
    ensures { OnOk result (rows.new.items ≡ slice_set rows.old.items home (spec.roots_at rows.old.items home ++ root ∷ [])) }
{
    rows[home].push(root)?;
    Ok(())
}

/// Puts where a process begins behind the places of the others of its instance, where its code has this body.
fn add_process(
    design: &Design,
    p: usize,
    part: &ProcessPart,
    rows: &mut Vec<Items<Root>>,
) -> Result<(), AllocError>
    requires found { slice_get design.now.processes p ≡ Some part.now }
    requires before { spec.AreRoots design.now p rows.old.items }
    ensures { OnOk result (spec.AreRoots design.now (p + 1) rows.new.items) }
{
    match first_block(design, part) {
        None => Ok(()),
        Some(block) => add_root(rows, home_of(design, part), Root { process: p, block }),
    }
}

/// Where all processes begin, instance by instance.
pub(crate) fn roots_of(alloc: Global, design: &Design) -> Result<Vec<Items<Root>>, AllocError>
    ensures { IfOk result (λ rows. spec.AreRoots design.now (length design.now.processes) rows.items) }
{
    let mut rows = no_roots(alloc, design.instances.as_slice().len() + 1)?;
    for (p, part) in design.processes.as_slice().iter().enumerate() {
        add_process(design, p, part, &mut rows)?;
    }
    Ok(rows)
}
