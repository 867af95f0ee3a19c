//! Instance by instance.
ghost use Rattle.std.specs.Prelude.{◌≡◌, ◌+◌, ℕ, OnOk, IfOk, length, Contains};
ghost use Rattle.flat_design.specs.Code.{arena_of};
ghost use Rattle.order_free.specs.Blocks.{ArePartsOf};
ghost use Rattle.order_free.specs.declared.uses.Use.{Use as Used};
ghost use Rattle.order_free.specs.Free.{Says};
ghost use Rattle.order_free.specs.Roots as roots;
ghost use Rattle.order_free.specs.Roots.{TellsSensitivity, TellsHomes, Tells};
ghost use Rattle.order_free.specs.Tables.{users_at};
ghost use Rattle.order_free.specs.Spreading.{AreEmpty};
ghost use Rattle.order_free.specs.declared.users.Users.TheVariants as users;

use super::notes::{note_blocks, note_events};
use super::roots::{Root, roots_of};
use super::spreading::{clear, no_labels, spread};
use super::tables::{Tables, no_users};
use super::users::Users;
use super::verdicts::{Verdict, verdict_of};
use crate::{BlockPart, block_parts};
use flat_design::Design;
use flat_design::logic_values_api::Items;
use std::alloc::{AllocError, Global};

/// Notes what the static sensitivities of all processes use.
fn note_sensitivities(design: &Design, tables: &mut Tables) -> Result<(), AllocError>
    requires { (u : Used) → users_at tables.old u ≡ users.Nobody }
    ensures { OnOk result (TellsSensitivity design.now (length design.now.processes) tables.new) }
{
    for (p, part) in design.processes.as_slice().iter().enumerate() {
        note_events(part.sensitive.as_slice(), Users::One(p), tables)?;
    }
    Ok(())
}

/// Notes what the processes of an instance use, which begin in these places.
fn note_home(
    alloc: Global,
    design: &Design,
    home: usize,
    parts: &[BlockPart],
    begun: &[Root],
    labels: &mut Vec<Users>,
    tables: &mut Tables,
) -> Result<(), AllocError>
    requires parts { ArePartsOf (arena_of design.now.code) parts.now }
    requires begun { roots.AreRootsOf design.now home begun.now }
    requires empty { AreEmpty parts.now labels.old.items }
    requires told { TellsHomes design.now home tables.old }
    ensures empty { OnOk result (AreEmpty parts.now labels.new.items) }
    ensures told { OnOk result (TellsHomes design.now (home + 1) tables.new) }
{
    let listing = spread(alloc, parts, begun, labels)?;
    note_blocks(
        design,
        home,
        parts,
        labels.as_slice(),
        listing.as_slice(),
        tables,
    )?;
    clear(listing.as_slice(), labels);
    Ok(())
}

/// Notes what the processes of all instances use.
fn note_homes(
    alloc: Global,
    design: &Design,
    parts: &[BlockPart],
    rows: &[Items<Root>],
    tables: &mut Tables,
) -> Result<(), AllocError>
    requires parts { ArePartsOf (arena_of design.now.code) parts.now }
    requires rows { roots.AreRoots design.now (length design.now.processes) rows.now }
    requires told { TellsSensitivity design.now (length design.now.processes) tables.old }
    ensures { OnOk result (Tells design.now tables.new) }
{
    let mut labels = no_labels(alloc, parts.len())?;
    for home in 0..rows.len() {
        note_home(
            alloc,
            design,
            home,
            parts,
            rows[home].as_slice(),
            &mut labels,
            tables,
        )?;
    }
    Ok(())
}

/// Whether a design keeps the rule on the order of its processes. Each process counts with all that it reaches through
/// calls, whatever the conditions on the way, and with its static sensitivity. The answer is yes, or the first part of the
/// rule that is broken:
///
/// 1. no process reaches what acts at once on others or is shared by nature;
/// 2. none asks for a member of a process, or for what is available or free in a fifo;
/// 3. each variable and each memory is used by one process at most, and so are all keepers and the global quantum together;
/// 4. each signal and buffer is written by one process at most, each fifo read by one and written by one;
/// 5. an event that is cancelled is notified and cancelled by one process.
///
/// The time grows with the objects, and with the code that each instance of a module reaches.
pub fn order_free(alloc: Global, design: &Design) -> Result<Verdict, AllocError>
    ensures { IfOk result (Says design.now) }
{
    let parts = block_parts(alloc, &design.code)?;
    let rows = roots_of(alloc, design)?;
    let mut tables = no_users(alloc);
    note_sensitivities(design, &mut tables)?;
    note_homes(
        alloc,
        design,
        parts.as_slice(),
        rows.as_slice(),
        &mut tables,
    )?;
    Ok(verdict_of(&tables))
}
