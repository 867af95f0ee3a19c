//! The header of a trace.
ghost use Rattle.std.specs.Prelude.{◌≡◌, IfOk};
ghost use Rattle.laws_runs.specs.SimModel.Trace as spec;

use crate::lines::push_scale;
use crate::walks::{Task, Walk, tables_of, write_all};
use flat_design::Design;
use laws_runs::logic_values_api::Text;
use std::alloc::{AllocError, Global};

/// The header of the trace of a design: the time scale, which is its resolution, and the scopes of its instances in text order, each
/// with its variables, which are the objects that have values to be seen (IEEE 1364-2005, 18.2; IEEE 1666-2011, 8.1).
///
/// Where no instance stands in itself, the time that it takes grows with the objects and with the bytes of the text. Its stack does
/// not grow with how many instances stand in one another.
///
/// # Errors
/// Memory was refused.
pub fn header(alloc: Global, design: &Design) -> Result<Text, AllocError>
    ensures { IfOk result (λ text. text ≡ spec.header design.now) }
{
    let tables = tables_of(alloc, design)?;
    let mut walk = Walk {
        text: Vec::new(alloc),
        tasks: Vec::new(alloc),
    };
    push_scale(&mut walk.text, design.resolution)?;
    walk.tasks.push(Task::Visit {
        object: 0,
        levels: design.objects.list.as_slice().len(),
    })?;
    write_all(alloc, &mut walk, design, &tables)?;
    walk.text.extend_from_slice(b"$enddefinitions $end\n")?;
    Ok(Text::from_vec(walk.text))
}
