//! What is seen of a kernel.
ghost use Rattle.std.specs.Prelude.{◌≡◌, IfOk};
ghost use Rattle.laws_runs.specs.SimModel.Configuration.{Config};
ghost use Rattle.laws_runs.specs.SimModel.Phases as spec;
ghost use Rattle.kernel_state.specs.Kernel.{StandsFor};

use flat_design::VisibleId;
use kernel_state::Kernel;
use laws_runs::logic_values_api::{Items, Value};
use std::alloc::{AllocError, Global};

/// The value of an object that has values to be seen.
fn visible_value(k: &Kernel, id: VisibleId) -> Value
    ensures { (c : Config) → StandsFor k.now c → result ≡ spec.visible_value c id }
{
    match id {
        VisibleId::Signal(n) => k.channels.signal(n),
        VisibleId::Resolved(n) => k.channels.resolved(n),
    }
}

/// The values of all objects that have values to be seen, in object order.
pub(crate) fn visible_values(alloc: Global, k: &Kernel) -> Result<Items<Value>, AllocError>
    ensures { IfOk result (λ values. (c : Config) → StandsFor k.now c → values ≡ spec.visible_values c) }
{
    let mut values = Vec::new(alloc);
    for visible in k.design.visible.as_slice() {
        values.push(visible_value(k, visible.id))?;
    }
    Ok(Items::from_vec(values))
}
