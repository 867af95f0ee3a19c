//! Why a statement is not carried out.
ghost use Rattle.std.specs.Prelude.{◌≡◌};
ghost use Rattle.kernel_state.specs.declared.stops.StatementStop.TheVariants as stop;

use kernel_processes::flat_design_api::RunFault;
use std::alloc::AllocError;

/// Why a statement that may take memory is not carried out.
#[derive(Clone, Copy)]
pub enum StatementStop {
    /// The run is at fault.
    Fault(RunFault),
    /// There is no memory.
    NoMemory,
}

impl From<RunFault> for StatementStop {
    ghost from_gives = { λ fault e. e ≡ stop.Fault fault };

    fn from(fault: RunFault) -> StatementStop {
        StatementStop::Fault(fault)
    }
}

impl From<AllocError> for StatementStop {
    ghost from_gives = { λ _ e. e ≡ stop.NoMemory };

    fn from(_refusal: AllocError) -> StatementStop {
        StatementStop::NoMemory
    }
}
