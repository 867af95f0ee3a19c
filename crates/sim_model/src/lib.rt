//! What a run is, for the whole language: configurations, steps, whole runs, their end and their texts, as definitions
//! that contracts cite. The plain types that these definitions share with the code stand here too.
#![tactic(auto)]

mod plain;

pub use plain::{Command, Goal, Log, Phase, Rule, Stop, Via};

/// What is passed on of event_core.
pub mod event_core_api {
    pub use flat_design::event_core_api::{Effect, Ev, Events, Pending, When, same_event};
}

/// What is passed on of fifo_sync.
pub mod fifo_sync_api {
    pub use fifo_sync::{Fifo, Mutex, Semaphore};
}

/// What is passed on of flat_design.
pub mod flat_design_api {
    pub use flat_design::{
        BlockId, Choices, Code, CodeBody, CodeId, Design, FifoPart, Handler, Local, MemoryPart,
        NameId, Object, ObjectForm, PayloadBytes, PayloadField, ProcessPart, ResolvedPart,
        RunFault, SemaphorePart, SignalPart, Statement, StmtId, ValueType, VariablePart, Visible,
        VisibleId, default_value,
    };
}

/// What is passed on of logic_values.
pub mod logic_values_api {
    pub use payload_pool::logic_values_api::{
        Bytes, Digit, Items, Lv, Sign, Text, Value, add, and, concat, cut, digit, div, is_same, lt,
        mul, not, or, rem, shl, shr, slice, sub, value_text, vector_of_digits, xor,
    };
}

/// What is passed on of model_tree.
pub mod model_tree_api {
    pub use flat_design::model_tree_api::{
        BinaryOp, Control, PrintText, ProcessKind, SignalKind, UnaryOp,
    };
}

/// What is passed on of payload_pool.
pub mod payload_pool_api {
    pub use payload_pool::{Bytes, INCOMPLETE, MAX_BYTES, MakeStop, Payload, Pool, carry};
}

/// What is passed on of quantum_keeper.
pub mod quantum_keeper_api {
    pub use quantum_keeper::{Keeper, local_quantum};
}

/// What is passed on of signal_channel.
pub mod signal_channel_api {
    pub use signal_channel::{Changed, Policy, Resolved, Signal, WriterConflict};
}

/// What is passed on of sim_time.
pub mod sim_time_api {
    pub use quantum_keeper::sim_time_api::{Time, Unit, add, picoseconds_of, sub, times};
}

/// What is passed on of transport_phases.
pub mod transport_phases_api {
    pub use transport_phases::{Hop, Path, Rule};
}

/// What is passed on of numbered_slots.
pub mod numbered_slots_api {
    pub use payload_pool::numbered_slots_api::{Marks, only_marked_places_rise};
}
