//! What there is beside the processes before the first command.
ghost use Rattle.std.specs.Prelude.{◌≡◌, [], IfOk, length, map, replicate};
ghost use Rattle.kernel_state.specs.QuantumKeeper.Keepers.{at_start};
ghost use Rattle.kernel_state.specs.FlatDesign.declared.design.VariablePart.{VariablePart as Variable};
ghost use Rattle.kernel_state.specs.FlatDesign.declared.design.MemoryPart.{MemoryPart as Memory};
ghost use Rattle.kernel_state.specs.SimModel.Configuration.{first_channels};
ghost use Rattle.kernel_start.specs.Made.{no_parents};
ghost use Rattle.kernel_state.specs.KernelTransactions.Board.{StandsForTransactions, StandsForQuantum, IsWithin};

use kernel_state::event_core_api::Pending;
use kernel_state::flat_design_api::{Design, MemoryPart, ProcessPart, VariablePart};
use kernel_state::kernel_channels_api::ChannelBoard;
use kernel_state::kernel_events_api::EventBoard;
use kernel_state::kernel_transactions_api::TransactionBoard;
use kernel_state::logic_values_api::{Bytes, Items, Value};
use std::alloc::{AllocError, Global};

/// What there is beside the processes before the first command.
#[derive(Drop)]
pub(crate) struct First {
    /// The parents of the processes, none of which was spawned.
    pub parents: Vec<Option<u32>>,
    /// What is pending for each event.
    pub events: EventBoard,
    /// The channels.
    pub channels: ChannelBoard,
    /// The transactions and the quantum keepers.
    pub transactions: TransactionBoard,
    /// The variables of instances of modules.
    pub variables: Vec<Value>,
    /// The bytes of memories.
    pub memories: Vec<Bytes>,
}

/// The parents of processes that none spawned.
fn first_parents(alloc: Global, parts: &[ProcessPart]) -> Result<Vec<Option<u32>>, AllocError>
    ensures { IfOk result (λ parents. parents.items ≡ no_parents parts.now) }
{
    let mut parents = Vec::new(alloc);
    for part in parts {
        let _ = part;
        parents.push(None)?;
    }
    Ok(parents)
}

/// The first values of variables.
fn first_values(alloc: Global, parts: &[VariablePart]) -> Result<Vec<Value>, AllocError>
    ensures { IfOk result (λ values. values.items ≡ map (λ (p : Variable). p.initial) parts.now) }
{
    let mut values = Vec::new(alloc);
    for part in parts {
        values.push(part.initial)?;
    }
    Ok(values)
}

/// The bytes of a memory, each 0.
fn zeros(alloc: Global, size: u64) -> Result<Bytes, AllocError>
    ensures { IfOk result (λ bytes. bytes ≡ replicate size 0) }
{
    let bytes = vec![in alloc; 0; size as usize]?;
    Ok(Items::from_vec(bytes))
}

/// The first bytes of memories.
fn first_bytes(alloc: Global, parts: &[MemoryPart]) -> Result<Vec<Bytes>, AllocError>
    ensures { IfOk result (λ memories. memories.items ≡ map (λ (p : Memory). replicate p.size 0) parts.now) }
{
    let mut memories = Vec::new(alloc);
    for part in parts {
        memories.push(zeros(alloc, part.size)?)?;
    }
    Ok(memories)
}

/// No payloads, nothing on any hop, and keepers at their start. Memory is wanting, too, where there are 2^32 hops or more.
fn first_transactions(alloc: Global, design: &Design) -> Result<TransactionBoard, AllocError>
    ensures transactions { IfOk result (λ b. StandsForTransactions b (record { pool = []; hops = replicate (length design.now.hops) [] })) }
    ensures quantum { IfOk result (λ b. StandsForQuantum b (record { keepers = replicate design.now.keepers at_start; global = 0 })) }
    ensures within { IfOk result (λ b. IsWithin 0 b) }
{
    match u32::try_from(design.hops.as_slice().len()) {
        Ok(hops) => match TransactionBoard::new(alloc, hops, design.keepers) {
            Ok(board) => Ok(board),
            Err(_) => Err(AllocError),
        },
        Err(_) => Err(AllocError),
    }
}

/// Nothing pending, first values, and no transactions.
pub(crate) fn first_parts(alloc: Global, design: &Design) -> Result<First, AllocError>
    ensures parents { IfOk result (λ f. f.parents.items ≡ no_parents design.now.processes) }
    ensures events { IfOk result (λ f. f.events ≡ replicate design.now.events Pending.Nothing) }
    ensures channels { IfOk result (λ f. f.channels ≡ first_channels design.now) }
    ensures transactions { IfOk result (λ f. StandsForTransactions f.transactions (record { pool = []; hops = replicate (length design.now.hops) [] })) }
    ensures quantum { IfOk result (λ f. StandsForQuantum f.transactions (record { keepers = replicate design.now.keepers at_start; global = 0 })) }
    ensures within { IfOk result (λ f. IsWithin 0 f.transactions) }
    ensures variables { IfOk result (λ f. f.variables.items ≡ map (λ (p : Variable). p.initial) design.now.variables) }
    ensures memories { IfOk result (λ f. f.memories.items ≡ map (λ (p : Memory). replicate p.size 0) design.now.memories) }
{
    let parents = first_parents(alloc, design.processes.as_slice())?;
    let variables = first_values(alloc, design.variables.as_slice())?;
    let memories = first_bytes(alloc, design.memories.as_slice())?;
    let events = EventBoard::new(alloc, design.events)?;
    let channels = ChannelBoard::new(alloc, design)?;
    let transactions = first_transactions(alloc, design)?;
    Ok(First {
        parents,
        events,
        channels,
        transactions,
        variables,
        memories,
    })
}
