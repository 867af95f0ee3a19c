//! The transactions and the quantum keepers of a run: payloads and who holds them, what was called and returned on each
//! hop, and how far processes run ahead of simulated time (IEEE 1666-2011, clauses 11, 14, 15 and 16).
#![tactic(auto)]

ghost use Rattle.std.specs.Prelude.{◌≡◌, [], IfOk, replicate};
ghost use Rattle.sim_model.specs.QuantumKeeper.Keepers.{at_start};
ghost use Rattle.kernel_transactions.specs.Board.{StandsForTransactions, StandsForQuantum, IsWithin};

mod calls;
mod hop_list;
mod keepers;
mod laws;
mod payloads;
mod reading;

use hop_list::Hops;
pub use laws::{bounds_grow, left_calls_end, live_payloads_are_used, payloads_are_made};
pub use payloads::MakeStop;
use sim_model::payload_pool_api::Pool;
use sim_model::quantum_keeper_api::Keeper;
use sim_model::sim_time_api::Time;
use std::alloc::{AllocError, Global};

/// The transactions of a run and its quantum keepers, by the numbers that the design gives hops and keepers.
///
/// Memory is taken by `new`, `make` and `register` alone. The calls of a hop or a payload take time in the logarithm of
/// how many are kept.
#[derive(Drop)]
pub struct TransactionBoard {
    // The live payloads.
    pool: Pool,
    // What is kept of the transactions on each hop.
    hops: Hops,
    keepers: Vec<Keeper>,
    // The global quantum.
    global: Time,
}

impl TransactionBoard {
    /// So many hops on which nothing has been called, and so many keepers at their start, with no payload and a global
    /// quantum of 0.
    pub fn new(alloc: Global, hops: u32, keepers: u32) -> Result<TransactionBoard, AllocError>
        ensures transactions { IfOk result (λ b. StandsForTransactions b (record { pool = []; hops = replicate hops [] })) }
        ensures quantum { IfOk result (λ b. StandsForQuantum b (record { keepers = replicate keepers at_start; global = 0 })) }
        ensures within { IfOk result (λ b. IsWithin 0 b) }
    {
        let hops = Hops::new(alloc, hops)?;
        let keepers = vec![in alloc; Keeper::new(); keepers as usize]?;
        Ok(TransactionBoard {
            pool: Pool::new(alloc),
            hops,
            keepers,
            global: Time(0),
        })
    }
}
