// Payloads: how many hold each, what they say, and how they carry bytes.
ghost use Rattle.std.specs.Prelude.{◌≡◌, ◌^◌, ◌-◌, OnOk, OnErr, IfOk, is_some, length};
ghost use Rattle.sim_model.specs.PayloadPool.declared.payload.Payload.{Payload as Carried};
ghost use Rattle.sim_model.specs.Configuration.{Config, Transactions};
ghost use Rattle.sim_model.specs.Payloads.{payload_of, with_made, with_acquired, with_released};
ghost use Rattle.sim_model.specs.Transport as transport;
ghost use Rattle.kernel_transactions.specs.Board.{StandsForTransactions, Moves, SameQuantum, IsWithin, StaysWithin, RisesByOne};
ghost use Rattle.kernel_transactions.specs.Answers.{use_of, number_made, Makes};

use crate::TransactionBoard;
use sim_model::flat_design_api::RunFault;
use sim_model::payload_pool_api::MAX_BYTES;

/// Why a payload was not made.
#[derive(Clone, Copy)]
pub enum MakeStop {
    /// The model is at fault.
    Fault(RunFault),
    /// There is no memory.
    NoMemory,
}

// A number of bytes that a payload may have.
fn size_within(least: u64, n: u64) -> Result<u16, RunFault>
    ensures answer { result ≡ transport.size_within least n }
    ensures same { IfOk result (λ m. m ≡ n) }
{
    if n < least || n > MAX_BYTES as u64 {
        return Err(RunFault::IndexRange {
            index: n,
            size: MAX_BYTES as u64,
        });
    }
    Ok(n as u16)
}

impl TransactionBoard {
    /// Makes a payload with so many bytes and so many enable bytes, held once, and answers its number, which no payload had
    /// before. It takes memory.
    ///
    /// There is at least one byte, there are at most 4,096 of each, and at most 16,384 payloads live at once. Its number and
    /// the counts of holders are within the next bound then. Where it is refused nothing changes; memory is refused only where
    /// there is no fault.
    pub fn make(&mut self, len: u64, enables: u64) -> Result<u32, MakeStop>
        requires { IsWithin (2 ^ 32 - 2) self.old }
        ensures answer { (c : Config) → StandsForTransactions self.old c.transactions → Makes result (number_made c len enables) }
        ensures number { IfOk result (λ t. (x : Transactions) → StandsForTransactions self.old x → t ≡ length x.pool) }
        ensures moves { OnOk result (Moves self.old self.new (λ x. record x { pool = with_made x.pool len enables })) }
        ensures raised { RisesByOne self.old self.new }
        ensures quantum { SameQuantum self.old self.new }
        ensures refused { OnErr result (self.new ≡ self.old) }
    {
        let len = match size_within(1, len) {
            Ok(len) => len,
            Err(fault) => return Err(MakeStop::Fault(fault)),
        };
        let enables = match size_within(0, enables) {
            Ok(enables) => enables,
            Err(fault) => return Err(MakeStop::Fault(fault)),
        };
        match self.pool.make(len, enables) {
            Ok(t) => Ok(t),
            Err(sim_model::payload_pool_api::MakeStop::TooMany) => {
                Err(MakeStop::Fault(RunFault::TooManyPayloads))
            }
            Err(sim_model::payload_pool_api::MakeStop::NoMemory) => Err(MakeStop::NoMemory),
        }
    }

    /// The payload is held once more (IEEE 1666-2011, 14.5). The counts of holders are within the next bound then.
    pub fn acquire(&mut self, t: u32) -> Result<(), RunFault>
        requires { IsWithin (2 ^ 32 - 2) self.old }
        ensures answer { (c : Config) → StandsForTransactions self.old c.transactions → result ≡ use_of c t }
        ensures moves { Moves self.old self.new (λ x. record x { pool = with_acquired x.pool t }) }
        ensures raised { RisesByOne self.old self.new }
        ensures quantum { SameQuantum self.old self.new }
        ensures refused { OnErr result (self.new ≡ self.old) }
    {
        match self.pool.acquire(t) {
            Ok(()) => Ok(()),
            Err(_) => Err(RunFault::PayloadFreed { serial: t }),
        }
    }

    /// The payload is held once less, and freed where nobody holds it any more (IEEE 1666-2011, 14.5).
    pub fn release(&mut self, t: u32) -> Result<(), RunFault>
        ensures answer { (c : Config) → StandsForTransactions self.old c.transactions → result ≡ use_of c t }
        ensures moves { Moves self.old self.new (λ x. record x { pool = with_released x.pool t }) }
        ensures within { StaysWithin self.old self.new }
        ensures quantum { SameQuantum self.old self.new }
        ensures refused { OnErr result (self.new ≡ self.old) }
    {
        match self.pool.release(t) {
            Ok(()) => Ok(()),
            Err(_) => Err(RunFault::PayloadFreed { serial: t }),
        }
    }

    /// Whether the payload was made and not freed.
    pub fn is_live(&self, t: u32) -> bool
        ensures { (x : Transactions) → StandsForTransactions self.now x → result ≡ is_some (payload_of x.pool t) }
    {
        match self.pool.get(t) {
            Ok(_) => true,
            Err(_) => false,
        }
    }
}
