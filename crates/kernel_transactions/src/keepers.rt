// Quantum keepers and the global quantum.
ghost use Rattle.std.specs.Prelude.{◌≡◌, Some, Ok, OnErr, option_map, slice_get};
ghost use Rattle.sim_model.specs.QuantumKeeper.Keepers.{quantum_left, after_reset, after_inc, with_local};
ghost use Rattle.sim_model.specs.FlatDesign.declared.names.Member.TheVariants as member;
ghost use Rattle.sim_model.specs.Configuration.{Config, Quantum};
ghost use Rattle.sim_model.specs.Values.{on_ok, bool_value};
ghost use Rattle.sim_model.specs.Reading.{keeper_at, keeper_member};
ghost use Rattle.sim_model.specs.Transport.{on_keeper, with_keeper, kept};
ghost use Rattle.kernel_transactions.specs.Board.{StandsForQuantum, quantum_of, SameTransactions};

use crate::TransactionBoard;
use sim_model::flat_design_api::RunFault;
use sim_model::sim_time_api::Time;

impl TransactionBoard {
    /// Sets the local time of a keeper (IEEE 1666-2011, 16.2). Where there is no keeper of this number nothing changes.
    pub fn set_local(&mut self, n: u32, t: Time)
        ensures steps { (c : Config) → StandsForQuantum self.old c.quantum
            → on_keeper c (keeper_at c (Some n)) (λ k. Ok (with_keeper c (Some n) (with_local k t.0))) ≡ Ok (record c { quantum = quantum_of self.new }) }
        ensures transactions { SameTransactions self.old self.new }
    {
        if n as usize >= self.keepers.len() {
            return;
        }
        self.keepers[n as usize].set(t);
    }

    /// Adds a time to the local time of a keeper (IEEE 1666-2011, 16.2). A sum past 2^64 - 1 ps is the fault, and nothing
    /// changes then.
    pub fn inc(&mut self, n: u32, t: Time) -> Result<(), RunFault>
        ensures steps { (c : Config) → StandsForQuantum self.old c.quantum
            → on_keeper c (keeper_at c (Some n)) (λ k. kept c (Some n) (after_inc k t.0)) ≡ on_ok result (λ ok. Ok (record c { quantum = quantum_of self.new })) }
        ensures transactions { SameTransactions self.old self.new }
        ensures refused { OnErr result (quantum_of self.new ≡ quantum_of self.old) }
    {
        if n as usize >= self.keepers.len() {
            return Ok(());
        }
        match self.keepers[n as usize].inc(t) {
            Some(()) => Ok(()),
            None => Err(RunFault::TimeOverflow),
        }
    }

    /// Sets the local time of a keeper to 0, and its next sync point to `now` and the local quantum from there
    /// (IEEE 1666-2011, 16.2). A sum past 2^64 - 1 ps is the fault, and nothing changes then.
    pub fn reset(&mut self, n: u32, now: Time) -> Result<(), RunFault>
        ensures steps { (c : Config) → StandsForQuantum self.old c.quantum
            → on_keeper c (keeper_at c (Some n)) (λ k. kept c (Some n) (after_reset c.quantum.global now.0)) ≡ on_ok result (λ ok. Ok (record c { quantum = quantum_of self.new })) }
        ensures transactions { SameTransactions self.old self.new }
        ensures refused { OnErr result (quantum_of self.new ≡ quantum_of self.old) }
    {
        if n as usize >= self.keepers.len() {
            return Ok(());
        }
        let global = self.global;
        match self.keepers[n as usize].reset(global, now) {
            Some(()) => Ok(()),
            None => Err(RunFault::TimeOverflow),
        }
    }

    /// Sets the global quantum (IEEE 1666-2011, clause 12).
    pub fn set_global(&mut self, t: Time)
        ensures moves { (x : Quantum) → StandsForQuantum self.old x → StandsForQuantum self.new (record x { global = t.0 }) }
        ensures transactions { SameTransactions self.old self.new }
    {
        self.global = t;
    }

    /// The local time of a keeper.
    pub fn local(&self, n: u32) -> Option<Time>
        ensures { (x : Quantum) → StandsForQuantum self.now x → result ≡ option_map (λ k. k.local) (slice_get x.keepers n) }
    {
        match self.keepers.get(n as usize) {
            Some(keeper) => Some(keeper.local()),
            None => None,
        }
    }

    /// The next sync point of a keeper, in simulated time.
    pub fn next(&self, n: u32) -> Option<Time>
        ensures { (x : Quantum) → StandsForQuantum self.now x → result ≡ option_map (λ k. k.next) (slice_get x.keepers n) }
    {
        match self.keepers.get(n as usize) {
            Some(keeper) => Some(keeper.next()),
            None => None,
        }
    }

    /// Whether `now` and the local time of a keeper reach its next sync point (IEEE 1666-2011, 16.2). Their sum past
    /// 2^64 - 1 ps is the fault. Where there is no keeper of this number it is false.
    pub fn need_sync(&self, n: u32, now: Time) -> Result<bool, RunFault>
        ensures { (x : Quantum) → StandsForQuantum self.now x
            → keeper_member now.0 member.NeedSync (slice_get x.keepers n) ≡ on_ok result (λ b. Ok (bool_value b)) }
    {
        match self.keepers.get(n as usize) {
            Some(keeper) => match keeper.need_sync(now) {
                Some(needed) => Ok(needed),
                None => Err(RunFault::TimeOverflow),
            },
            None => Ok(false),
        }
    }

    /// What is left at this moment of the global quantum (IEEE 1666-2011, clause 12).
    pub fn local_quantum(&self, now: Time) -> Time
        ensures { (x : Quantum) → StandsForQuantum self.now x → result.0 ≡ quantum_left x.global now.0 }
    {
        sim_model::quantum_keeper_api::local_quantum(self.global, now)
    }
}
