// Transport calls and their returns on the hops.
ghost use Rattle.std.specs.Prelude.{◌≡◌, Ok, OnOk, OnErr};
ghost use Rattle.sim_model.specs.TransportPhases.History.{Call, Return, BCall, BReturn, Left};
ghost use Rattle.sim_model.specs.Configuration.{Config, Transactions};
ghost use Rattle.kernel_transactions.specs.Board.{StandsForTransactions, Moves, SameQuantum, StaysWithin, IsRegisteredAt, entered, left};
ghost use Rattle.kernel_transactions.specs.Answers.{complete_in, Judges, JudgesReturn};
ghost use Rattle.kernel_transactions.specs.Answers as spec;
ghost use Rattle.sim_model.specs.Transport as transport;

use crate::TransactionBoard;
use sim_model::Via;
use sim_model::flat_design_api::RunFault;
use sim_model::payload_pool_api::INCOMPLETE;
use sim_model::transport_phases_api::{Path, Rule};
use std::alloc::AllocError;

// The number by which a report names the rule.
fn rule_number(rule: Rule) -> u8
    ensures { result ≡ transport.rule_number rule }
{
    match rule {
        Rule::P1 => 1,
        Rule::P2 => 2,
        Rule::P3 => 3,
        Rule::P4 => 4,
        Rule::P5 => 5,
        Rule::P6 => 6,
        Rule::P7 => 7,
        Rule::P8 => 8,
        Rule::P9 => 9,
        Rule::P10 => 10,
    }
}

// The run fault of a rule that a call breaks.
fn fault_of(hop: u32, t: u32, verdict: Result<(), Rule>) -> Result<(), RunFault>
    ensures { result ≡ spec.fault_of hop t verdict }
{
    match verdict {
        Ok(()) => Ok(()),
        Err(rule) => Err(RunFault::Protocol {
            rule: rule_number(rule),
            hop,
            serial: t,
        }),
    }
}

// The run fault of a rule that a return breaks: of a freed payload no response is found, which is a fault of its own.
fn fault_at_return(live: bool, hop: u32, t: u32, verdict: Result<(), Rule>) -> Result<(), RunFault>
    ensures { result ≡ spec.fault_at_return live hop t verdict }
{
    let rule = match verdict {
        Ok(()) => return Ok(()),
        Err(rule) => rule_number(rule),
    };
    if !live && rule == 6 {
        return Err(RunFault::PayloadFreed { serial: t });
    }
    Err(RunFault::Protocol {
        rule,
        hop,
        serial: t,
    })
}

impl TransactionBoard {
    // Whether the payload is live and its status says that something was responded.
    fn is_complete(&self, t: u32) -> bool
        ensures { (x : Transactions) → StandsForTransactions self.now x → result ≡ complete_in x t }
    {
        match self.pool.get(t) {
            Ok(payload) => payload.status != INCOMPLETE,
            Err(_) => false,
        }
    }

    /// Makes room for the payload on the hop, so that it can be called there. It takes memory where the hop has neither a row
    /// of the payload nor room; where that is refused nothing changes.
    pub fn register(&mut self, hop: u32, t: u32) -> Result<(), AllocError>
        ensures placed { OnOk result (IsRegisteredAt self.new hop t) }
        ensures again { IsRegisteredAt self.old hop t → result ≡ Ok tt }
        ensures stays { Moves self.old self.new (λ x. x) }
        ensures within { StaysWithin self.old self.new }
        ensures quantum { SameQuantum self.old self.new }
        ensures refused { OnErr result (self.new ≡ self.old) }
    {
        self.hops.register(hop, t)
    }

    /// Judges an `nb_transport` call of the payload on the hop, forward or backward, and takes it into the history
    /// (IEEE 1666-2011, 11.1.2 and 15.2). `handled` says that the other end has the handler.
    ///
    /// The fault is the first rule that the call breaks; nothing changes then.
    pub fn call(
        &mut self,
        hop: u32,
        path: Path,
        t: u32,
        phase: i32,
        handled: bool,
    ) -> Result<(), RunFault>
        requires { IsRegisteredAt self.old hop t }
        ensures answer { (c : Config) → StandsForTransactions self.old c.transactions
            → Judges result c hop (Call t path phase (complete_in c.transactions t) handled) t }
        ensures moves { OnOk result (Moves self.old self.new (λ x. entered x hop (Call t path phase (complete_in x t) handled))) }
        ensures within { StaysWithin self.old self.new }
        ensures quantum { SameQuantum self.old self.new }
        ensures refused { OnErr result (self.new ≡ self.old) }
    {
        let complete = self.is_complete(t);
        let verdict = self.hops.call(hop, path, t, phase, complete, handled);
        fault_of(hop, t, verdict)
    }

    /// Judges the return of the open `nb_transport` call of the payload on the hop, with what is answered and the phase that
    /// is handed back, and takes it into the history (IEEE 1666-2011, 11.1.2.7 and 15.2).
    ///
    /// The fault is the first rule that the return breaks, or that the payload was freed where a response is missing;
    /// nothing changes then.
    pub fn returned(&mut self, hop: u32, t: u32, status: i32, phase: i32) -> Result<(), RunFault>
        ensures answer { (c : Config) → StandsForTransactions self.old c.transactions
            → JudgesReturn result c hop (Return t status phase (complete_in c.transactions t)) t }
        ensures moves { OnOk result (Moves self.old self.new (λ x. entered x hop (Return t status phase (complete_in x t)))) }
        ensures within { StaysWithin self.old self.new }
        ensures quantum { SameQuantum self.old self.new }
        ensures refused { OnErr result (self.new ≡ self.old) }
    {
        let complete = self.is_complete(t);
        let live = self.is_live(t);
        let verdict = self.hops.returned(hop, t, status, phase, complete);
        fault_at_return(live, hop, t, verdict)
    }

    /// Judges a `b_transport` call of the payload on the hop and takes it into the history (IEEE 1666-2011, 11.1.1).
    /// `handled` says that the target has the handler.
    ///
    /// The fault is the first rule that the call breaks; nothing changes then.
    pub fn b_call(&mut self, hop: u32, t: u32, handled: bool) -> Result<(), RunFault>
        requires { IsRegisteredAt self.old hop t }
        ensures answer { (c : Config) → StandsForTransactions self.old c.transactions → Judges result c hop (BCall t handled) t }
        ensures moves { OnOk result (Moves self.old self.new (λ x. entered x hop (BCall t handled))) }
        ensures within { StaysWithin self.old self.new }
        ensures quantum { SameQuantum self.old self.new }
        ensures refused { OnErr result (self.new ≡ self.old) }
    {
        let verdict = self.hops.b_call(hop, t, handled);
        fault_of(hop, t, verdict)
    }

    /// Judges the return of the open `b_transport` call of the payload on the hop and takes it into the history
    /// (IEEE 1666-2011, 11.1.1).
    ///
    /// The fault is that the payload has no response, or was freed; nothing changes then.
    pub fn b_returned(&mut self, hop: u32, t: u32) -> Result<(), RunFault>
        ensures answer { (c : Config) → StandsForTransactions self.old c.transactions
            → JudgesReturn result c hop (BReturn t (complete_in c.transactions t)) t }
        ensures moves { OnOk result (Moves self.old self.new (λ x. entered x hop (BReturn t (complete_in x t)))) }
        ensures within { StaysWithin self.old self.new }
        ensures quantum { SameQuantum self.old self.new }
        ensures refused { OnErr result (self.new ≡ self.old) }
    {
        let complete = self.is_complete(t);
        let live = self.is_live(t);
        let verdict = self.hops.b_returned(hop, t, complete);
        fault_at_return(live, hop, t, verdict)
    }

    /// The open call of the payload on the hop was left without a return: its transaction is over there.
    pub fn abandon(&mut self, hop: u32, t: u32)
        ensures moves { Moves self.old self.new (λ x. entered x hop (Left t)) }
        ensures within { StaysWithin self.old self.new }
        ensures quantum { SameQuantum self.old self.new }
    {
        self.hops.abandon(hop, t);
    }

    /// These open calls were left without a return, one after another.
    pub fn abandon_all(&mut self, calls: &[Via])
        ensures moves { Moves self.old self.new (λ x. left x calls.now) }
        ensures within { StaysWithin self.old self.new }
        ensures quantum { SameQuantum self.old self.new }
    {
        for via in calls {
            self.abandon(via.hop, via.payload);
        }
    }
}
