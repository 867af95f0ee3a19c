//! Members of objects.
ghost use Rattle.std.specs.Prelude.{◌≡◌, ℕ, Ok, length};
ghost use Rattle.flat_design.specs.declared.names.Member.TheVariants as member;
ghost use Rattle.expr_eval.specs.SimModel.Configuration.{Config};
ghost use Rattle.expr_eval.specs.SimModel.Reading as reading;
ghost use Rattle.expr_eval.specs.SimModel.Reading.{Here};
ghost use Rattle.expr_eval.specs.SimModel.Values as values;
ghost use Rattle.expr_eval.specs.SimModel.Values.{on_ok};
ghost use Rattle.kernel_state.specs.KernelTransactions.Board.{StandsForQuantum};
ghost use Rattle.kernel_view.specs.Standings.{ShowsHere, moment_if};

use crate::channels::{channel_member, unsigned};
use crate::names::keeper_number;
use crate::standings::{Standing, has_ended};
use expr_eval::logic_values_api::Value;
use expr_eval::sim_time_api::Time;
use flat_design::{Member, NameUse, PayloadBytes, PayloadField, RunFault};
use kernel_state::kernel_transactions_api::TransactionBoard;

/// A time as a value, where there is one.
fn moment_or_false(time: Option<Time>) -> Value
    ensures { result ≡ moment_if time }
{
    match time {
        Some(t) => Value::Moment(t.0),
        None => Value::Bool(false),
    }
}

/// The local time of a keeper.
fn local_of(board: &TransactionBoard, k: Option<u32>) -> Value
    ensures { (c : Config) → StandsForQuantum board.now c.quantum → (now : ℕ) → Ok result ≡ reading.keeper_member now member.Local (reading.keeper_at c k) }
{
    match k {
        Some(n) => moment_or_false(board.local(n)),
        None => Value::Bool(false),
    }
}

/// The next sync point of a keeper.
fn next_of(board: &TransactionBoard, k: Option<u32>) -> Value
    ensures { (c : Config) → StandsForQuantum board.now c.quantum → (now : ℕ) → Ok result ≡ reading.keeper_member now member.Next (reading.keeper_at c k) }
{
    match k {
        Some(n) => moment_or_false(board.next(n)),
        None => Value::Bool(false),
    }
}

/// Whether a keeper needs to sync.
fn need_sync_of(board: &TransactionBoard, k: Option<u32>, now: Time) -> Result<Value, RunFault>
    ensures { (c : Config) → StandsForQuantum board.now c.quantum → result ≡ reading.keeper_member now.0 member.NeedSync (reading.keeper_at c k) }
{
    match k {
        Some(n) => match board.need_sync(n, now) {
            Ok(needed) => Ok(Value::Bool(needed)),
            Err(fault) => Err(fault),
        },
        None => Ok(Value::Bool(false)),
    }
}

impl<'a> Standing<'a> {
    /// A member of the channel that a name stands for, at a place.
    pub(crate) fn channel_member(
        &self,
        n: u32,
        place: Option<u64>,
        m: Member,
    ) -> Result<Value, RunFault>
        ensures { (h : Here) → ShowsHere self.now h → result ≡ on_ok (reading.channel_here h n place) (λ ch. Ok (reading.channel_member h.config m ch)) }
    {
        match self.channel_here(n, place) {
            Ok(channel) => Ok(channel_member(&self.kernel.channels, m, channel)),
            Err(fault) => Err(fault),
        }
    }

    /// A member of the channel that a name stands for.
    fn member_of_channel(&self, n: NameUse, m: Member) -> Result<Value, RunFault>
        ensures { (h : Here) → ShowsHere self.now h → result ≡ reading.member_of_channel h n m }
    {
        match n {
            NameUse::Local(_) => Ok(Value::Bool(false)),
            NameUse::Declared(i) => self.channel_member(i, None, m),
        }
    }

    /// The quantum keeper that a name stands for.
    fn keeper(&self, n: NameUse) -> Option<u32>
        ensures { (h : Here) → ShowsHere self.now h → reading.keeper_here h n ≡ reading.keeper_at h.config result }
    {
        match n {
            NameUse::Local(_) => None,
            NameUse::Declared(i) => keeper_number(self.denotes(i)),
        }
    }

    /// Whether the process that a name holds has ended.
    fn terminated(&self, n: NameUse) -> Result<Value, RunFault>
        ensures { (h : Here) → ShowsHere self.now h → result ≡ reading.member_value h n member.Terminated }
    {
        match self.process_number(n) {
            Ok(p) => Ok(Value::Bool(has_ended(self.kernel, p))),
            Err(fault) => Err(fault),
        }
    }

    /// Whether a name holds a payload that was not freed.
    fn live(&self, n: NameUse) -> bool
        ensures { (h : Here) → ShowsHere self.now h → result ≡ reading.is_live h.config (reading.payload_handle_of h n) }
    {
        match self.payload_of(n) {
            Some(t) => self.kernel.transactions.is_live(t),
            None => false,
        }
    }

    /// A field of the payload that a name holds.
    fn field(&self, n: NameUse, f: PayloadField) -> Result<Value, RunFault>
        ensures { (h : Here) → ShowsHere self.now h → result ≡ reading.member_value h n (member.Field f) }
    {
        match self.payload_number(n) {
            Ok(t) => self.kernel.transactions.field(t, f),
            Err(fault) => Err(fault),
        }
    }

    /// How many bytes of a part a payload has.
    fn size_of(&self, t: u32, part: PayloadBytes) -> Result<Value, RunFault>
        ensures { (h : Here) → ShowsHere self.now h → result ≡ on_ok (reading.live_payload h.config t) (λ p. Ok (values.unsigned (length (reading.payload_bytes part p)))) }
    {
        match self.kernel.transactions.size(t, part) {
            Ok(size) => Ok(unsigned(size)),
            Err(fault) => Err(fault),
        }
    }

    /// How many bytes of a part the payload that a name holds has.
    fn size(&self, n: NameUse, part: PayloadBytes) -> Result<Value, RunFault>
        ensures { (h : Here) → ShowsHere self.now h → result ≡ on_ok (reading.payload_here h n) (λ p. Ok (values.unsigned (length (reading.payload_bytes part p)))) }
    {
        match self.payload_number(n) {
            Ok(t) => self.size_of(t, part),
            Err(fault) => Err(fault),
        }
    }

    /// A member of an object.
    pub(crate) fn member(&self, n: NameUse, m: Member) -> Result<Value, RunFault>
        ensures { (h : Here) → ShowsHere self.now h → result ≡ reading.member_value h n m }
    {
        match m {
            Member::Changed => self.member_of_channel(n, Member::Changed),
            Member::Available => self.member_of_channel(n, Member::Available),
            Member::Free => self.member_of_channel(n, Member::Free),
            Member::Value => self.member_of_channel(n, Member::Value),
            Member::Valid => Ok(Value::Bool(self.process_of(n).is_some())),
            Member::Terminated => self.terminated(n),
            Member::Live => Ok(Value::Bool(self.live(n))),
            Member::Field(f) => self.field(n, f),
            Member::Length => self.size(n, PayloadBytes::Data),
            Member::EnableLength => self.size(n, PayloadBytes::ByteEnable),
            Member::Local => Ok(local_of(&self.kernel.transactions, self.keeper(n))),
            Member::Next => Ok(next_of(&self.kernel.transactions, self.keeper(n))),
            Member::NeedSync => {
                need_sync_of(
                    &self.kernel.transactions,
                    self.keeper(n),
                    self.kernel.cycle.now,
                )
            }
        }
    }
}
