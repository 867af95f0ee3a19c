//! What names are as values, and the handles that they hold.
ghost use Rattle.std.specs.Prelude.{◌≡◌, None, Ok};
ghost use Rattle.expr_eval.specs.SimModel.Reading as reading;
ghost use Rattle.expr_eval.specs.SimModel.Reading.{Here};
ghost use Rattle.flat_design.specs.declared.design.Denoted.TheVariants as denoted;
ghost use Rattle.expr_eval.specs.SimModel.Values as values;
ghost use Rattle.expr_eval.specs.SimModel.Values.{on_ok};
ghost use Rattle.kernel_view.specs.Standings.{ShowsHere};

use crate::channels::{channel_of, channel_value, denoted_in, unsigned};
use crate::standings::Standing;
use expr_eval::logic_values_api::Value;
use expr_eval::{payload_handle, process_handle};
use flat_design::{ChannelId, Denoted, NameUse, PayloadBytes, RunFault};

/// The byte of an index as a number.
fn byte_in(bytes: &[u8], i: u64) -> Result<Value, RunFault>
    ensures { result ≡ reading.byte_in bytes.now i }
{
    match bytes.get(i as usize) {
        Some(byte) => Ok(unsigned(u64::from(*byte))),
        None => Err(RunFault::IndexRange {
            index: i,
            size: bytes.len() as u64,
        }),
    }
}

/// A handle that is used: an empty one is a fault.
fn not_empty(handle: Option<u32>) -> Result<u32, RunFault>
    ensures { result ≡ reading.not_empty handle }
{
    match handle {
        Some(n) => Ok(n),
        None => Err(RunFault::EmptyHandle),
    }
}

/// The handle of a process that a value is.
fn process_in(value: Result<Value, RunFault>) -> Option<u32>
    ensures { result ≡ reading.handle_in value values.process_handle }
{
    match value {
        Ok(v) => process_handle(v),
        Err(_) => None,
    }
}

/// The handle of a payload that a value is.
fn payload_in(value: Result<Value, RunFault>) -> Option<u32>
    ensures { result ≡ reading.handle_in value values.payload_handle }
{
    match value {
        Ok(v) => payload_handle(v),
        Err(_) => None,
    }
}

/// The memory that a name stands for.
pub fn memory_number(denoted: Denoted) -> Option<u32>
    ensures { result ≡ reading.memory_number denoted }
{
    match denoted {
        Denoted::Memory(m) => Some(m),
        Denoted::Nothing
        | Denoted::Channel(_)
        | Denoted::Event(_)
        | Denoted::Keeper(_)
        | Denoted::Variable(_)
        | Denoted::Port(_)
        | Denoted::Process(_)
        | Denoted::Socket { .. } => None,
    }
}

/// The quantum keeper that a name stands for.
pub fn keeper_number(denoted: Denoted) -> Option<u32>
    ensures { result ≡ reading.keeper_number denoted }
{
    match denoted {
        Denoted::Keeper(k) => Some(k),
        Denoted::Nothing
        | Denoted::Channel(_)
        | Denoted::Event(_)
        | Denoted::Memory(_)
        | Denoted::Variable(_)
        | Denoted::Port(_)
        | Denoted::Process(_)
        | Denoted::Socket { .. } => None,
    }
}

impl<'a> Standing<'a> {
    /// What a name that the module declares stands for here.
    #[inline(always)]
    pub fn denotes(&self, n: u32) -> Denoted
        ensures { (h : Here) → ShowsHere self.now h → result ≡ reading.denotes h n }
    {
        denoted_in(&self.kernel.design, self.home, n)
    }

    /// The channel that a name stands for here, at a place.
    ///
    /// # Errors
    /// A place past the last channel of a port; a name that has no channel.
    #[inline(always)]
    pub fn channel_here(&self, n: u32, place: Option<u64>) -> Result<ChannelId, RunFault>
        ensures { (h : Here) → ShowsHere self.now h → result ≡ reading.channel_here h n place }
    {
        channel_of(&self.kernel.design, self.denotes(n), place)
    }

    /// The value of a channel.
    #[inline(always)]
    pub(crate) fn channel_value(&self, channel: ChannelId) -> Value
        ensures { (h : Here) → ShowsHere self.now h → result ≡ reading.channel_value h.config channel }
    {
        channel_value(&self.kernel.channels, channel)
    }

    /// The value of a channel that a name stands for.
    pub(crate) fn channel_at(&self, n: u32, place: Option<u64>) -> Result<Value, RunFault>
        ensures { (h : Here) → ShowsHere self.now h → result ≡ on_ok (reading.channel_here h n place) (λ ch. Ok (reading.channel_value h.config ch)) }
    {
        match self.channel_here(n, place) {
            Ok(channel) => Ok(self.channel_value(channel)),
            Err(fault) => Err(fault),
        }
    }

    /// The value of a port's first channel.
    #[inline(always)]
    fn first_channel(&self, n: u32) -> Result<Value, RunFault>
        ensures { (h : Here) → ShowsHere self.now h → result ≡ on_ok (reading.channel_of h.config.design (denoted.Port n) None) (λ ch. Ok (reading.channel_value h.config ch)) }
    {
        match channel_of(&self.kernel.design, Denoted::Port(n), None) {
            Ok(channel) => Ok(self.channel_value(channel)),
            Err(fault) => Err(fault),
        }
    }

    /// The value of a variable of an instance of a module.
    #[inline(always)]
    fn variable(&self, n: u32) -> Value
        ensures { (h : Here) → ShowsHere self.now h → result ≡ reading.variable_value h n }
    {
        match self.kernel.variables.get(n as usize) {
            Some(value) => *value,
            None => Value::Bool(false),
        }
    }

    /// The value of a local variable.
    #[inline(always)]
    fn local(&self, n: u32) -> Value
        ensures { (h : Here) → ShowsHere self.now h → result ≡ reading.local_value h n }
    {
        match self.body.local(self.kernel.program, n as usize) {
            Some(value) => value,
            None => Value::Bool(false),
        }
    }

    /// What a declared name is as a value.
    #[inline(always)]
    fn declared(&self, denoted: Denoted) -> Result<Value, RunFault>
        ensures { (h : Here) → ShowsHere self.now h → result ≡ reading.read_denoted h denoted }
    {
        match denoted {
            Denoted::Channel(channel) => Ok(self.channel_value(channel)),
            Denoted::Variable(n) => Ok(self.variable(n)),
            Denoted::Port(n) => self.first_channel(n),
            Denoted::Process(p) => Ok(Value::Handle(Some(p))),
            Denoted::Nothing
            | Denoted::Event(_)
            | Denoted::Keeper(_)
            | Denoted::Memory(_)
            | Denoted::Socket { .. } => Ok(Value::Bool(false)),
        }
    }

    /// What a name is as a value.
    #[inline(always)]
    pub(crate) fn named(&self, n: NameUse) -> Result<Value, RunFault>
        ensures { (h : Here) → ShowsHere self.now h → result ≡ reading.read_name h n }
    {
        match n {
            NameUse::Local(i) => Ok(self.local(i)),
            NameUse::Declared(i) => self.declared(self.denotes(i)),
        }
    }

    /// The handle of a process that a name holds.
    pub(crate) fn process_of(&self, n: NameUse) -> Option<u32>
        ensures { (h : Here) → ShowsHere self.now h → result ≡ reading.process_of h n }
    {
        process_in(self.named(n))
    }

    /// The handle of a payload that a name holds.
    pub(crate) fn payload_of(&self, n: NameUse) -> Option<u32>
        ensures { (h : Here) → ShowsHere self.now h → result ≡ reading.payload_handle_of h n }
    {
        payload_in(self.named(n))
    }

    /// The process that a name holds, to use it.
    pub(crate) fn process_number(&self, n: NameUse) -> Result<u32, RunFault>
        ensures { (h : Here) → ShowsHere self.now h → result ≡ reading.not_empty (reading.process_of h n) }
    {
        not_empty(self.process_of(n))
    }

    /// The number of the payload that a name holds, to use it.
    ///
    /// # Errors
    /// An empty handle.
    pub fn payload_number(&self, n: NameUse) -> Result<u32, RunFault>
        ensures { (h : Here) → ShowsHere self.now h → result ≡ reading.payload_number h n }
    {
        not_empty(self.payload_of(n))
    }

    /// The bytes of a memory.
    fn memory(&self, number: Option<u32>) -> &[u8]
        ensures { (h : Here) → ShowsHere self.now h → result.now ≡ reading.memory_at h.config number }
    {
        match number {
            Some(m) => match self.kernel.memories.get(m as usize) {
                Some(bytes) => bytes.as_slice(),
                None => &[],
            },
            None => &[],
        }
    }

    /// The bytes of the memory that a name stands for here.
    pub fn memory_here(&self, n: u32) -> &[u8]
        ensures { (h : Here) → ShowsHere self.now h → result.now ≡ reading.memory_here h n }
    {
        self.memory(memory_number(self.denotes(n)))
    }

    /// A byte of a memory.
    pub(crate) fn element(&self, n: u32, i: u64) -> Result<Value, RunFault>
        ensures { (h : Here) → ShowsHere self.now h → result ≡ reading.byte_in (reading.memory_here h n) i }
    {
        byte_in(self.memory_here(n), i)
    }

    /// A byte of a payload.
    fn byte_of(&self, t: u32, part: PayloadBytes, i: u64) -> Result<Value, RunFault>
        ensures { (h : Here) → ShowsHere self.now h → result ≡ on_ok (reading.live_payload h.config t) (λ p. reading.byte_in (reading.payload_bytes part p) i) }
    {
        match self.kernel.transactions.byte(t, part, i) {
            Ok(byte) => Ok(unsigned(u64::from(byte))),
            Err(fault) => Err(fault),
        }
    }

    /// A byte of the payload that a name holds.
    pub(crate) fn payload_byte(
        &self,
        n: NameUse,
        part: PayloadBytes,
        i: u64,
    ) -> Result<Value, RunFault>
        ensures { (h : Here) → ShowsHere self.now h → result ≡ on_ok (reading.payload_here h n) (λ p. reading.byte_in (reading.payload_bytes part p) i) }
    {
        match self.payload_number(n) {
            Ok(t) => self.byte_of(t, part, i),
            Err(fault) => Err(fault),
        }
    }
}
