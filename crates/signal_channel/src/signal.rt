//! Signals and buffers.
ghost use Rattle.std.specs.Prelude.{◌≡◌, None, Some, OnOk, IfErr};
ghost use Rattle.logic_values.specs.declared.kinds.Value.TheVariants as value;
ghost use Rattle.signal_channel.specs.Signals as spec;

use crate::values::{is_one, is_zero};
use logic_values::{Value, is_same};

/// Who may write a signal, and when an update announces that the value changed.
#[derive(Clone, Copy, Debug, PartialEq, Eq)]
pub enum Policy {
    /// A signal that one process writes over the whole run.
    One,
    /// A signal that at most one process writes in one evaluation phase.
    Many,
    /// A buffer, which announces equal values too, that one process writes over the whole run.
    Buffer,
    /// A buffer that at most one process writes in one evaluation phase.
    BufferMany,
}

/// Two processes wrote a signal that one may write.
#[derive(Clone, Copy, Debug, PartialEq, Eq)]
pub struct WriterConflict {
    /// The serial of the writer that stands.
    pub first: u32,
    /// The serial of the one whose write is refused.
    pub second: u32,
}

/// What an update announces.
#[derive(Clone, Copy, Debug, PartialEq, Eq)]
pub struct Changed {
    /// The value changed, or was written to a buffer.
    pub changed: bool,
    /// The value became 1.
    pub pos: bool,
    /// The value became 0.
    pub neg: bool,
}

/// A signal or a buffer (IEEE 1666-2011, 6.4 and 6.6).
#[derive(Clone, Copy)]
pub struct Signal {
    /// Who may write it, and what it announces.
    pub policy: Policy,
    /// The value that is read.
    pub value: Value,
    /// The value that was written last.
    pub next: Value,
    /// Whether it was written since the last update.
    pub asked: bool,
    /// The serial of the process that may write it, once one did.
    pub writer: Option<u32>,
}

#[inline(always)]
fn conflict_of(p: Option<u32>, writer: Option<u32>) -> Option<WriterConflict>
    ensures { result ≡ spec.conflict_of p writer }
{
    match (p, writer) {
        (Some(second), Some(first)) => {
            if first == second {
                None
            } else {
                Some(WriterConflict { first, second })
            }
        }
        _ => None,
    }
}

#[inline(always)]
fn writer_after(p: Option<u32>, writer: Option<u32>) -> Option<u32>
    ensures { result ≡ spec.writer_after p writer }
{
    match p {
        Some(serial) => Some(serial),
        None => writer,
    }
}

// What an update announces where both values are truth values.
#[inline(always)]
fn truth_change(asked: bool, buffer: bool, old: bool, new: bool) -> Changed
    ensures { result ≡ spec.change_between asked buffer (value.Bool old) (value.Bool new) }
{
    let differs = asked && old != new;
    Changed {
        changed: differs || asked && buffer,
        pos: differs && new,
        neg: differs && !new,
    }
}

impl Policy {
    #[inline(always)]
    fn is_buffer(self) -> bool
        ensures { result ≡ spec.is_buffer self }
    {
        match self {
            Policy::One | Policy::Many => false,
            Policy::Buffer | Policy::BufferMany => true,
        }
    }

    #[inline(always)]
    fn is_many(self) -> bool
        ensures { result ≡ spec.is_many self }
    {
        match self {
            Policy::One | Policy::Buffer => false,
            Policy::Many | Policy::BufferMany => true,
        }
    }
}

impl Signal {
    /// A signal with this value that nobody has written.
    pub fn new(policy: Policy, v: Value) -> Signal
        ensures { result ≡ spec.unwritten policy v }
    {
        Signal {
            policy,
            value: v,
            next: v,
            asked: false,
            writer: None,
        }
    }

    /// Writes the value for the process of this serial, or for none, whose write is never refused.
    /// It is read after the next update. Another writer than the one that stands is refused, and that changes nothing.
    #[inline(always)]
    pub fn write(&mut self, p: Option<u32>, v: Value) -> Result<(), WriterConflict>
        ensures ok { OnOk result (spec.conflict_of p self.old.writer ≡ None) }
        ensures refused { IfErr result (λ c. spec.conflict_of p self.old.writer ≡ Some c) }
        ensures left { self.new ≡ spec.unless_conflict (spec.conflict_of p self.old.writer) self.old (spec.written p v self.old) }
    {
        match conflict_of(p, self.writer) {
            Some(conflict) => Err(conflict),
            None => {
                self.next = v;
                self.asked = true;
                self.writer = writer_after(p, self.writer);
                Ok(())
            }
        }
    }

    #[inline(always)]
    fn differs(&self) -> bool
        ensures { result ≡ spec.differs self.now }
    {
        self.asked && !is_same(self.value, self.next)
    }

    // What an update of values that are not both truth values announces.
    #[inline(always)]
    fn other_change(&self) -> Changed
        ensures { result ≡ spec.change_of self.now }
    {
        let differs = self.differs();
        Changed {
            changed: differs || self.asked && self.policy.is_buffer(),
            pos: differs && is_one(self.next),
            neg: differs && is_zero(self.next),
        }
    }

    #[inline(always)]
    fn change(&self) -> Changed
        ensures { result ≡ spec.change_of self.now }
    {
        match (self.value, self.next) {
            (Value::Bool(old), Value::Bool(new)) => {
                truth_change(self.asked, self.policy.is_buffer(), old, new)
            }
            _ => self.other_change(),
        }
    }

    /// Takes over the value that was written last, and says what that announces.
    #[inline(always)]
    pub fn update(&mut self) -> Changed
        ensures announced { result ≡ spec.change_of self.old }
        ensures left { self.new ≡ spec.settled self.old }
    {
        let change = self.change();
        if self.asked {
            self.value = self.next;
        }
        self.asked = false;
        if self.policy.is_many() {
            self.writer = None;
        }
        change
    }

    /// The value.
    #[inline(always)]
    pub fn read(&self) -> Value
        ensures { result ≡ self.now.value }
    {
        self.value
    }
}
