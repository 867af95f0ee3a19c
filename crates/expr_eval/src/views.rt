//! What an expression reads.
ghost use Rattle.std.specs.Prelude.{◌≡◌};
ghost use Rattle.sim_model.specs.Reading.{Here};
ghost use Rattle.expr_eval.specs.Readings.{answer};

use flat_design::{Member, NameUse, PayloadBytes, RunFault};
use sim_model::logic_values_api::Value;
use sim_model::sim_time_api::Time;

/// One thing that an expression reads, its place and its index evaluated. Numbers of names are places among the names
/// that the module declares.
#[derive(Clone, Copy, Debug, PartialEq, Eq)]
pub enum Reading {
    /// A variable, a channel that is read, or a process.
    Name(NameUse),
    /// The channel of this port at this place, read.
    Placed(u32, u64),
    /// A member of an object.
    Member(NameUse, Member),
    /// A member of the channel of this port at this place.
    PlacedMember(u32, u64, Member),
    /// The element of this memory at this index.
    Element(u32, u64),
    /// The byte of a payload at this index.
    PayloadByte(NameUse, PayloadBytes, u64),
}

/// What expressions are evaluated over.
///
/// A view answers alike for every configuration that it shows, so that it need not keep all of one.
pub trait View {
    /// The view shows this configuration, for this instance, where it stands.
    ghost Shows: { Self → Here → Type 0 };

    /// The simulated time.
    fn now(&self) -> Time
        ensures { (h : Here) → Shows self.now h → result.0 ≡ h.config.cycle.now };

    /// The serial of the instance that evaluates, which `self` names.
    fn own(&self) -> u32
        ensures { (h : Here) → Shows self.now h → result ≡ h.serial };

    /// The value of what is read, at the width that it is kept in, or its fault. It takes no memory.
    fn read(&self, reading: Reading) -> Result<Value, RunFault>
        ensures { (h : Here) → Shows self.now h → result ≡ answer h reading };
}
