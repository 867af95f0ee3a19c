//! The value of an expression where the next statement of an instance stands, and what names are there.
ghost use Rattle.std.specs.Prelude.{◌≡◌, option_map};
ghost use Rattle.flat_design.specs.Code.{term_of};
ghost use Rattle.expr_eval.specs.SimModel.Reading.{denotes, channel_here, payload_number, read_name};
ghost use Rattle.kernel_state.specs.Moves.{Lives};
ghost use Rattle.kernel_view.specs.Standings.{ShowsHere, Everywhere, Gives, GivesIf, GivesPlace};

use crate::standings::{Standing, standing_at};
use expr_eval::logic_values_api::Value;
use expr_eval::sim_time_api::Time;
use expr_eval::{Reading, View, bits, eval};
use flat_design::{ChannelId, Denoted, Expr, NameUse, RunFault};
use kernel_state::Kernel;

impl<'a> View for Standing<'a> {
    ghost Shows = { ShowsHere };

    fn now(&self) -> Time {
        self.kernel.cycle.now
    }

    fn own(&self) -> u32 {
        self.serial
    }

    #[inline(always)]
    fn read(&self, reading: Reading) -> Result<Value, RunFault> {
        match reading {
            Reading::Name(n) => self.named(n),
            Reading::Placed(n, k) => self.channel_at(n, Some(k)),
            Reading::Member(n, m) => self.member(n, m),
            Reading::PlacedMember(n, k, m) => self.channel_member(n, Some(k), m),
            Reading::Element(n, i) => self.element(n, i),
            Reading::PayloadByte(n, part, i) => self.payload_byte(n, part, i),
        }
    }
}

/// The value of an expression where the next statement of an instance stands, or its first fault. It takes no memory.
///
/// # Errors
/// The first fault of the expression.
#[inline(always)]
pub fn eval_at(k: &Kernel, p: u32, e: &Expr) -> Result<Value, RunFault>
    requires { Lives k.now p }
    ensures { Gives k.now p result (term_of e.now) }
{
    // A literal is the same wherever it stands.
    if let Expr::Literal(value) = e {
        return Ok(*value);
    }
    match standing_at(k, p) {
        Some(x) => eval(&x, e),
        None => Ok(Value::Bool(false)),
    }
}

/// The same of an expression that is written or not.
///
/// # Errors
/// The first fault of the expression.
#[inline(always)]
pub fn eval_if_at(k: &Kernel, p: u32, e: &Option<Expr>) -> Result<Option<Value>, RunFault>
    requires { Lives k.now p }
    ensures { GivesIf k.now p result (option_map term_of e.now) }
{
    match e {
        Some(e) => match eval_at(k, p, e) {
            Ok(value) => Ok(Some(value)),
            Err(fault) => Err(fault),
        },
        None => Ok(None),
    }
}

/// The same of the place of a port that is written or not.
///
/// # Errors
/// The first fault of the expression.
pub fn eval_place_at(k: &Kernel, p: u32, e: &Option<Expr>) -> Result<Option<u64>, RunFault>
    requires { Lives k.now p }
    ensures { GivesPlace k.now p result (option_map term_of e.now) }
{
    match e {
        Some(e) => match eval_at(k, p, e) {
            Ok(value) => Ok(Some(bits(value))),
            Err(fault) => Err(fault),
        },
        None => Ok(None),
    }
}

/// The number, among the instances of modules, of the one that the next statement of an instance stands in.
pub fn home_at(k: &Kernel, p: u32) -> u32
    requires { Lives k.now p }
    ensures { Everywhere k.now p (λ h. h.home ≡ result) }
{
    match standing_at(k, p) {
        Some(x) => x.home,
        None => 0,
    }
}

/// The value of what a name stands for, where the next statement of an instance stands. A number keeps its width: in an
/// expression it has 64 bits. It takes no memory.
///
/// # Errors
/// A port that is not bound.
pub fn named_at(k: &Kernel, p: u32, n: NameUse) -> Result<Value, RunFault>
    requires { Lives k.now p }
    ensures { Everywhere k.now p (λ h. result ≡ read_name h n) }
{
    match standing_at(k, p) {
        Some(x) => x.read(Reading::Name(n)),
        None => Ok(Value::Bool(false)),
    }
}

/// What a name that the module declares stands for, where the next statement of an instance stands.
#[inline(always)]
pub fn denoted_at(k: &Kernel, p: u32, n: u32) -> Denoted
    requires { Lives k.now p }
    ensures { Everywhere k.now p (λ h. result ≡ denotes h n) }
{
    match standing_at(k, p) {
        Some(x) => x.denotes(n),
        None => Denoted::Nothing,
    }
}

/// The channel that a name stands for there, at a place.
///
/// # Errors
/// A place past the last channel of a port; a name that has no channel.
pub fn channel_at(k: &Kernel, p: u32, n: u32, place: Option<u64>) -> Result<ChannelId, RunFault>
    requires { Lives k.now p }
    ensures { Everywhere k.now p (λ h. result ≡ channel_here h n place) }
{
    match standing_at(k, p) {
        Some(x) => x.channel_here(n, place),
        None => Err(RunFault::IndexRange { index: 0, size: 0 }),
    }
}

/// The number of the payload that a name holds there.
///
/// # Errors
/// An empty handle.
pub fn payload_at(k: &Kernel, p: u32, n: NameUse) -> Result<u32, RunFault>
    requires { Lives k.now p }
    ensures { Everywhere k.now p (λ h. result ≡ payload_number h n) }
{
    match standing_at(k, p) {
        Some(x) => x.payload_number(n),
        None => Err(RunFault::EmptyHandle),
    }
}
