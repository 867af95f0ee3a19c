ghost use Rattle.std.specs.Prelude.{◌≡◌, Some, IfOk, OnOk, [], length};
ghost use Rattle.flat_design.specs.Code.{statement_of};
ghost use Rattle.flat_design.specs.Reach.{Inside};
ghost use Rattle.code_rules.specs.Bodies as bodies;
ghost use Rattle.code_rules.specs.Bodies.{IsClockBlock};
ghost use Rattle.code_rules.specs.Numbered.{AreFirst, AtBlock};
ghost use Rattle.code_blocks.specs.Laid.{Adds, EachFrom, FromNowOn, Grows, IsNested, IsNext, OnlyFrom};
ghost use Rattle.model_check.specs.Parts.{high_and_low};

use code_blocks::{Laid, add, push_block};
use code_rules::logic_values_api::{Items, Value};
use code_rules::sim_time_api::picoseconds_of;
use flat_design::{Await, BlockId, ChannelUse, Expr, Statement, StmtId, ValueType};
use model_tree::{ClockItem, Span};
use std::alloc::{AllocError, Global};

/// A time of an item in picoseconds. One from 2^64 on is answered as out of memory.
fn span_time(span: Span) -> Result<u64, AllocError>
    ensures { IfOk result (λ time. time ≡ bodies.span_of span) }
{
    match picoseconds_of(span.count, span.unit) {
        None => Err(AllocError),
        Some(time) => Ok(time.0),
    }
}

/// The start of a clock in picoseconds, which is 0 where none is written. One from 2^64 on is answered as out of memory.
fn start_time(start: Option<Span>) -> Result<u64, AllocError>
    ensures { IfOk result (λ time. time ≡ bodies.start_of start) }
{
    match start {
        None => Ok(0),
        Some(span) => span_time(span),
    }
}

/// A wait for a time.
fn wait_for(time: u64) -> Statement
    ensures { statement_of result ≡ bodies.wait_for time }
{
    Statement::Wait(Await::For(Expr::Literal(Value::Moment(time))))
}

/// A write of a truth value.
fn write_truth(channel: u32, truth: bool) -> Statement
    ensures { statement_of result ≡ bodies.write_truth channel truth }
{
    Statement::Write(
        ChannelUse {
            name: channel,
            place: None,
        },
        ValueType::Bool,
        Expr::Literal(Value::Bool(truth)),
    )
}

/// The block of one period of a clock, which is 1 for a time and then 0 for another.
fn period_block(
    alloc: Global,
    channel: u32,
    high: u64,
    low: u64,
    laid: &mut Laid,
) -> Result<BlockId, AllocError>
    requires nested { IsNested laid.old }
    ensures grows { OnOk result (Grows laid.old laid.new) }
    ensures nested { OnOk result (IsNested laid.new) }
    ensures owned { IfOk result (λ b. EachFrom (length laid.old.blocks) laid.new (λ a n. Inside a b n)) }
    ensures only { IfOk result (λ b. OnlyFrom (length laid.old.blocks) laid.new (λ a n. Inside a b n)) }
    ensures reads { IfOk result (λ b. FromNowOn laid.new (λ a. AtBlock a b (λ ids. AreFirst a (high_and_low channel high low) ids []))) }
{
    let mut ids: Items<StmtId> = Items::new(alloc);
    add(laid, &mut ids, write_truth(channel, true))?;
    add(laid, &mut ids, wait_for(high))?;
    add(laid, &mut ids, write_truth(channel, false))?;
    add(laid, &mut ids, wait_for(low))?;
    push_block(laid, ids)
}

/// Adds the wait for the start of a clock, where that is not 0.
fn add_start(laid: &mut Laid, ids: &mut Items<StmtId>, start: u64) -> Result<(), AllocError>
    requires nested { IsNested laid.old }
    requires next { IsNext laid.old ids.old }
    ensures grows { OnOk result (Grows laid.old laid.new) }
    ensures nested { OnOk result (IsNested laid.new) }
    ensures next { OnOk result (IsNext laid.new ids.new) }
    ensures blocks { OnOk result (laid.new.blocks ≡ laid.old.blocks) }
    ensures reads { OnOk result (Adds laid.new ids.old ids.new (λ a more rest. AreFirst a (bodies.waits_first start) more rest)) }
{
    if start == 0 {
        return Ok(());
    }
    add(laid, ids, wait_for(start))?;
    Ok(())
}

/// The block of the thread of a clock, whose signal has this number among the names of its module: a wait for its start,
/// and then one period after another (IEEE 1666-2011, 6.7).
pub(crate) fn clock_block(
    alloc: Global,
    channel: u32,
    clock: &ClockItem,
    laid: &mut Laid,
) -> Result<BlockId, AllocError>
    requires nested { IsNested laid.old }
    ensures grows { OnOk result (Grows laid.old laid.new) }
    ensures nested { OnOk result (IsNested laid.new) }
    ensures owned { IfOk result (λ b. EachFrom (length laid.old.blocks) laid.new (λ a n. Inside a b n)) }
    ensures only { IfOk result (λ b. OnlyFrom (length laid.old.blocks) laid.new (λ a n. Inside a b n)) }
    ensures reads { IfOk result (λ b. FromNowOn laid.new (λ a. AtBlock a b (IsClockBlock a (Some channel) clock.now))) }
{
    let start = start_time(clock.start)?;
    let high = span_time(clock.high)?;
    let low = span_time(clock.period)?.saturating_sub(high);
    let inner = period_block(alloc, channel, high, low, laid)?;
    let mut ids: Items<StmtId> = Items::new(alloc);
    add_start(laid, &mut ids, start)?;
    let forever = Statement::While(Expr::Literal(Value::Bool(true)), inner);
    add(laid, &mut ids, forever)?;
    push_block(laid, ids)
}
