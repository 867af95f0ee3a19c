//! What statements use by names.
ghost use Rattle.std.specs.Prelude.{◌≡◌, ◌++◌, OnOk};
ghost use Rattle.flat_design.specs.Code.{statement_of};
ghost use Rattle.order_free.specs.Uses as spec;

use super::terms::{
    add, add_arguments, add_await, add_destination, add_name, add_read, add_store, add_term,
    add_write, add_written,
};
use crate::Deed;
use flat_design::Statement;
use std::alloc::AllocError;

/// Puts what a statement does behind the others, without its blocks and without what it calls.
pub(crate) fn add_statement(statement: &Statement, deeds: &mut Vec<Deed>) -> Result<(), AllocError>
    ensures { OnOk result (deeds.new.items ≡ deeds.old.items ++ spec.deeds_of (statement_of statement.now)) }
{
    match statement {
        Statement::Var(_, _, e) => add_written(e, deeds),
        Statement::Assign(to, e) => {
            add_destination(to, deeds)?;
            add_term(e, deeds)
        }
        Statement::Call(x, _, arguments) => {
            add_arguments(arguments.as_slice(), deeds)?;
            add_store(*x, deeds)
        }
        Statement::Read(x, channel) => {
            add_read(channel, deeds)?;
            add_store(*x, deeds)
        }
        Statement::NbRead(x, channel, y) => {
            add_read(channel, deeds)?;
            add_store(*x, deeds)?;
            add_name(y.name, deeds)
        }
        Statement::NbWrite(x, channel, _, e) => {
            add_write(channel, deeds)?;
            add_term(e, deeds)?;
            add_store(*x, deeds)
        }
        Statement::Trylock(_, _) => add(Deed::Unfit, deeds),
        Statement::Unlock(_, _) => add(Deed::Unfit, deeds),
        Statement::SemTrywait(_, _) => add(Deed::Unfit, deeds),
        Statement::NbTransport(_, _, _, _, _) => add(Deed::Unfit, deeds),
        Statement::Write(channel, _, e) => {
            add_write(channel, deeds)?;
            add_term(e, deeds)
        }
        Statement::Print(_, e) => add_written(e, deeds),
        Statement::Notify(_) => add(Deed::Unfit, deeds),
        Statement::NotifyDelta(n) => add(Deed::Notifies(*n), deeds),
        Statement::NotifyAfter(n, e) => {
            add(Deed::Notifies(*n), deeds)?;
            add_term(e, deeds)
        }
        Statement::Cancel(n) => add(Deed::Cancels(*n), deeds),
        Statement::Wait(wait) => add_await(wait, deeds),
        Statement::NextTrigger(wait) => add_await(wait, deeds),
        Statement::Lock(_) => add(Deed::Unfit, deeds),
        Statement::SemWait(_) => add(Deed::Unfit, deeds),
        Statement::Post(_) => add(Deed::Unfit, deeds),
        Statement::Make(_, _, _) => add(Deed::Unfit, deeds),
        Statement::Acquire(_) => add(Deed::Unfit, deeds),
        Statement::Release(_) => add(Deed::Unfit, deeds),
        Statement::Carry(_, _) => add(Deed::Unfit, deeds),
        Statement::BTransport(_, _, _) => add(Deed::Unfit, deeds),
        Statement::QkGlobal(e) => {
            add(Deed::Quantum, deeds)?;
            add_term(e, deeds)
        }
        Statement::QkInc(_, e) => {
            add(Deed::Quantum, deeds)?;
            add_term(e, deeds)
        }
        Statement::QkSet(_, e) => {
            add(Deed::Quantum, deeds)?;
            add_term(e, deeds)
        }
        Statement::QkReset(_) => add(Deed::Quantum, deeds),
        Statement::Spawn(_) => add(Deed::Unfit, deeds),
        Statement::Control(_, _, _) => add(Deed::Unfit, deeds),
        Statement::ThrowIt(_, _, _) => add(Deed::Unfit, deeds),
        Statement::Throw(_) => Ok(()),
        Statement::Return(e) => add_written(e, deeds),
        Statement::Stop => add(Deed::Unfit, deeds),
        Statement::If(e, _, _) => add_term(e, deeds),
        Statement::While(e, _) => add_term(e, deeds),
        Statement::Guard(_, _) => Ok(()),
        Statement::Try(_, _) => Ok(()),
    }
}
