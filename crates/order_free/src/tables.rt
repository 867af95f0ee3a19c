//! Who uses what, kind by kind.
ghost use Rattle.std.specs.Prelude.{◌≡◌, ◌≢◌, ◌≤◌, ℕ, OnOk, vec_len};
ghost use Rattle.order_free.specs.Users as spec;
ghost use Rattle.order_free.specs.Users.{users_in};
ghost use Rattle.order_free.specs.Tables.{users_at, Noted};
ghost use Rattle.order_free.specs.declared.uses.Use.{Use as Used};
ghost use Rattle.order_free.specs.declared.users.Users.TheVariants as users;

use super::users::{Users, joined};
use crate::Use;
use std::alloc::{AllocError, Global};

/// Who uses what. A table has the users of the objects of one kind by their numbers: nobody where it has ended.
#[derive(Drop)]
pub struct Tables {
    /// Of what acts at once on others, or is shared by nature.
    pub unfit: Users,
    /// Of what is watched.
    pub watches: Users,
    /// Of the quantum.
    pub quantum: Users,
    /// Of the variables.
    pub variables: Vec<Users>,
    /// Of the memories.
    pub memories: Vec<Users>,
    /// Of the signals that are written.
    pub written_signals: Vec<Users>,
    /// Of the fifos that are read.
    pub read_fifos: Vec<Users>,
    /// Of the fifos that are written.
    pub written_fifos: Vec<Users>,
    /// Of the events that are notified.
    pub notified: Vec<Users>,
    /// Of the events that are cancelled.
    pub cancelled: Vec<Users>,
}

/// Nobody uses anything.
pub(crate) fn no_users(alloc: Global) -> Tables
    ensures { (u : Used) → users_at result u ≡ users.Nobody }
{
    Tables {
        unfit: Users::Nobody,
        watches: Users::Nobody,
        quantum: Users::Nobody,
        variables: Vec::new(alloc),
        memories: Vec::new(alloc),
        written_signals: Vec::new(alloc),
        read_fifos: Vec::new(alloc),
        written_fifos: Vec::new(alloc),
        notified: Vec::new(alloc),
        cancelled: Vec::new(alloc),
    }
}

/// Makes a table at least so long.
fn grow(table: &mut Vec<Users>, count: usize) -> Result<(), AllocError>
    ensures long { OnOk result (count ≤ vec_len table.new) }
    ensures same { OnOk result ((k : ℕ) → users_in table.new.items k ≡ users_in table.old.items k) }
{
    while table.len() < count {
        table.push(Users::Nobody)?;
    }
    Ok(())
}

/// Under a number there are these users too.
fn note_at(table: &mut Vec<Users>, n: u32, x: Users) -> Result<(), AllocError>
    ensures here { OnOk result (users_in table.new.items n ≡ spec.joined (users_in table.old.items n) x) }
    ensures others { OnOk result ((k : ℕ) → k ≢ n → users_in table.new.items k ≡ users_in table.old.items k) }
{
    let place = n as usize;
    grow(table, place + 1)?;
    let before = table[place];
    table[place] = joined(before, x);
    Ok(())
}

/// Something has these users too.
pub(crate) fn note(tables: &mut Tables, what: Use, x: Users) -> Result<(), AllocError>
    ensures { OnOk result (Noted x what tables.old tables.new) }
{
    match what {
        Use::Unfit => {
            tables.unfit = joined(tables.unfit, x);
            Ok(())
        }
        Use::Watches => {
            tables.watches = joined(tables.watches, x);
            Ok(())
        }
        Use::Quantum => {
            tables.quantum = joined(tables.quantum, x);
            Ok(())
        }
        Use::Variable(n) => note_at(&mut tables.variables, n, x),
        Use::Memory(n) => note_at(&mut tables.memories, n, x),
        Use::WritesSignal(n) => note_at(&mut tables.written_signals, n, x),
        Use::ReadsFifo(n) => note_at(&mut tables.read_fifos, n, x),
        Use::WritesFifo(n) => note_at(&mut tables.written_fifos, n, x),
        Use::Notifies(n) => note_at(&mut tables.notified, n, x),
        Use::Cancels(n) => note_at(&mut tables.cancelled, n, x),
    }
}
