//! The verdict, by what is noted.
ghost use Rattle.std.specs.Prelude.{◌≡◌, ◌↔◌, ℕ, IsTrue, true};
ghost use Rattle.order_free.specs.Users as spec;
ghost use Rattle.order_free.specs.Users.{users_in};
ghost use Rattle.order_free.specs.Broken.{Broken, Judges};

use super::tables::Tables;
use super::users::{Users, is_many, is_somebody, joined};

/// Whether a design keeps the rule on the order of its processes.
#[derive(Clone, Copy, Debug, PartialEq, Eq)]
pub enum Verdict {
    /// It keeps all five parts.
    Yes,
    /// The rule is broken.
    No {
        /// The first of its five parts that is broken, counted from 1.
        rule: u8,
    },
}

/// Whether a table has more than one user of something.
fn any_many(table: &[Users]) -> bool
    ensures found { IsTrue result → (n : ℕ) × (spec.is_many (users_in table.now n) ≡ true) }
    ensures only { (n : ℕ) → spec.is_many (users_in table.now n) ≡ true → IsTrue result }
{
    for x in table {
        if is_many(*x) {
            return true;
        }
    }
    false
}

/// The users under a number.
fn users_in(table: &[Users], n: usize) -> Users
    ensures { result ≡ users_in table.now n }
{
    match table.get(n) {
        Some(x) => *x,
        None => Users::Nobody,
    }
}

/// Whether who cancels, and who cancels or notifies as well, are more than one.
fn is_clash(cancelled: Users, notified: Users) -> bool
    ensures { result ≡ spec.is_clash cancelled notified }
{
    is_somebody(cancelled) && is_many(joined(cancelled, notified))
}

/// Whether an event is cancelled, and cancelled or notified by another process.
fn any_clash(cancelled: &[Users], notified: &[Users]) -> bool
    ensures found { IsTrue result → (n : ℕ) × (spec.is_clash (users_in cancelled.now n) (users_in notified.now n) ≡ true) }
    ensures only { (n : ℕ) → spec.is_clash (users_in cancelled.now n) (users_in notified.now n) ≡ true → IsTrue result }
{
    for (n, x) in cancelled.iter().enumerate() {
        if is_clash(*x, users_in(notified, n)) {
            return true;
        }
    }
    false
}

/// Whether a variable, a memory or the quantum has more than one user.
fn breaks_stores(tables: &Tables) -> bool
    ensures found { IsTrue result → Broken tables.now 3 }
    ensures only { Broken tables.now 3 → IsTrue result }
{
    is_many(tables.quantum)
        || any_many(tables.variables.as_slice())
        || any_many(tables.memories.as_slice())
}

/// Whether a signal or an end of a fifo has more than one user.
fn breaks_ends(tables: &Tables) -> bool
    ensures found { IsTrue result → Broken tables.now 4 }
    ensures only { Broken tables.now 4 → IsTrue result }
{
    any_many(tables.written_signals.as_slice())
        || any_many(tables.read_fifos.as_slice())
        || any_many(tables.written_fifos.as_slice())
}

/// Whether an event is cancelled by one process, and cancelled or notified by another.
fn breaks_cancelled(tables: &Tables) -> bool
    ensures found { IsTrue result → Broken tables.now 5 }
    ensures only { Broken tables.now 5 → IsTrue result }
{
    any_clash(tables.cancelled.as_slice(), tables.notified.as_slice())
}

/// The verdict: the first part of the rule that is broken, if one is.
pub(crate) fn verdict_of(tables: &Tables) -> Verdict
    ensures { Judges tables.now result }
{
    if is_somebody(tables.unfit) {
        Verdict::No { rule: 1 }
    } else if is_somebody(tables.watches) {
        Verdict::No { rule: 2 }
    } else if breaks_stores(tables) {
        Verdict::No { rule: 3 }
    } else if breaks_ends(tables) {
        Verdict::No { rule: 4 }
    } else if breaks_cancelled(tables) {
        Verdict::No { rule: 5 }
    } else {
        Verdict::Yes
    }
}
