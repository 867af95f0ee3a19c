//! The names with their times, and for the first numbers whether a name of that number may be there at all.
ghost use Rattle.std.specs.Prelude.{◌≡◌, ◌≢◌, ℕ, ◌⊎◌, ◌↔◌, ◌+◌, ◌++◌, ◌<◌, ◌≤◌, Bool, true, false, length, get_or, IsTrue, IsNone, IfSome, OnOk, OnErr, Some, vec_len, vec_capacity};
ghost use Rattle.std.specs.FinMap as map;
ghost use Rattle.timed_queue.specs.Alone.{IsNoted};

use crate::queue::Queue;
use sim_time::Time;
use std::alloc::{AllocError, Global};
use std::marker::Model;

// A queue that tells by a flag of most names which are not there, without a look-up.
#[derive(Drop)]
pub(crate) struct Noted {
    // By name: whether it may be there.
    flags: Vec<bool>,
    queue: Queue,
}

impl Model for Noted {
    ghost use Rattle.std.specs.FinMap as map;
    ghost use Rattle.timed_queue.specs.Timed.{Timed, timed_code};

    ghost Value = { Timed };

    ghost coded = { timed_code };

    ghost use Rattle.timed_queue.specs.Alone.{IsNoted};

    ghost view = { λ n. n.queue };

    ghost invariant = { λ n. IsNoted n.flags.items (λ p. map.contains_key n.queue.times p) };
}

// Notes whether the name may be there, where it has a flag.
#[inline(always)]
fn note(flags: &mut Vec<bool>, name: u32, there: bool)
    ensures long { length flags.new.items ≡ length flags.old.items }
    ensures here { name < length flags.old.items → get_or flags.new.items name false ≡ there }
    ensures others { (q : ℕ) → q ≢ name → get_or flags.new.items q false ≡ get_or flags.old.items q false }
{
    if (name as usize) < flags.len() {
        flags[name as usize] = there;
    }
}

// Whether a flag tells that the name is not there.
#[inline(always)]
fn is_out(flags: &Vec<bool>, name: u32) -> bool
    ensures { (test : ℕ → Bool) → IsNoted flags.now.items test → result ≡ true → test name ≡ false }
{
    if (name as usize) < flags.len() {
        return !flags[name as usize];
    }
    false
}

// A flag for each of the first n names, which may be there where they had none.
fn grow(flags: &mut Vec<bool>, n: usize) -> Result<(), AllocError>
    ensures { (test : ℕ → Bool) → IsNoted flags.old.items test → IsNoted flags.new.items test }
{
    'growing: while flags.len() < n {
        match flags.push(true) {
            Ok(()) => {}
            Err(_) => return Err(AllocError),
        }
    }
    Ok(())
}

impl Noted {
    ghost use Rattle.timed_queue.specs.Timed.{with_time, without, without_due, due_at, is_due, IsEarliest, AddsEach};

    // A queue with no name and no room. It takes no memory.
    pub(crate) fn new(alloc: Global) -> Noted
        ensures { result.times ≡ map.empty }
    {
        Noted {
            flags: Vec::new(alloc),
            queue: Queue::new(alloc),
        }
    }

    // How many names there are.
    #[inline(always)]
    pub(crate) fn len(&self) -> u32
        ensures { result ≡ map.len self.now.times }
    {
        self.queue.len()
    }

    // Whether there is no name.
    #[inline(always)]
    pub(crate) fn is_empty(&self) -> bool
        ensures { IsTrue result ↔ (map.len self.now.times ≡ 0) }
    {
        self.queue.is_empty()
    }

    // Makes room where there is less than for `n` names more.
    #[inline(never)]
    fn make_room(&mut self, n: u32) -> Result<(), AllocError>
        ensures ok { OnOk result (n ≤ self.new.spare) }
        ensures grows { self.old.spare ≤ self.new.spare }
        ensures kept { self.new.times ≡ self.old.times }
        ensures err { OnErr result (self.new ≡ self.old) }
    {
        // for as many again, so that one name after another asks seldom
        let more = n.max(self.queue.len());
        let names = self.queue.len() as usize + more as usize;
        match grow(&mut self.flags, names) {
            Ok(()) => self.queue.reserve(more),
            Err(error) => Err(error),
        }
    }

    // Makes room for at least `n` names more.
    #[inline(always)]
    pub(crate) fn reserve(&mut self, n: u32) -> Result<(), AllocError>
        ensures ok { OnOk result (n ≤ self.new.spare) }
        ensures grows { self.old.spare ≤ self.new.spare }
        ensures kept { self.new.times ≡ self.old.times }
        ensures err { OnErr result (self.new ≡ self.old) }
    {
        if n <= self.queue.spare() {
            return Ok(());
        }
        self.make_room(n)
    }

    // Gives the name this time, in place of the one that it had.
    #[inline(always)]
    pub(crate) fn set(&mut self, name: u32, t: Time)
        requires { IsTrue (map.contains_key self.old.times name) ⊎ (0 < self.old.spare) }
        ensures { self.new ≡ with_time self.old name t }
    {
        note(&mut self.flags, name, true);
        self.queue.set(name, t);
    }

    // Takes the name out, if it is there.
    #[inline(always)]
    pub(crate) fn clear(&mut self, name: u32)
        ensures { self.new ≡ without self.old name }
    {
        if is_out(&self.flags, name) {
            return;
        }
        self.queue.clear(name);
        note(&mut self.flags, name, false);
    }

    // The earliest time that a name has.
    #[inline(always)]
    pub(crate) fn earliest(&self) -> Option<Time>
        ensures empty { IsNone result ↔ (self.now.times ≡ map.empty) }
        ensures least { IfSome result (IsEarliest self.now.times) }
    {
        self.queue.earliest()
    }

    // A time that no name's time is before, in the time of a few tests: the first time of the first place that holds a name.
    #[inline(always)]
    pub(crate) fn not_before(&self) -> Option<Time>
        ensures none { IsNone result ↔ (self.now.times ≡ map.empty) }
        ensures bound { IfSome result (λ t. (name : ℕ) (other : Time) → map.get self.now.times name ≡ Some other → t.0 ≤ other.0) }
    {
        self.queue.not_before()
    }

    // Moves each name with this very time out of the queue and behind what `out` has, in rising order of the names.
    #[inline(always)]
    pub(crate) fn take_due(&mut self, t: Time, out: &mut Vec<u32>)
        requires { vec_len out.old + map.len (due_at self.old.times t) ≤ vec_capacity out.old }
        ensures left { self.new ≡ without_due self.old t }
        ensures taken { AddsEach out.old.items out.new.items (is_due self.old.times t) }
        ensures order { out.new.items ≡ out.old.items ++ map.keys (due_at self.old.times t) }
        ensures capacity { vec_capacity out.new ≡ vec_capacity out.old }
    {
        self.queue.take_due(t, out);
    }
}
