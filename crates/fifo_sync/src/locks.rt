//! Locks that answer at once.
ghost use Rattle.std.specs.Prelude.{◌≡◌, ◌+◌, ◌-◌, ◌^◌, ◌<◌, not, None};
ghost use Rattle.fifo_sync.specs.Locks.{answer, is_unlocked, is_owner, locked_by, unlocked_by, is_used_up};

use std::marker::Model;

/// A mutex (IEEE 1666-2011, 6.27), seen as its owner, if there is one.
#[derive(Drop)]
pub struct Mutex {
    owner: Option<u32>,
}

impl Model for Mutex {
    ghost use Rattle.std.specs.Prelude.{ℕ, Option};

    ghost Value = { Option ℕ };

    ghost view = { λ m. m.owner };
}

impl Mutex {
    /// A mutex that nobody owns.
    pub fn new() -> Mutex
        ensures { result ≡ None }
    {
        Mutex { owner: None }
    }

    /// Locks the mutex for the process of this serial and answers 0, or answers -1 where somebody owns it, be it that process.
    pub fn trylock(&mut self, p: u32) -> i32
        ensures done { result ≡ answer (is_unlocked self.old) }
        ensures owner { self.new ≡ locked_by p self.old }
    {
        match self.owner {
            Some(_) => -1,
            None => {
                self.owner = Some(p);
                0
            }
        }
    }

    /// Unlocks the mutex and answers 0, or answers -1 where the process of this serial does not own it.
    pub fn unlock(&mut self, p: u32) -> i32
        ensures done { result ≡ answer (is_owner p self.old) }
        ensures owner { self.new ≡ unlocked_by p self.old }
    {
        match self.owner {
            Some(owner) if owner == p => {
                self.owner = None;
                0
            }
            _ => -1,
        }
    }
}

/// A semaphore (IEEE 1666-2011, 6.29), seen as its value.
#[derive(Drop)]
pub struct Semaphore {
    count: u64,
}

impl Model for Semaphore {
    ghost use Rattle.std.specs.Prelude.{ℕ};

    ghost Value = { ℕ };

    ghost view = { λ s. s.count };
}

impl Semaphore {
    /// A semaphore of this value.
    pub fn new(n: u64) -> Semaphore
        ensures { result ≡ n }
    {
        Semaphore { count: n }
    }

    /// Takes one of the value and answers 0, or answers -1 where the value is 0.
    pub fn trywait(&mut self) -> i32
        ensures done { result ≡ answer (not (is_used_up self.old)) }
        ensures left { self.new ≡ self.old - 1 }
    {
        if self.count == 0 {
            return -1;
        }
        self.count -= 1;
        0
    }

    /// Adds one to the value.
    pub fn post(&mut self)
        requires { self.old < 2 ^ 64 - 1 }
        ensures { self.new ≡ self.old + 1 }
    {
        self.count += 1;
    }

    /// The value.
    pub fn value(&self) -> u64
        ensures { result ≡ self.now }
    {
        self.count
    }
}
