//! Resolved signals.
ghost use Rattle.std.specs.Prelude.{◌≡◌, ◌==◌, position, OnOk, OnErr};
ghost use Rattle.signal_channel.specs.Drivers as spec;

use crate::signal::Changed;
use crate::values::{is_one, is_zero};
use logic_values::{Digit, Value, is_same, resolve};
use std::alloc::{AllocError, Global};
use std::marker::Model;

/// A resolved signal (IEEE 1666-2011, 6.13): each process that wrote it drives it, and the drivers are resolved.
#[derive(Drop)]
pub struct Resolved {
    writers: Vec<u32>,
    drivers: Vec<Digit>,
    value: Digit,
}

impl Model for Resolved {
    ghost use Rattle.std.specs.Prelude.{◌≡◌, length};
    ghost use Rattle.signal_channel.specs.Drivers.{Driven, driven_code};

    ghost Value = { Driven };

    ghost coded = { driven_code };

    ghost view = { λ r. record {
      writers = r.writers.items;
      drivers = r.drivers.items;
      value = r.value;
    } };

    ghost invariant = { λ r. length r.writers.items ≡ length r.drivers.items };
}

// Where the writer of this serial stands.
fn place_of(writers: &[u32], p: u32) -> Option<usize>
    ensures { result ≡ position (λ w. w == p) writers.now }
{
    writers.iter().position(|w| *w == p)
}

// What the drivers make of the signal.
fn resolution(drivers: &[Digit]) -> Digit
    ensures { result ≡ spec.resolution drivers.now }
{
    if drivers.is_empty() {
        return Digit::X;
    }
    resolve(drivers)
}

fn edges(old: Digit, new: Digit) -> Changed
    ensures { result ≡ spec.edges old new }
{
    let changed = !is_same(Value::Logic(old), Value::Logic(new));
    Changed {
        changed,
        pos: changed && is_one(Value::Logic(new)),
        neg: changed && is_zero(Value::Logic(new)),
    }
}

impl Resolved {
    /// A resolved signal that nobody drives. Its value is X.
    pub fn new(alloc: Global) -> Resolved
        ensures { result ≡ spec.undriven }
    {
        Resolved {
            writers: Vec::new(alloc),
            drivers: Vec::new(alloc),
            value: Digit::X,
        }
    }

    /// Lets the process of this serial drive the digit, in place of the one that it drove. It counts after the next update.
    pub fn write(&mut self, p: u32, d: Digit) -> Result<(), AllocError>
        ensures ok { OnOk result (self.new ≡ spec.driven_by p d self.old) }
        ensures err { OnErr result (self.new ≡ self.old) }
    {
        match place_of(self.writers.as_slice(), p) {
            Some(i) => {
                self.drivers[i] = d;
                Ok(())
            }
            None => {
                self.writers.reserve(1)?;
                self.drivers.reserve(1)?;
                self.writers.push_reserved(p);
                self.drivers.push_reserved(d);
                Ok(())
            }
        }
    }

    /// Resolves the drivers, and says what that announces.
    pub fn update(&mut self) -> Changed
        ensures announced { result ≡ spec.edges self.old.value (spec.resolution self.old.drivers) }
        ensures left { self.new ≡ spec.resettled self.old }
    {
        let before = self.value;
        self.value = resolution(self.drivers.as_slice());
        edges(before, self.value)
    }

    /// The value.
    pub fn read(&self) -> Digit
        ensures { result ≡ self.now.value }
    {
        self.value
    }
}
