//! The lines that do not depend on the size.
ghost use Rattle.std.specs.Prelude.{◌≡◌};
ghost use Rattle.model_gen.specs.Generated as spec;

/// The module that writes the numbers from 0 to 99.
#[tactic(auto, unfolding(crate::specs::Generated::producer))]
pub(crate) fn producer() -> &'static [u8]
    ensures { result.now ≡ spec.producer }
{
    b"module P {
  fifo_out uint<32> b;
  thread t {
    var uint<32> i;
    while i < 100 {
      write b i;
      i = i + 1;
    }
  }
}
"
}

/// The module that writes one more than what it reads.
#[tactic(auto, unfolding(crate::specs::Generated::stage))]
pub(crate) fn stage() -> &'static [u8]
    ensures { result.now ≡ spec.stage }
{
    b"module S {
  fifo_in uint<32> a;
  fifo_out uint<32> b;
  thread t {
    var uint<32> x;
    while true {
      x = read a;
      write b x + 1;
    }
  }
}
"
}

/// The module that reads a hundred numbers and shows their sum so far.
#[tactic(auto, unfolding(crate::specs::Generated::consumer))]
pub(crate) fn consumer() -> &'static [u8]
    ensures { result.now ≡ spec.consumer }
{
    b"module C {
  fifo_in uint<32> a;
  signal uint<32> s;
  thread t {
    var uint<32> x;
    var uint<32> k;
    var uint<32> z;
    while k < 100 {
      x = read a;
      z = z + x;
      write s z;
      k = k + 1;
    }
  }
}
"
}

/// The first lines of the top module: the first fifo, and the producer that is bound to it.
#[tactic(auto, unfolding(crate::specs::Generated::first_lines))]
pub(crate) fn first_lines() -> &'static [u8]
    ensures { result.now ≡ spec.first_lines }
{
    b"module G {
  fifo uint<32> f0 size 4;
  inst P p;
  bind p.b to f0;
"
}
