//! Entries put into a wheel, changed and taken out.
ghost use Rattle.std.specs.Prelude.{◌≡◌, ◌+◌, ◌^◌, ◌<◌, ◌≤◌, length};
ghost use Rattle.timed_queue.specs.Nodes.{IsEntry, Others, Holds, place_of};
ghost use Rattle.timed_queue.specs.Sound.{IsWheel, IsSettled};

use crate::placing::place_of;
use crate::wheel::Wheel;

impl Wheel {
    // Gives the entry of the node another time.
    pub(crate) fn renew(&mut self, i: u32, name: u32, t: u64)
        requires sound { IsWheel self.old }
        requires settled { IsSettled self.old }
        requires entry { IsEntry self.old.nodes.items i }
        requires late { self.old.origin ≤ t }
        ensures sound { IsWheel self.new }
        ensures settled { IsSettled self.new }
        ensures others { Others self.old.nodes.items self.new.nodes.items i }
        ensures holds { Holds self.new.nodes.items i name t }
        ensures room { self.new.room ≡ self.old.room }
    {
        let place = place_of(t, self.origin);
        self.leave(i);
        self.fill(i, name, t);
        self.enter(i, place);
    }

    // Puts an entry in, and gives its node.
    pub(crate) fn add(&mut self, name: u32, t: u64) -> u32
        requires sound { IsWheel self.old }
        requires settled { IsSettled self.old }
        requires some { 0 < self.old.room }
        requires late { self.old.origin ≤ t }
        ensures sound { IsWheel self.new }
        ensures settled { IsSettled self.new }
        ensures was { place_of self.old.nodes.items result ≡ 704 }
        ensures others { Others self.old.nodes.items self.new.nodes.items result }
        ensures holds { Holds self.new.nodes.items result name t }
        ensures room { self.new.room + 1 ≡ self.old.room }
    {
        let place = place_of(t, self.origin);
        let i = self.take_free();
        self.fill(i, name, t);
        self.enter(i, place);
        i
    }

    // Takes the entry of the node out.
    #[inline(never)]
    pub(crate) fn remove(&mut self, i: u32)
        requires sound { IsWheel self.old }
        requires settled { IsSettled self.old }
        requires entry { IsEntry self.old.nodes.items i }
        requires fits { self.old.room + 1 < 2 ^ 32 }
        ensures sound { IsWheel self.new }
        ensures settled { IsSettled self.new }
        ensures others { Others self.old.nodes.items self.new.nodes.items i }
        ensures gone { place_of self.new.nodes.items i ≡ 704 }
        ensures room { self.new.room ≡ self.old.room + 1 }
    {
        self.leave(i);
        self.give_free(i);
    }
}
