//! Numbers that a generator draws, the same ones in each run.

use rand_core::utils::NextWord;
use rand_pcg::Pcg32;

// The generator.
#[derive(Drop)]
pub(crate) struct Draws {
    words: Pcg32,
}

impl Draws {
    // The generator before its first number.
    pub(crate) fn new() -> Draws {
        Draws {
            words: Pcg32::new(2011, 1666),
        }
    }

    // A number below this one.
    pub(crate) fn below(&mut self, n: u32) -> u32 {
        match self.words.next_word().checked_rem(n) {
            Some(rest) => rest,
            None => 0,
        }
    }
}
