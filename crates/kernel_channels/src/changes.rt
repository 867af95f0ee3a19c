// Which channels of a kind the last update changed.
ghost use Rattle.std.specs.Prelude.{◌≡◌, false, true, IfOk, length, replicate, slice_get, slice_set, unwrap_or};
ghost use Rattle.kernel_channels.specs.UpdateMarks.{AllZero, marked_if};

use std::alloc::{AllocError, Global};
use std::marker::Model;

// A mark for each number below a size. Each has the round in which it was set, and counts in that round alone: so all of them
// are taken back at once, and none is looked at.
#[derive(Drop)]
pub(crate) struct Changes {
    // The round in which each was marked last; none was in round 0.
    rounds: Vec<u64>,
    // The present round.
    round: u64,
}

impl Model for Changes {
    ghost use Rattle.std.specs.Prelude.{Bool, List};
    ghost use Rattle.kernel_channels.specs.UpdateMarks.{marked_in, IsPresent};

    ghost Value = { List Bool };

    ghost view = { λ c. marked_in c.round c.rounds.items };

    ghost invariant = { λ c. IsPresent c.round c.rounds.items };
}

// No number was marked in any round.
fn forget_rounds(rounds: &mut [u64])
    ensures zero { AllZero rounds.new }
    ensures size { length rounds.new ≡ length rounds.old }
{
    for round in rounds.iter_mut() {
        *round = 0;
    }
}

impl Changes {
    // Marks for the numbers below the size, none of which is marked.
    pub(crate) fn new(alloc: Global, size: u32) -> Result<Changes, AllocError>
        ensures { IfOk result (λ marks. marks ≡ replicate size false) }
    {
        let rounds = vec![in alloc; 0; size as usize]?;
        Ok(Changes { rounds, round: 1 })
    }

    // Whether the number is marked. One from the size on is not.
    #[inline(always)]
    pub(crate) fn has(&self, n: u32) -> bool
        ensures { result ≡ unwrap_or (slice_get self.now n) false }
    {
        match self.rounds.get(n as usize) {
            Some(round) => *round == self.round,
            None => false,
        }
    }

    // Marks the number. At one from the size on nothing changes.
    #[inline(always)]
    pub(crate) fn set(&mut self, n: u32)
        ensures { self.new ≡ slice_set self.old n true }
    {
        let at = n as usize;
        if at < self.rounds.len() {
            self.rounds[at] = self.round;
        }
    }

    // Takes all marks back.
    #[inline(always)]
    pub(crate) fn clear_all(&mut self)
        ensures { self.new ≡ replicate (length self.old) false }
    {
        if self.round == u64::MAX {
            self.begin_anew();
        } else {
            self.round += 1;
        }
    }

    // The same, where no round follows the present one.
    #[cold]
    fn begin_anew(&mut self)
        ensures { self.new ≡ replicate (length self.old) false }
    {
        forget_rounds(self.rounds.as_mut_slice());
        self.round = 1;
    }
}

// Marks the number, where it changed.
#[inline(always)]
pub(crate) fn mark_if(marks: &mut Changes, yes: bool, n: u32)
    ensures { marks.new ≡ marked_if yes n marks.old }
{
    if yes {
        marks.set(n);
    }
}
