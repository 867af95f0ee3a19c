//! A replayed list of choices, taken one after another.
ghost use Rattle.std.specs.Prelude.{◌≡◌};
ghost use Rattle.kernel_state.specs.SimModel.Runs.{first_of, rest_of};

use kernel_state::flat_design_api::Choices;
use std::marker::Model;

/// A list of choices, and how many of them were taken.
#[derive(Drop)]
pub struct Listed {
    choices: Choices,
    taken: usize,
}

impl Model for Listed {
    ghost use Rattle.std.specs.Prelude.{ℕ, List, drop};

    ghost Value = { List ℕ };

    ghost view = { λ a. drop a.taken a.choices };
}

impl Listed {
    /// A list of which no choice was taken. It takes no memory.
    pub fn new(choices: Choices) -> Listed
        ensures { result ≡ choices }
    {
        Listed { choices, taken: 0 }
    }

    /// The next choice, which is taken, or `None` where none is left.
    pub fn next(&mut self) -> Option<u32>
        ensures answer { result ≡ first_of self.old }
        ensures left { self.new ≡ rest_of self.old }
    {
        let choices = self.choices.as_slice();
        if self.taken >= choices.len() {
            return None;
        }
        let p = choices[self.taken];
        self.taken += 1;
        Some(p)
    }
}
