//! What a rule of choices holds.
ghost use Rattle.std.specs.Prelude.{◌≡◌, ◌%◌};
ghost use Rattle.kernel_state.specs.ReadySet.Ready.{rising};
ghost use Rattle.rand_pcg.specs.Pcg.{pcg32};
ghost use Rattle.kernel_state.specs.SimModel.Runs.{chooser_of, picked, held_then, at_place};
ghost use Rattle.kernel_phases.specs.Holding.{chooser_in};
ghost use Rattle.std.specs.FinSet as set;

use crate::chooser::Chooser;
use crate::listed::Listed;
use kernel_state::ready_set_api::ReadySet;
use kernel_state::sim_model_api::Rule;
use rand_core::SeedableRng;
use rand_core::utils::NextWord;
use rand_pcg::Pcg32;
use std::marker::Model;

#[derive(Drop)]
enum Held {
    Least,
    Greatest,
    Seeded(Pcg32),
    Listed(Listed),
}

/// What a rule of choices holds between two takings: nothing, a generator, or what is left of a list.
#[derive(Drop)]
pub struct Choosing {
    held: Held,
}

impl Model for Choosing {
    ghost use Rattle.kernel_state.specs.SimModel.Runs.{Chooser};
    ghost use Rattle.kernel_phases.specs.Holding.{chooser_in};

    ghost Value = { Chooser };

    ghost view = { λ a. chooser_in a.held };
}

// The serial that a word of a generator points at.
fn pointed_at(word: u32, ready: &ReadySet) -> Option<u32>
    ensures { result ≡ at_place (rising ready.now.members) (word % set.len ready.now.members) }
{
    let n = ready.len();
    if n == 0 {
        return None;
    }
    ready.kth(word % n)
}

// One word is taken, whether there is a runnable process or not.
fn seeded_choice(generator: &mut Pcg32, ready: &ReadySet) -> Option<u32>
    ensures answer { result ≡ at_place (rising ready.now.members) ((pcg32 generator.old).0 % set.len ready.now.members) }
    ensures held { generator.new ≡ (pcg32 generator.old).1 }
{
    let word = generator.next_word();
    pointed_at(word, ready)
}

fn chosen(held: &mut Held, ready: &ReadySet) -> Option<u32>
    ensures answer { result ≡ picked (chooser_in held.old) (rising ready.now.members) }
    ensures held { chooser_in held.new ≡ held_then (chooser_in held.old) }
{
    match held {
        Held::Least => ready.least(),
        Held::Greatest => ready.greatest(),
        Held::Seeded(generator) => seeded_choice(generator, ready),
        Held::Listed(list) => list.next(),
    }
}

impl Choosing {
    /// What a rule holds before the first taking. It takes no memory: a replayed list is kept as it is.
    pub fn new(rule: Rule) -> Choosing
        ensures { result ≡ chooser_of rule }
    {
        let held = match rule {
            Rule::First => Held::Least,
            Rule::Last => Held::Greatest,
            Rule::Seed(seed) => Held::Seeded(Pcg32::seed_from_u64(seed)),
            Rule::Replay(choices) => Held::Listed(Listed::new(choices)),
        };
        Choosing { held }
    }
}

/// A rule picks by `picked`, and holds `held_then` behind it.
///
/// A seeded rule takes one word of its generator, and a replayed list its next choice, in each call. There is none
/// where nothing is runnable, unless the rule is a list: its next choice comes whether it is runnable or not, and
/// there is none where no choice is left.
impl Chooser for Choosing {
    ghost picks = { picked };

    ghost later = { λ held _. held_then held };

    fn choose(&mut self, ready: &ReadySet) -> Option<u32> {
        chosen(&mut self.held, ready)
    }
}
