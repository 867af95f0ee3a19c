//! The order of processes, in evaluation phases and in whole runs.
ghost use Rattle.std.specs.Prelude.{◌≡◌, ℕ, Some};
ghost use Rattle.sim_model.specs.FlatDesign.declared.design.Design.{Design};
ghost use Rattle.sim_model.specs.Configuration.{Config};
ghost use Rattle.sim_model.specs.Runs.{stop_of};
ghost use Rattle.sim_model.specs.declared.plain.Rule.{Rule};
ghost use Rattle.sim_model.specs.declared.plain.Stop.TheVariants as stop;
ghost use Rattle.order_free.specs.Free.{Free};
ghost use Rattle.laws_order.specs.AnyOrder.{OrderDoesNotMatter};
ghost use Rattle.laws_order.specs.Evaluations.{IsDone};

use crate::below::{runs_keep_to_turns, the_same_goes_on};

/// In a design that keeps the rule on the order of processes it does not matter in which order they are taken, which IEEE 1666-2011,
/// 4.2.1.2, leaves open: neither what an evaluation phase comes to depends on it, nor how long a run is that ends with its script carried
/// out, nor what it shows.
pub fn order_does_not_matter()
    ensures { (d : Design) → Free d → OrderDoesNotMatter d }
{
    the_same_goes_on();
    runs_keep_to_turns();
}

/// A session ends as done exactly where it has ended, and not because the model asked to stop.
pub fn sessions_end_done()
    ensures done { (c : Config) (rule : Rule) (takings steps budget : ℕ) → IsDone c → stop_of c rule takings steps budget ≡ Some stop.Done }
    ensures only { (c : Config) (rule : Rule) (takings steps budget : ℕ) → stop_of c rule takings steps budget ≡ Some stop.Done → IsDone c }
{}
