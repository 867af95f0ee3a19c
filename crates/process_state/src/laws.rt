ghost use Rattle.std.specs.Prelude.{◌≡◌};
ghost use Rattle.kernel_bodies.specs.FlatDesign.Code.{Arena};
ghost use Rattle.kernel_bodies.specs.SimModel.Residual.{Residual};
ghost use Rattle.kernel_bodies.specs.Strip.{strip};
ghost use Rattle.process_state.specs.declared.body.Body.{Body as Kept};
ghost use Rattle.process_state.specs.Bodies.{left_of, StandsForLeft};

/// What a body stands for has no numbers of guards.
pub fn stands_without_numbers()
    ensures { (a : Arena) (b : Kept) → strip (left_of a b) ≡ left_of a b }
{}

/// The frames of a body and the place inside them stand for one residual, and for no other.
pub fn stands_for_one_residual()
    ensures stands { (a : Arena) (b : Kept) → StandsForLeft a b (left_of a b) }
    ensures alone { (a : Arena) (b : Kept) (r : Residual) → StandsForLeft a b r → r ≡ left_of a b }
{}
