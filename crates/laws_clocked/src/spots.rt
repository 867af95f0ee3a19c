//! What shows of what is left of a body.
ghost use Rattle.std.specs.Prelude.{◌≡◌, ℕ, List, [], ◌∷◌, None};
ghost use Rattle.laws_runs.specs.FlatDesign.Code.{Arena};
ghost use Rattle.laws_runs.specs.SimModel.Residual.{Residual, Frame, skip, followed, block, settle, put, next_of, statement, innermost, in_innermost};
ghost use Rattle.laws_clocked.specs.Spots.{Shows, IsLeft};
ghost use Rattle.laws_clocked.specs.Ticks.{Test, Tick, HasTick, left_at, entering, declaring, testing, waiting, checking};

/// What shows of a body, and has a statement in place, is what comes next of it (`next`); what takes the place of that statement
/// shows (`puts`); once finished parts have fallen away, what is left of it shows (`settles`); and a local variable that is set
/// changes none of it (`sets`).
pub fn what_shows_stands_in_place()
    ensures next { (x r : Residual) (s : ℕ) → Shows x r → next_of x ≡ statement s → next_of r ≡ statement s }
    ensures puts { (x r n : Residual) (s : ℕ) → Shows x r → next_of x ≡ statement s → Shows (put x n) (put r n) }
    ensures settles { (a : Arena) (x r : Residual) → Shows x r → IsLeft (settle a x) → Shows (settle a x) (settle a r) }
    ensures sets { (f : Frame → Frame) (x r : Residual) → Shows x r → innermost x ≡ None → Shows x (in_innermost f r) }
{}

/// What is left of a thread inside a tick goes from statement to statement: its block (`enters`); behind the declaration of the count
/// the loop (`declares`); where that goes on, the wait (`loops`); behind the wait all tests (`waits`); behind a test that does not
/// hold the next one, or what lowers the count (`tests`); and behind that the loop again (`lowers`).
pub fn ticks_go_on()
    ensures enters { (a : Arena) (t : Tick) → HasTick a t → (r : Residual) → Shows (left_at t entering) r → Shows (left_at t declaring) (settle a (put r (block a t.inside))) }
    ensures declares { (a : Arena) (t : Tick) → HasTick a t → (f : Frame → Frame) (r : Residual) → Shows (left_at t declaring) r → Shows (left_at t testing) (settle a (in_innermost f (put r skip))) }
    ensures loops { (a : Arena) (t : Tick) → HasTick a t → (r : Residual) → Shows (left_at t testing) r → Shows (left_at t waiting) (settle a (put r (followed (block a t.round) (t.loops ∷ [])))) }
    ensures waits { (a : Arena) (t : Tick) → HasTick a t → (r : Residual) → Shows (left_at t waiting) r → Shows (left_at t (checking t.tests)) (settle a (put r skip)) }
    ensures tests { (a : Arena) (t : Tick) → HasTick a t → (x : Test) (xs : List Test) (r : Residual) → Shows (left_at t (checking (x ∷ xs))) r → Shows (left_at t (checking xs)) (settle a (put r skip)) }
    ensures lowers { (a : Arena) (t : Tick) → HasTick a t → (f : Frame → Frame) (r : Residual) → Shows (left_at t (checking [])) r → Shows (left_at t testing) (settle a (in_innermost f (put r skip))) }
{}
