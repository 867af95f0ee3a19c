ghost use Rattle.std.specs.Prelude.{◌≡◌, ◌≤◌, ◌∷◌, [], List, ℕ, Some, None, true};
ghost use Rattle.command_line.specs.declared.modes.Generated.{Generated};
ghost use Rattle.command_line.specs.Given.{Given, given_by};
ghost use Rattle.command_line.specs.Line.{Generate, Simulate, Simulation, are_apart, line_of};
ghost use Rattle.command_line.specs.Numbers.{budget_limit};
ghost use Rattle.command_line.specs.Plain.{has_no_hyphen, plain_simulation};

/// Two names that begin with no hyphen ask for a simulation of these files, with all that is left out as by default.
pub fn two_names_are_a_simulation()
    ensures { (model script : List ℕ) → has_no_hyphen model ≡ true → has_no_hyphen script ≡ true
        → line_of (model ∷ script ∷ []) ≡ Some (Simulate (plain_simulation model script)) }
{}

/// A replayed list stands with no order and with no file for choices, and the trace and the choices go to different
/// files: words that give both ask for nothing.
pub fn what_excludes_what()
    ensures replay_and_order { (words : List (List ℕ)) (g : Given) (file name : List ℕ) → given_by words ≡ Some g
        → g.replay ≡ Some file → g.order ≡ Some name → line_of words ≡ None }
    ensures replay_and_choices { (words : List (List ℕ)) (g : Given) (file name : List ℕ) → given_by words ≡ Some g
        → g.replay ≡ Some file → g.choices ≡ Some name → line_of words ≡ None }
    ensures one_file { (words : List (List ℕ)) (g : Given) (file : List ℕ) → given_by words ≡ Some g
        → g.vcd ≡ Some file → g.choices ≡ Some file → line_of words ≡ None }
{}

/// A simulation writes its trace and its choices to different files.
pub fn simulations_write_apart()
    ensures { (words : List (List ℕ)) (s : Simulation) → line_of words ≡ Some (Simulate s) → are_apart s.vcd s.choices ≡ true }
{}

/// No run is asked for with more steps than the greatest budget.
pub fn budgets_are_limited()
    ensures simulated { (words : List (List ℕ)) (s : Simulation) → line_of words ≡ Some (Simulate s) → s.budget ≤ budget_limit }
    ensures generated { (words : List (List ℕ)) (g : Generated) → line_of words ≡ Some (Generate g) → g.budget ≤ budget_limit }
{}
