//! Laws of the rules.
ghost use Rattle.std.specs.Prelude.{◌≡◌, ◌++◌, ◌∷◌, List, Option, Some, None};
ghost use Rattle.std.specs.List.{AllByRecursion};
ghost use Rattle.std.specs.Option.{option_or};
ghost use Rattle.flat_design.specs.ModelTree.Tree.{Item, Model};
ghost use Rattle.flat_design.specs.ModelTree.declared.faults.Fault.{Fault};
ghost use Rattle.model_rules.specs.Sites.{Site, sites};
ghost use Rattle.model_rules.specs.Passes.{Rule, fault_at, fault_of, passes, first_fault};
ghost use Rattle.model_rules.specs.Answered.{IsFirstAt};
ghost use Rattle.model_rules.specs.Closed.{IsLeast};
ghost use Rattle.model_rules.specs.Distinct.{HasDistinctNames};
ghost use Rattle.model_rules.specs.Reach.{Names, functions, names_where, has_blocking, is_caller, is_called_by, reached_from, blocking_functions};

/// The fault of constructs in text order is that of the first part of them, and else that of what follows.
pub fn first_of_two()
    ensures { (rules : List Rule) (xs ys : List Site) → fault_of rules (xs ++ ys) ≡ option_or (fault_of rules xs) (fault_of rules ys) }
{}

/// The fault of a pass is that of a construct which breaks one of its rules, and no construct before it breaks one.
pub fn fault_is_first()
    ensures { (rules : List Rule) (xs : List Site) (f : Fault) → fault_of rules xs ≡ Some f → IsFirstAt rules xs f }
{}

/// Where a model has no first fault, no construct breaks a rule of any pass.
pub fn no_fault_nothing_broken()
    ensures { (m : Model) → first_fault m ≡ None → AllByRecursion (λ rules. AllByRecursion (λ x. fault_at rules x ≡ None) (sites m)) passes }
{}

/// What is reached from some functions is the least set of functions that has them and is closed under calls.
pub fn reached_is_least()
    ensures { (items : List Item) (roots : Names) → IsLeast is_caller (functions items) roots (reached_from items roots) }
{}

/// The functions that block are the least set that has those with a blocking statement, and with each function those that
/// call it.
pub fn blocking_is_least()
    ensures { (items : List Item) → IsLeast is_called_by (functions items) (names_where (has_blocking items) (functions items)) (blocking_functions items) }
{}

/// Where a model has no first fault, the names of its modules differ, and the names in each module.
pub fn names_differ()
    ensures { (m : Model) → first_fault m ≡ None → HasDistinctNames m }
{}
