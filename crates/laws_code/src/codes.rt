//! Laws of the code of models without a first fault.
ghost use Rattle.std.specs.Prelude.{◌≡◌, None};
ghost use Rattle.std.specs.List.{AllByRecursion};
ghost use Rattle.code_rules.specs.ModelTree.Tree.{Model, Statement};
ghost use Rattle.code_rules.specs.ModelRules.Scopes.{Scope};
ghost use Rattle.code_rules.specs.ModelRules.Sites.{Site, sites, statement_sites};
ghost use Rattle.code_rules.specs.ModelRules.Passes.{constructs, fault_of, first_fault};
ghost use Rattle.code_rules.specs.Deeds.{Home};
ghost use Rattle.code_rules.specs.Bodies.{exceptions_in};
ghost use Rattle.laws_code.specs.Known.{TypesAreKnown};
ghost use Rattle.laws_code.specs.HasCode.{AreNumbered, HasCode, ModelHasCode};

/// Where a model has no first fault, all declared types are known at each of its constructs.
pub fn types_are_known()
    ensures { (m : Model) → first_fault m ≡ None → AllByRecursion (λ (x : Site). TypesAreKnown x.scope) (sites m) }
{}

/// Where all declared types are known and the exceptions of a statement have numbers, it has code, and so have those in its
/// blocks, where no construct of it breaks a rule: each of the actions and operations, with all that stands in them.
pub fn statements_have_code()
    ensures { (h : Home) (s : Scope) (x : Statement) → TypesAreKnown s → AreNumbered h (exceptions_in x) → fault_of constructs (statement_sites x s) ≡ None → HasCode x h s }
{}

/// Where a model has no first fault, each statement of each body has code, at whatever depth it stands; types of local
/// variables and of answers are known; and each clock has its signal.
pub fn models_have_code()
    ensures { (m : Model) → first_fault m ≡ None → ModelHasCode m }
{}
