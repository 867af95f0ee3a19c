//! Laws of models without a first fault.
ghost use Rattle.std.specs.Prelude.{◌≡◌, None, Some, true, is_some};
ghost use Rattle.code_rules.specs.ModelTree.Tree.{Expression, Model};
ghost use Rattle.code_rules.specs.ModelTree.declared.faults.Fault.{Fault};
ghost use Rattle.code_rules.specs.ModelRules.Scopes.{Scope};
ghost use Rattle.code_rules.specs.ModelRules.Types.{type_of};
ghost use Rattle.code_rules.specs.ModelRules.Sites.{expression_sites};
ghost use Rattle.code_rules.specs.ModelRules.Passes.{constructs, fault_of, first_fault};
ghost use Rattle.code_rules.specs.Terms.{term_of};
ghost use Rattle.laws_code.specs.Decided.{IsDecided};
ghost use Rattle.laws_code.specs.Known.{TypesAreKnown};
ghost use Rattle.laws_code.specs.Met.{AllAreMet};

/// The first fault of a model is that of the first construct which breaks a rule of its pass, and no construct breaks a rule
/// of a pass before it.
pub fn first_fault_is_first()
    ensures { (m : Model) (f : Fault) → first_fault m ≡ Some f → IsDecided m f }
{}

/// Where a model has no first fault, each name that is used is declared, and is what the construct needs.
pub fn uses_are_met()
    ensures { (m : Model) → first_fault m ≡ None → AllAreMet m }
{}

/// Where all declared types are known, an expression no part of which has a fault has a type: what has none is told by a rule.
pub fn expressions_have_types()
    ensures { (s : Scope) (e : Expression) → TypesAreKnown s → fault_of constructs (expression_sites s e) ≡ None → is_some (type_of s e) ≡ true }
{}

/// An expression that has a type has code.
pub fn typed_expressions_have_code()
    ensures { (s : Scope) (e : Expression) → is_some (type_of s e) ≡ true → is_some (term_of s e) ≡ true }
{}
