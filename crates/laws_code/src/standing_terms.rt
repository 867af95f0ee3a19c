//! Laws of the code of expressions.
ghost use Rattle.std.specs.Prelude.{◌≡◌, ℕ, true, Some};
ghost use Rattle.code_rules.specs.ModelTree.Tree.{Expression};
ghost use Rattle.code_rules.specs.ModelTree.Limits.{is_formed};
ghost use Rattle.code_rules.specs.FlatDesign.Code.{Term};
ghost use Rattle.code_rules.specs.FlatDesign.Denotes.{Context};
ghost use Rattle.code_rules.specs.FlatDesign.Typed.{HasType};
ghost use Rattle.code_rules.specs.ModelRules.Scopes.{Scope};
ghost use Rattle.code_rules.specs.ModelRules.Operators.{evaluated_as};
ghost use Rattle.code_rules.specs.ModelRules.Types.{type_of};
ghost use Rattle.code_rules.specs.ModelRules.declared.meanings.ExpressionType.{ExpressionType};
ghost use Rattle.code_rules.specs.Terms.{term_of};
ghost use Rattle.laws_code.specs.Standing.{NamesStand};

/// Where each name stands for what it is declared as, the code of an expression has the type of the expression: what is still
/// free is signed.
pub fn terms_are_typed()
    ensures { (s : Scope) (c : Context) (e : Expression) (at : ℕ) (t : ExpressionType) (x : Term) → NamesStand s c → is_formed e at ≡ true → type_of s e ≡ Some t → term_of s e ≡ Some x → HasType c x (evaluated_as t) }
{}
