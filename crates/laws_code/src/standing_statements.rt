//! Laws of the code of statements.
ghost use Rattle.std.specs.Prelude.{◌≡◌, ℕ, false, true, List, [], ◌∷◌, Option, None};
ghost use Rattle.code_rules.specs.ModelTree.Tree.{Expression, Target, Operation, Action, var, assign, operate, act};
ghost use Rattle.code_rules.specs.ModelTree.Limits.{fits_statement};
ghost use Rattle.code_rules.specs.ModelTree.declared.types.VarType.{VarType};
ghost use Rattle.code_rules.specs.FlatDesign.Code.{Arena};
ghost use Rattle.code_rules.specs.FlatDesign.Denotes.{Context};
ghost use Rattle.code_rules.specs.FlatDesign.declared.value_types.ValueType.{ValueType};
ghost use Rattle.code_rules.specs.ModelRules.Meanings.{variable_type};
ghost use Rattle.code_rules.specs.ModelRules.Scopes.{Scope};
ghost use Rattle.code_rules.specs.ModelRules.Sites.{statement_sites};
ghost use Rattle.code_rules.specs.ModelRules.Passes.{constructs, fault_of};
ghost use Rattle.code_rules.specs.Deeds.{Home, if_written, store, action_code};
ghost use Rattle.code_rules.specs.Numbered.{var_code, assign_code, operate_code};
ghost use Rattle.code_rules.specs.Bodies.{thrown_in};
ghost use Rattle.laws_code.specs.HasCode.{AreNumbered};
ghost use Rattle.laws_code.specs.Functions.{VariablesStand};
ghost use Rattle.laws_code.specs.Ready.{Ready, HasTypedCode};

/// Where names and functions stand for what they are declared as, a statement within the limits that holds no others and
/// breaks no rule has code, and this is typed: local variables, assignments, each of the operations and each of the actions.
pub fn statements_are_typed()
    ensures variables { (h : Home) (a : Arena) (place : ℕ) (answer : Option ValueType) (c : Context) (s : Scope) (line n : ℕ) (t : VarType) (name : List ℕ) (e : Option Expression) → Ready h a place answer c s → VariablesStand c.locals s.count ((name, t, false) ∷ []) → fits_statement (var line t name e) n ≡ true → fault_of constructs (statement_sites (var line t name e) s) ≡ None → HasTypedCode a place answer c (var_code s (variable_type t) e) }
    ensures assignments { (h : Home) (a : Arena) (place : ℕ) (answer : Option ValueType) (c : Context) (s : Scope) (line n : ℕ) (x : Target) (e : Expression) → Ready h a place answer c s → fits_statement (assign line x e) n ≡ true → fault_of constructs (statement_sites (assign line x e) s) ≡ None → HasTypedCode a place answer c (assign_code s x e) }
    ensures operations { (h : Home) (a : Arena) (place : ℕ) (answer : Option ValueType) (c : Context) (s : Scope) (line at n : ℕ) (name : Option (List ℕ)) (o : Operation) → Ready h a place answer c s → fits_statement (operate line name at o) n ≡ true → fault_of constructs (statement_sites (operate line name at o) s) ≡ None → HasTypedCode a place answer c (operate_code h s (if_written (store s) name) o) }
    ensures actions { (h : Home) (a : Arena) (place : ℕ) (answer : Option ValueType) (c : Context) (s : Scope) (line n : ℕ) (x : Action) → Ready h a place answer c s → AreNumbered h (thrown_in x) → fits_statement (act line x) n ≡ true → fault_of constructs (statement_sites (act line x) s) ≡ None → HasTypedCode a place answer c (action_code h s x) }
{}
