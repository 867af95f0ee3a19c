//! Names: that they differ, are declared, and are what is needed.
#![tactic(auto, unfolding(worked_runs::specs::Run::told, worked_runs::specs::Run::told_under))]

ghost use Rattle.std.specs.Prelude.{◌≡◌, codes, None};
ghost use Rattle.model_lexer.specs.ModelTree.declared.faults.Kind.TheVariants as kind;
ghost use Rattle.code_rules.specs.ModelRules.Passes.{first_fault};
ghost use Rattle.worked_models.specs.FormTrees.{fault};
ghost use Rattle.worked_models.specs.RuleRows as rows;

/// Names of modules differ, and names in a module; a later one is at fault, an outer construct first.
pub fn names_differ()
    ensures items { first_fault rows.two_of_one_name ≡ fault kind.DoubleName 3 (codes "a") }
    ensures nearest { first_fault rows.two_names ≡ None }
    ensures modules { first_fault rows.two_modules ≡ fault kind.DoubleName 2 (codes "M") }
    ensures parameters { first_fault rows.parameters_of_one_name ≡ fault kind.DoubleName 4 (codes "x") }
{}

/// A local variable is visible from behind its statement to the end of its block, and hides no name.
pub fn locals_are_visible_in_their_block()
    ensures hides_an_item { first_fault rows.local_like_item ≡ fault kind.DoubleName 4 (codes "a") }
    ensures as_a_module { first_fault rows.local_like_module ≡ None }
    ensures beside { first_fault rows.locals_beside ≡ None }
    ensures inside { first_fault rows.local_inside ≡ fault kind.DoubleName 6 (codes "x") }
    ensures of_itself { first_fault rows.local_of_itself ≡ fault kind.UnknownName 4 (codes "x") }
    ensures behind { first_fault rows.local_behind_its_block ≡ fault kind.UnknownName 6 (codes "x") }
{}

/// Each name that is used is declared, and is what is needed there.
pub fn names_are_known()
    ensures top { first_fault rows.no_module ≡ fault kind.UnknownName 90 (codes "M") }
    ensures instance { first_fault rows.instance_of_nothing ≡ fault kind.UnknownName 2 (codes "N") }
    ensures written { first_fault rows.event_written ≡ fault kind.WrongKind 4 (codes "e") }
{}

/// A member is of the column that is used, of an object that has a row.
pub fn members_are_of_their_column()
    ensures unknown { first_fault rows.member_unknown ≡ fault kind.UnknownName 4 (codes "foo") }
    ensures other_column { first_fault rows.member_in_the_other_column ≡ fault kind.WrongKind 4 (codes "pos") }
    ensures no_row { first_fault rows.member_of_an_event ≡ fault kind.WrongKind 4 (codes "e") }
    ensures there { first_fault rows.member_that_is_there ≡ None }
    ensures number { first_fault rows.edge_of_a_number ≡ fault kind.WrongKind 4 (codes "pos") }
    ensures logic { first_fault rows.edge_of_a_logic ≡ None }
    ensures value { first_fault rows.value_waited_for ≡ fault kind.WrongKind 4 (codes "changed") }
{}

/// The ends of a binding are declared, and have a form together; the binding begins before its ends.
pub fn ends_are_known()
    ensures port { first_fault rows.port_to_signal ≡ None }
    ensures lacks { first_fault rows.port_that_the_child_lacks ≡ fault kind.UnknownName 6 (codes "q") }
    ensures no_instance { first_fault rows.end_of_a_signal ≡ fault kind.WrongKind 6 (codes "a") }
    ensures left { first_fault rows.left_without_form ≡ fault kind.BadBinding 6 (codes "a") }
    ensures right { first_fault rows.right_without_form ≡ fault kind.BadBinding 6 (codes "e") }
{}
