//! Calls, handlers, and the numbers of items.
#![tactic(auto, unfolding(worked_runs::specs::Run::told, worked_runs::specs::Run::told_under))]

ghost use Rattle.std.specs.Prelude.{◌≡◌, codes, None, true, false};
ghost use Rattle.model_lexer.specs.ModelTree.Tree as tree;
ghost use Rattle.model_lexer.specs.ModelTree.declared.faults.Kind.TheVariants as kind;
ghost use Rattle.code_rules.specs.ModelRules.Passes.{first_fault};
ghost use Rattle.worked_models.specs.FormTrees.{fault};
ghost use Rattle.worked_models.specs.RuleRows as rows;

/// The number of arguments is right, and an inout argument is a variable of exactly the type.
pub fn arguments_are_counted()
    ensures one { first_fault rows.called_with_one ≡ None }
    ensures too_many { first_fault rows.called_with_too_many ≡ fault kind.ArgumentCount 4 (codes "f") }
    ensures unknown { first_fault rows.called_with_unknown ≡ fault kind.UnknownName 5 (codes "zz") }
    ensures inout { first_fault (rows.called_inout 8 (tree.named 5 (codes "y"))) ≡ None }
    ensures wider { first_fault (rows.called_inout 9 (tree.named 5 (codes "y"))) ≡ fault kind.ArgumentCount 5 (codes "f") }
    ensures parentheses { first_fault rows.inout_in_parentheses ≡ fault kind.ArgumentCount 5 (codes "f") }
    ensures spawned { first_fault rows.spawned_with_inout ≡ fault kind.BadSpawn 4 (codes "f") }
{}

/// A value is returned exactly where a function has a type.
pub fn values_are_returned()
    ensures value { first_fault (rows.returned_from true) ≡ None }
    ensures none { first_fault (rows.returned_from false) ≡ fault kind.ReturnDiffers 3 (codes "f") }
    ensures thread { first_fault rows.returned_from_thread ≡ fault kind.ReturnDiffers 3 (codes "t") }
{}

/// A handler has the parameters and the answer of its calls.
pub fn handlers_have_their_signatures()
    ensures inout { first_fault (rows.handled true) ≡ None }
    ensures by_value { first_fault (rows.handled false) ≡ fault kind.BadHandler 2 (codes "b") }
{}

/// A socket that hands calls on is used in no call; at one construct the lowest kind comes first.
pub fn sockets_of_calls()
    ensures own { first_fault (rows.transported (codes "o") (codes "d")) ≡ None }
    ensures pass { first_fault (rows.transported (codes "s") (codes "d")) ≡ fault kind.BadBinding 5 (codes "s") }
    ensures event { first_fault (rows.transported (codes "e") (codes "d")) ≡ fault kind.WrongKind 5 (codes "e") }
    ensures lowest { first_fault (rows.transported (codes "e") (codes "zz")) ≡ fault kind.UnknownName 5 (codes "zz") }
{}

/// Clocks, sizes and first numbers are in range; at one construct the lowest kind comes first.
pub fn numbers_of_items_are_in_range()
    ensures clock { first_fault (rows.clocked 10 9) ≡ None }
    ensures always_high { first_fault (rows.clocked 10 10) ≡ fault kind.BadClock 2 (codes "c") }
    ensures never_high { first_fault (rows.clocked 10 0) ≡ fault kind.BadClock 2 (codes "c") }
    ensures late { first_fault (rows.clocked 18446744073709552 0) ≡ fault kind.LiteralRange 2 (codes "c") }
    ensures fifo { first_fault (rows.with_fifo 65536) ≡ None }
    ensures large { first_fault (rows.with_fifo 65537) ≡ fault kind.FifoSize 2 (codes "f") }
    ensures semaphore { first_fault (rows.with_semaphore 2147483647) ≡ None }
    ensures past { first_fault (rows.with_semaphore 2147483648) ≡ fault kind.SemaphoreRange 2 (codes "s") }
{}
