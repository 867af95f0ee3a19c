//! Uses of each kind of object, where they are right and where they are not.
#![tactic(auto, unfolding(worked_runs::specs::Run::told, worked_runs::specs::Run::told_under))]

ghost use Rattle.std.specs.Prelude.{◌≡◌, codes, [], ◌∷◌, Some, None, true, false};
ghost use Rattle.model_lexer.specs.ModelTree.Tree as tree;
ghost use Rattle.model_lexer.specs.ModelTree.declared.faults.Kind.TheVariants as kind;
ghost use Rattle.model_lexer.specs.ModelTree.declared.expressions.BinaryOp.TheVariants as op;
ghost use Rattle.model_lexer.specs.SimTime.declared.moments.Unit.TheVariants as unit;
ghost use Rattle.code_rules.specs.ModelRules.Passes.{first_fault};
ghost use Rattle.worked_models.specs.FormTrees.{fault, named, number, yes_, channel, event};
ghost use Rattle.worked_models.specs.Uses as uses;

/// What is written, read, locked and notified is of the kind for it.
pub fn channels_are_of_their_kind()
    ensures written { first_fault (uses.acting (tree.write (channel 21 (codes "u")) (number 22 300))) ≡ None }
    ensures of_another_type { first_fault (uses.acting (tree.write (channel 21 (codes "u")) (yes_ 22))) ≡ fault kind.TypeDiffers 20 (codes "t") }
    ensures into_a_fifo { first_fault (uses.acting (tree.write (channel 21 (codes "f")) (number 22 3))) ≡ None }
    ensures clock { first_fault (uses.acting (tree.write (channel 21 (codes "c")) (yes_ 22))) ≡ fault kind.WrongKind 21 (codes "c") }
    ensures in_port { first_fault (uses.acting (tree.write (channel 21 (codes "p")) (yes_ 22))) ≡ fault kind.WrongKind 21 (codes "p") }
    ensures out_port { first_fault (uses.acting (tree.write (channel 21 (codes "o")) (yes_ 22))) ≡ None }
    ensures signal_put { first_fault (uses.taking (codes "z") (tree.nb_write (channel 21 (codes "u")) (yes_ 22))) ≡ fault kind.WrongKind 21 (codes "u") }
    ensures signal_taken { first_fault (uses.taking (codes "n") (tree.read (channel 21 (codes "u")))) ≡ fault kind.WrongKind 21 (codes "u") }
    ensures fifo_taken { first_fault (uses.taking (codes "n") (tree.read (channel 21 (codes "f")))) ≡ None }
    ensures into_a_truth { first_fault (uses.taking (codes "z") (tree.read (channel 21 (codes "f")))) ≡ fault kind.TypeDiffers 20 (codes "t") }
    ensures both_unknown { first_fault (uses.taking (codes "z") (tree.nb_read (channel 21 (codes "zz")) (codes "yy"))) ≡ fault kind.UnknownName 20 (codes "yy") }
    ensures semaphore_locked { first_fault (uses.acting (tree.lock (channel 21 (codes "s")))) ≡ fault kind.WrongKind 21 (codes "s") }
    ensures signal_notified { first_fault (uses.acting (tree.notify (codes "b") tree.immediate)) ≡ fault kind.WrongKind 20 (codes "b") }
    ensures wait_on_a_fifo { first_fault (uses.acting (tree.wait (tree.one (event 21 (codes "f") None) None))) ≡ fault kind.WrongKind 21 (codes "f") }
    ensures time_out { first_fault (uses.acting (tree.wait (tree.one (event 21 (codes "zz") None) (Some (yes_ 22))))) ≡ fault kind.TypeDiffers 20 (codes "t") }
{}

/// Handles and payloads: a name of another kind or type where one is needed, and a variable of another type that gets one.
pub fn handles_are_told_apart()
    ensures payload { first_fault (uses.acting (tree.make (codes "q") (number 21 1) None)) ≡ None }
    ensures number { first_fault (uses.acting (tree.make (codes "n") (number 21 1) None)) ≡ fault kind.WrongKind 20 (codes "n") }
    ensures process { first_fault (uses.killing (codes "w")) ≡ None }
    ensures variable { first_fault (uses.killing (codes "h")) ≡ None }
    ensures truth { first_fault (uses.killing (codes "z")) ≡ fault kind.WrongKind 21 (codes "z") }
    ensures spawned { first_fault (uses.spawning (codes "h")) ≡ None }
    ensures into_a_truth { first_fault (uses.spawning (codes "z")) ≡ fault kind.TypeDiffers 20 (codes "t") }
    ensures into_a_signal { first_fault (uses.spawning (codes "b")) ≡ fault kind.WrongKind 20 (codes "b") }
{}

/// What is assigned.
pub fn targets_are_assigned()
    ensures field { first_fault (uses.storing (codes "q") (Some (codes "address")) None (number 21 16)) ≡ None }
    ensures byte { first_fault (uses.storing (codes "q") (Some (codes "data")) (Some (number 21 0)) (number 22 300)) ≡ None }
    ensures length { first_fault (uses.storing (codes "q") (Some (codes "length")) None (number 21 3)) ≡ fault kind.WrongKind 20 (codes "length") }
    ensures needless_index { first_fault (uses.storing (codes "q") (Some (codes "address")) (Some (number 21 0)) (number 22 1)) ≡ fault kind.WrongKind 20 (codes "address") }
    ensures missing_index { first_fault (uses.storing (codes "q") (Some (codes "data")) None (number 21 1)) ≡ fault kind.WrongKind 20 (codes "data") }
    ensures unknown { first_fault (uses.storing (codes "q") (Some (codes "foo")) None (number 21 1)) ≡ fault kind.UnknownName 20 (codes "foo") }
    ensures no_memory { first_fault (uses.storing (codes "n") None (Some (number 21 3)) (number 22 1)) ≡ fault kind.WrongKind 20 (codes "n") }
    ensures element { first_fault (uses.storing (codes "m") None (Some (number 21 99)) (number 22 1)) ≡ None }
    ensures element_of_truth { first_fault (uses.storing (codes "m") None (Some (number 21 3)) (yes_ 22)) ≡ fault kind.TypeDiffers 20 (codes "t") }
    ensures signal { first_fault (uses.storing (codes "u") None None (number 21 1)) ≡ fault kind.WrongKind 20 (codes "u") }
    ensures index_of_truth { first_fault (uses.storing (codes "m") None (Some (yes_ 21)) (number 22 1)) ≡ fault kind.TypeDiffers 20 (codes "t") }
{}

/// What is read.
pub fn values_are_read()
    ensures memory { first_fault (uses.showing (named 21 (codes "m"))) ≡ fault kind.WrongKind 21 (codes "m") }
    ensures element { first_fault (uses.showing (tree.element (named 21 (codes "m")) (number 21 99))) ≡ None }
    ensures bytes { first_fault (uses.showing (tree.member (named 21 (codes "q")) (codes "data"))) ≡ fault kind.WrongKind 21 (codes "data") }
    ensures byte { first_fault (uses.showing (tree.element (tree.member (named 21 (codes "q")) (codes "data")) (number 21 0))) ≡ None }
    ensures digit { first_fault (uses.showing (tree.element (tree.member (named 21 (codes "q")) (codes "address")) (number 21 0))) ≡ None }
    ensures digit_of_truth { first_fault (uses.showing (tree.element (named 21 (codes "b")) (number 21 0))) ≡ fault kind.TypeDiffers 21 (codes "t") }
    ensures place_of_a_signal { first_fault (uses.showing (tree.placed 21 (codes "b") 0)) ≡ fault kind.WrongKind 21 (codes "b") }
    ensures computed_place { first_fault (uses.showing (tree.placed_by 21 (codes "p") (yes_ 22))) ≡ fault kind.TypeDiffers 21 (codes "t") }
    ensures joined { first_fault (uses.showing (tree.concat 21 (named 22 (codes "v")) (named 23 (codes "v")))) ≡ fault kind.TypeDiffers 21 (codes "t") }
    ensures condition { first_fault (uses.doing (tree.while_ 20 (named 21 (codes "n")) tree.over)) ≡ fault kind.TypeDiffers 20 (codes "t") }
    ensures times { first_fault (uses.showing (tree.binary op.Multiply (tree.now 21) (number 21 3))) ≡ None }
    ensures turned { first_fault (uses.showing (tree.binary op.Multiply (number 21 3) (tree.now 21))) ≡ fault kind.TypeDiffers 21 (codes "t") }
    ensures value_of_a_member { first_fault (uses.showing (tree.member (tree.member (named 21 (codes "b")) (codes "changed")) (codes "foo"))) ≡ fault kind.WrongKind 21 (codes "changed") }
{}

/// A static sensitivity names no variables, and its places are numbers.
pub fn sensitivities_are_static()
    ensures process { first_fault (uses.sensing (event 21 (codes "w") (Some (codes "terminated_event")))) ≡ None }
    ensures variable { first_fault (uses.sensing (event 21 (codes "h") (Some (codes "terminated_event")))) ≡ fault kind.WrongKind 21 (codes "h") }
    ensures place { first_fault (uses.sensing (uses.at_place (codes "p") (tree.place_number 1))) ≡ None }
    ensures past { first_fault (uses.sensing (uses.at_place (codes "p") (tree.place_number 2))) ≡ fault kind.WidthRange 21 (codes "t") }
    ensures computed { first_fault (uses.sensing (uses.at_place (codes "p") (tree.computed (number 22 1)))) ≡ fault kind.WrongKind 21 (codes "p") }
{}

/// An unwind block reaches no sync of a keeper, and no transport call; a blocking one is a wait first.
pub fn unwind_blocks_do_not_sync()
    ensures sync { first_fault uses.syncing_in_unwind ≡ fault kind.WaitInUnwind 21 (codes "t") }
    ensures blocking { first_fault (uses.transporting_in_unwind true) ≡ fault kind.WaitInUnwind 21 (codes "t") }
    ensures nonblocking { first_fault (uses.transporting_in_unwind false) ≡ fault kind.TransportInUnwind 21 (codes "t") }
{}
