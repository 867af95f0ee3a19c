//! What bodies reach, and the order of the passes.
#![tactic(auto, unfolding(worked_runs::specs::Run::told, worked_runs::specs::Run::told_under))]

ghost use Rattle.std.specs.Prelude.{◌≡◌, codes, None, true, false};
ghost use Rattle.model_lexer.specs.ModelTree.declared.faults.Kind.TheVariants as kind;
ghost use Rattle.code_rules.specs.ModelRules.Passes.{first_fault};
ghost use Rattle.worked_models.specs.FormTrees.{fault};
ghost use Rattle.worked_models.specs.RuleRows as rows;

/// No method reaches a blocking statement; the first such statement in the text is told, a call among them.
pub fn methods_do_not_wait()
    ensures call { first_fault rows.method_before_its_function ≡ fault kind.WaitInMethod 3 (codes "m") }
    ensures wait { first_fault rows.function_before_its_method ≡ fault kind.WaitInMethod 3 (codes "f") }
    ensures thread { first_fault rows.function_of_a_thread ≡ None }
    ensures spawned_method { first_fault (rows.spawned_as true) ≡ fault kind.WaitInMethod 3 (codes "g") }
    ensures spawned_thread { first_fault (rows.spawned_as false) ≡ None }
{}

/// No thread sets a next trigger.
pub fn threads_set_no_trigger()
    ensures thread { first_fault (rows.triggered_in false) ≡ fault kind.TriggerInThread 3 (codes "f") }
    ensures method { first_fault (rows.triggered_in true) ≡ None }
{}

/// A handler of non-blocking calls does not wait, one of blocking calls may.
pub fn handlers_do_not_wait()
    ensures nonblocking { first_fault rows.waiting_handler ≡ fault kind.BlockingInNonblocking 4 (codes "f") }
    ensures blocking { first_fault rows.waiting_blocking_handler ≡ None }
{}

/// An unwind block reaches no wait, no throw and no spawn.
pub fn unwind_blocks_are_plain()
    ensures guarded { first_fault rows.wait_in_guard ≡ None }
    ensures wait { first_fault rows.wait_in_unwind ≡ fault kind.WaitInUnwind 6 (codes "t") }
    ensures throw { first_fault rows.throw_reached ≡ fault kind.ThrowInUnwind 3 (codes "f") }
    ensures spawn { first_fault rows.spawn_in_unwind ≡ fault kind.SpawnInUnwind 6 (codes "t") }
{}

/// Names that differ come first, then the rules on one construct, then those on what is reached.
pub fn passes_have_their_order()
    ensures doubles { first_fault rows.unknown_before_double ≡ fault kind.DoubleName 5 (codes "a") }
    ensures reaches { first_fault rows.wait_before_unknown ≡ fault kind.UnknownName 4 (codes "zz") }
{}
