//! Laws of what is reached in the code of models without a first fault.
ghost use Rattle.std.specs.Prelude.{◌≡◌, None};
ghost use Rattle.code_rules.specs.ModelTree.Tree.{Model};
ghost use Rattle.code_rules.specs.FlatDesign.declared.design.Design.{Design};
ghost use Rattle.code_rules.specs.ModelRules.Passes.{first_fault};
ghost use Rattle.code_rules.specs.Bodies.{IsCodeOf};
ghost use Rattle.laws_code.specs.Standing.{DesignStands};
ghost use Rattle.laws_code.specs.Bodies.{StatementsStand, HandlersStand};
ghost use Rattle.laws_code.specs.Reached.{MethodsDoNotBlock, HandlersDoNotBlock, UnwindingIsPlain, ThreadsSetNoTrigger};

/// Where a model has no first fault, each name stands in each instance for what it is declared as, code reads back as the
/// model's, and no statement stands outside its bodies: nothing that is reached from a body that runs as a method blocks, be
/// it a method's or a function's that is spawned as one.
pub fn methods_do_not_block()
    ensures { (m : Model) (d : Design) → first_fault m ≡ None → DesignStands m d → IsCodeOf m d.code → StatementsStand d → MethodsDoNotBlock d }
{}

/// Where each handler of a hop is a function that a socket of its module names as one, nothing that is reached from a handler
/// of non-blocking calls blocks.
pub fn handlers_do_not_block()
    ensures { (m : Model) (d : Design) → first_fault m ≡ None → DesignStands m d → IsCodeOf m d.code → HandlersStand m d → HandlersDoNotBlock d }
{}

/// What is reached from an unwind block does not block, and neither throws nor spawns nor makes a transport call.
pub fn unwinding_is_plain()
    ensures { (m : Model) (d : Design) → first_fault m ≡ None → DesignStands m d → IsCodeOf m d.code → UnwindingIsPlain d }
{}

/// Nothing that is reached from a body that runs as a thread, or from a handler, sets a next trigger: from a thread's body, a
/// clock's, or a function's that is spawned as a thread.
pub fn threads_set_no_trigger()
    ensures { (m : Model) (d : Design) → first_fault m ≡ None → IsCodeOf m d.code → StatementsStand d → HandlersStand m d → ThreadsSetNoTrigger d }
{}
