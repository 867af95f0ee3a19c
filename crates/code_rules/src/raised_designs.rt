//! What other rooms leave as it is.
ghost use Rattle.model_rules.specs.ModelTree.Tree.{Model};
ghost use Rattle.model_rules.specs.FlatDesign.Code.{arena_of};
ghost use Rattle.model_rules.specs.FlatDesign.Sound.{SoundDesign};
ghost use Rattle.model_rules.specs.FlatDesign.declared.code.Code.{Code};
ghost use Rattle.model_rules.specs.FlatDesign.declared.design.Design.{Design};
ghost use Rattle.code_rules.specs.Bodies.{IsCodeOf};
ghost use Rattle.code_rules.specs.Rooms.{DiffersInRooms, HasRooms};
ghost use Rattle.code_rules.specs.RoomFields.{HopsFit, IsTypedCode};
ghost use Rattle.code_rules.specs.DesignFields.{HandlersDoNotBlock, MethodsDoNotBlock, ProcessesFit, ThreadsSetNoTrigger, UnwindingIsPlain};

/// Code that differs in rooms alone from code that reads back as a model's reads back as that model's.
pub fn code_stays()
    ensures { (m : Model) (before after : Code) → DiffersInRooms before after → IsCodeOf m before → IsCodeOf m after }
{}

/// What a design has of its code, but for rooms, it has with any other rooms: its processes run bodies of their kind, handlers
/// of hops are functions with their parameters, code is typed, methods, handlers and unwind blocks do not block, and threads
/// set no next trigger.
pub fn fields_stay()
    ensures processes { (d : Design) (after : Code) → DiffersInRooms d.code after → ProcessesFit d → ProcessesFit (record d { code = after }) }
    ensures hops { (d : Design) (after : Code) → DiffersInRooms d.code after → HopsFit d → HopsFit (record d { code = after }) }
    ensures typed { (d : Design) (after : Code) → DiffersInRooms d.code after → IsTypedCode d → IsTypedCode (record d { code = after }) }
    ensures methods { (d : Design) (after : Code) → DiffersInRooms d.code after → MethodsDoNotBlock d → MethodsDoNotBlock (record d { code = after }) }
    ensures handlers { (d : Design) (after : Code) → DiffersInRooms d.code after → HandlersDoNotBlock d → HandlersDoNotBlock (record d { code = after }) }
    ensures unwinding { (d : Design) (after : Code) → DiffersInRooms d.code after → UnwindingIsPlain d → UnwindingIsPlain (record d { code = after }) }
    ensures threads { (d : Design) (after : Code) → DiffersInRooms d.code after → ThreadsSetNoTrigger d → ThreadsSetNoTrigger (record d { code = after }) }
{}

/// A design that is sound with some rooms is sound with those of `raise_rooms`.
pub fn raised_designs_are_sound()
    ensures { (d : Design) (after : Code) → DiffersInRooms d.code after → HasRooms (arena_of after) → SoundDesign d → SoundDesign (record d { code = after }) }
{}
