//! Laws of rooms, and of code that differs from other code in rooms alone.
ghost use Rattle.std.specs.Prelude.{◌≡◌, ℕ, Some};
ghost use Rattle.model_rules.specs.FlatDesign.Code.{Statement, arena_of, body_at};
ghost use Rattle.model_rules.specs.FlatDesign.Reach.{IsIn, Holds, Reached};
ghost use Rattle.model_rules.specs.FlatDesign.declared.code.Code.{Code};
ghost use Rattle.model_rules.specs.FlatDesign.declared.code.CodeBody.{CodeBody};
ghost use Rattle.model_rules.specs.FlatDesign.declared.design.Design.{Design};
ghost use Rattle.code_rules.specs.Rooms.{DiffersInRooms, HasRooms, IsNested};
ghost use Rattle.code_rules.specs.RoomFields.{CallsHaveRoom, HopsFit, IsTypedCode, WaitsHaveRoom};

/// Where bodies have their rooms, each body has room for as many events as any statement of it can wait for.
pub fn waits_have_room()
    ensures { (d : Design) → HasRooms (arena_of d.code) → WaitsHaveRoom d }
{}

/// Where bodies have their rooms, code is typed, and hops have functions as handlers, each body has the room of each function
/// that it calls, and of each handler that its blocking transport calls reach.
pub fn calls_have_room()
    ensures { (d : Design) → HasRooms (arena_of d.code) → IsTypedCode d → HopsFit d → CallsHaveRoom d }
{}

/// Code that differs from other code in rooms alone has the same bodies, each with some room; and the other differs so from it.
pub fn bodies_stay()
    ensures bodies { (before after : Code) → DiffersInRooms before after → (f : ℕ) (b : CodeBody) → body_at (arena_of before) f ≡ Some b
        → (room : ℕ) × (body_at (arena_of after) f ≡ Some (record b { room = room })) }
    ensures back { (before after : Code) → DiffersInRooms before after → DiffersInRooms after before }
{}

/// In code that differs from other code in rooms alone, blocks have the same statements, hold the same and reach the same; and
/// inner blocks have smaller numbers where they had.
pub fn blocks_stay()
    ensures stands { (before after : Code) → DiffersInRooms before after → (b : ℕ) (s : Statement) → IsIn (arena_of before) b s → IsIn (arena_of after) b s }
    ensures holds { (before after : Code) → DiffersInRooms before after → (b : ℕ) (s : Statement) → Holds (arena_of before) b s → Holds (arena_of after) b s }
    ensures reaches { (before after : Code) → DiffersInRooms before after → (b : ℕ) (s : Statement) → Reached (arena_of before) b s → Reached (arena_of after) b s }
    ensures nested { (before after : Code) → DiffersInRooms before after → IsNested (arena_of before) → IsNested (arena_of after) }
{}
