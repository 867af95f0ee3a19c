//! Guards and tries. None takes memory.
ghost use Rattle.std.specs.Prelude.{◌≡◌, Contains, Ok};
ghost use Rattle.flat_design.specs.Code.{arena_of};
ghost use Rattle.exec_data.specs.KernelBodies.Around.{around_at};
ghost use Rattle.exec_data.specs.KernelBodies.Depths.{blocks_of, handlers_of};
ghost use Rattle.exec_data.specs.KernelBodies.declared.around.Around.TheVariants as around;
ghost use Rattle.exec_data.specs.SimModel.Calls.{do_guard, do_try};
ghost use Rattle.exec_data.specs.KernelState.Kernel.{IsSound};
ghost use Rattle.exec_data.specs.KernelState.Moves.{Does, Lives};
ghost use Rattle.exec_data.specs.Entered.{Shows};

use exec_data::kernel_state_api::Kernel;
use flat_design::{BlockId, StmtId};

/// `guard`: its block comes in its place; the unwind block is owed if the block is left by an unwinding.
pub fn begin_guard(k: &mut Kernel, p: u32, s: StmtId, b: BlockId, u: BlockId)
    requires sound { IsSound k.old }
    requires lives { Lives k.old p }
    requires next { Shows k.old p s }
    requires owes { around_at (arena_of k.old.program.now.code) s ≡ around.Guard u }
    requires inner { Contains (blocks_of (arena_of k.old.program.now.code) s) b }
    ensures does { Does k.old k.new (Ok tt) p (λ c q i r. do_guard c q r b u) }
    ensures sound { IsSound k.new }
    ensures made { k.new.made ≡ k.old.made }
{
    match k.schedule.table.get_mut(p) {
        Some(x) => x.body.body.body.begin_block(k.program, b),
        None => {}
    }
}

/// `try`: its block comes in its place, with its handlers around it.
pub fn begin_try(k: &mut Kernel, p: u32, s: StmtId, b: BlockId)
    requires sound { IsSound k.old }
    requires lives { Lives k.old p }
    requires next { Shows k.old p s }
    requires catches { around_at (arena_of k.old.program.now.code) s ≡ around.Try }
    requires inner { Contains (blocks_of (arena_of k.old.program.now.code) s) b }
    ensures does { Does k.old k.new (Ok tt) p (λ c q i r. do_try c q r b (handlers_of (arena_of k.old.program.now.code) s)) }
    ensures sound { IsSound k.new }
    ensures made { k.new.made ≡ k.old.made }
{
    match k.schedule.table.get_mut(p) {
        Some(x) => x.body.body.body.begin_block(k.program, b),
        None => {}
    }
}
