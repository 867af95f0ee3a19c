//! Choices and loops.
ghost use Rattle.std.specs.Prelude.{◌≡◌, ◌∷◌, [], IfSome, Contains};
ghost use Rattle.flat_design.specs.Code.{Term, arena_of};
ghost use Rattle.kernel_view.specs.KernelBodies.Around.{around_at};
ghost use Rattle.kernel_view.specs.KernelBodies.Depths.{blocks_of};
ghost use Rattle.kernel_view.specs.KernelBodies.declared.around.Around.TheVariants as around;
ghost use Rattle.kernel_view.specs.SimModel.Residual.{put, block, followed};
ghost use Rattle.kernel_view.specs.SimModel.Configuration.{arena, with_residual};
ghost use Rattle.kernel_view.specs.SimModel.Reading.{here};
ghost use Rattle.kernel_view.specs.SimModel.Storing.{chosen, looped, do_if, do_while};
ghost use Rattle.kernel_view.specs.KernelState.Kernel.{IsSound};
ghost use Rattle.kernel_view.specs.KernelState.Moves.{Steps, Does, HasStatement, IsOnTop, Lives};
ghost use Rattle.kernel_view.specs.Standings.{Gives};
ghost use Rattle.exec_data.specs.Entered.{Shows};

use flat_design::{BlockId, RunFault, StmtId};
use kernel_view::expr_eval_api::truth;
use kernel_view::kernel_state_api::{Kernel, pass, top_lives};
use kernel_view::logic_values_api::Value;

/// A block of a statement comes in its place, where the statement puts nothing around it.
#[inline(always)]
fn enter(k: &mut Kernel, p: u32, s: StmtId, b: BlockId)
    requires sound { IsSound k.old }
    requires lives { Lives k.old p }
    requires next { Shows k.old p s }
    requires plain { around_at (arena_of k.old.program.now.code) s ≡ around.Nothing }
    requires inner { Contains (blocks_of (arena_of k.old.program.now.code) s) b }
    ensures steps { Steps k.old k.new p (λ c q i r. with_residual c q (put r (block (arena c) b))) }
    ensures sound { IsSound k.new }
    ensures made { k.new.made ≡ k.old.made }
{
    match k.schedule.table.get_mut(p) {
        Some(x) => x.body.body.body.begin_block(k.program, b),
        None => {}
    }
}

/// The block of a loop comes in its place, and then the loop again.
#[inline(always)]
fn repeat(k: &mut Kernel, p: u32, s: StmtId, b: BlockId)
    requires sound { IsSound k.old }
    requires lives { Lives k.old p }
    requires next { Shows k.old p s }
    requires again { around_at (arena_of k.old.program.now.code) s ≡ around.Loop }
    requires inner { Contains (blocks_of (arena_of k.old.program.now.code) s) b }
    ensures steps { Steps k.old k.new p (λ c q i r. with_residual c q (put r (followed (block (arena c) b) (s ∷ [])))) }
    ensures sound { IsSound k.new }
    ensures made { k.new.made ≡ k.old.made }
{
    match k.schedule.table.get_mut(p) {
        Some(x) => x.body.body.body.begin_block(k.program, b),
        None => {}
    }
}

/// A loop goes round once more, or is past.
#[inline(always)]
fn go_round(k: &mut Kernel, p: u32, s: StmtId, b: BlockId, yes: bool)
    requires sound { IsSound k.old }
    requires lives { Lives k.old p }
    requires statement { HasStatement k.old p }
    requires next { Shows k.old p s }
    requires again { around_at (arena_of k.old.program.now.code) s ≡ around.Loop }
    requires inner { Contains (blocks_of (arena_of k.old.program.now.code) s) b }
    ensures steps { Steps k.old k.new p (λ c q i r. with_residual c q (put r (looped c yes s b))) }
    ensures sound { IsSound k.new }
    ensures made { k.new.made ≡ k.old.made }
{
    if yes {
        repeat(k, p, s, b);
    } else {
        pass(k, p);
    }
}

/// One of two blocks comes in the place of a choice, or none.
#[inline(always)]
fn choose(k: &mut Kernel, p: u32, s: StmtId, b: BlockId, other: Option<BlockId>, yes: bool)
    requires sound { IsSound k.old }
    requires lives { Lives k.old p }
    requires statement { HasStatement k.old p }
    requires next { Shows k.old p s }
    requires plain { around_at (arena_of k.old.program.now.code) s ≡ around.Nothing }
    requires inner { Contains (blocks_of (arena_of k.old.program.now.code) s) b }
    requires other { IfSome other (Contains (blocks_of (arena_of k.old.program.now.code) s)) }
    ensures steps { Steps k.old k.new p (λ c q i r. with_residual c q (put r (chosen c yes b other))) }
    ensures sound { IsSound k.new }
    ensures made { k.new.made ≡ k.old.made }
{
    if yes {
        enter(k, p, s, b);
        return;
    }
    match other {
        Some(o) => enter(k, p, s, o),
        None => pass(k, p),
    }
}

/// `if`: a true test gives the first block, a false one the other, where one is written.
///
/// # Errors
/// The fault of its test, and then nothing changes.
#[inline(always)]
pub fn if_then(
    k: &mut Kernel,
    p: u32,
    s: StmtId,
    b: BlockId,
    other: Option<BlockId>,
    v: Result<Value, RunFault>,
) -> Result<(), RunFault>
    requires sound { IsSound k.old }
    requires top { IsOnTop k.old p }
    requires statement { HasStatement k.old p }
    requires next { Shows k.old p s }
    requires plain { around_at (arena_of k.old.program.now.code) s ≡ around.Nothing }
    requires inner { Contains (blocks_of (arena_of k.old.program.now.code) s) b }
    requires other { IfSome other (Contains (blocks_of (arena_of k.old.program.now.code) s)) }
    ensures does { (e : Term) → Gives k.old p v e → Does k.old k.new result p (λ c q i r. do_if c q r (here c q i r) e b other) }
    ensures sound { IsSound k.new }
    ensures made { k.new.made ≡ k.old.made }
{
    top_lives(k, p);
    match v {
        Ok(x) => {
            choose(k, p, s, b, other, truth(x));
            Ok(())
        }
        Err(fault) => Err(fault),
    }
}

/// `while`: a true test gives the block, and then the same loop; a false one passes it.
///
/// # Errors
/// The fault of its test, and then nothing changes.
#[inline(always)]
pub fn while_do(
    k: &mut Kernel,
    p: u32,
    s: StmtId,
    b: BlockId,
    v: Result<Value, RunFault>,
) -> Result<(), RunFault>
    requires sound { IsSound k.old }
    requires top { IsOnTop k.old p }
    requires statement { HasStatement k.old p }
    requires next { Shows k.old p s }
    requires again { around_at (arena_of k.old.program.now.code) s ≡ around.Loop }
    requires inner { Contains (blocks_of (arena_of k.old.program.now.code) s) b }
    ensures does { (e : Term) → Gives k.old p v e → Does k.old k.new result p (λ c q i r. do_while c q r (here c q i r) s e b) }
    ensures sound { IsSound k.new }
    ensures made { k.new.made ≡ k.old.made }
{
    top_lives(k, p);
    match v {
        Ok(x) => {
            go_round(k, p, s, b, truth(x));
            Ok(())
        }
        Err(fault) => Err(fault),
    }
}
