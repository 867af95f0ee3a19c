//! What the caller keeps for the instances.
ghost use Rattle.std.specs.Prelude.{◌≡◌, ℕ, Some, option_copied};
ghost use Rattle.std.specs.FinMap as map;
ghost use Rattle.instance_table.specs.NumberedSlots.Numbered.{with_value};
ghost use Rattle.instance_table.specs.declared.instances.Instance.{Instance as Entry};
ghost use Rattle.kernel_processes.specs.declared.parts.Process.{Process as Kept};
ghost use Rattle.kernel_processes.specs.declared.parts.Schedule.{Schedule as Parts};
ghost use Rattle.kernel_processes.specs.InstanceViews.{body_at};
ghost use Rattle.kernel_processes.specs.Sound.{IsSound};
ghost use Rattle.kernel_processes.specs.Moved.{PutsBody};

use crate::Schedule;

/// What the caller keeps for a live instance.
#[inline(always)]
pub fn body<B>(s: &Schedule<B>, p: u32) -> Option<&B>
    ensures { option_copied result ≡ body_at s.now p }
{
    match s.table.get(p) {
        Some(x) => Some(&x.body.body),
        None => None,
    }
}

/// What the caller keeps for an instance is the caller's matter: with another body there, nothing else changes.
pub fn bodies_are_the_callers<B>()
    ensures puts { (s : Parts B) (p : ℕ) (x : Entry (Kept B)) (b : B) → map.get s.table.live p ≡ Some x → PutsBody p b s (record s { table = with_value s.table p (record x { body = record x.body { body = b } }) }) }
    ensures sound { (s : Parts B) (p : ℕ) (x : Entry (Kept B)) (b : B) → map.get s.table.live p ≡ Some x → IsSound s → IsSound (record s { table = with_value s.table p (record x { body = record x.body { body = b } }) }) }
{}
