//! Laws of kernels, for the crates of statements. The functions do nothing, and their clauses are the laws.
ghost use Rattle.kernel_state.specs.Kernel.{IsSound};
ghost use Rattle.kernel_state.specs.Moves.{IsOnTop, Lives};

use crate::kernel::Kernel;

/// The instance on top has not ended.
pub fn top_lives(k: &Kernel, p: u32)
    requires sound { IsSound k.now }
    requires top { IsOnTop k.now p }
    ensures { Lives k.now p }
{}
