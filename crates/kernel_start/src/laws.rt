//! What the type states, read off it. The function does nothing, and its clause is the law.
ghost use Rattle.kernel_start.specs.Clean.{IsClean};

use crate::sound::SoundKernel;

/// The parts that keep the processes are those of a clean configuration: what is runnable, active, or waits for an event or a
/// time is an instance that was made and has not ended; no serial stands twice among the runnable and the active ones, and
/// none of them waits or is kept until it is resumed; what is kept so is suspended, and what is suspended is not runnable.
pub fn parts_are_clean(k: &SoundKernel)
    ensures { IsClean k.now.kernel.schedule }
{}
