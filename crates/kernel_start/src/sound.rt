//! A kernel whose parts agree, as its type states.
ghost use Rattle.kernel_state.specs.Kernel.{IsSound};
ghost use Rattle.kernel_start.specs.OneProof.{sound_prop};

use kernel_state::Kernel;

/// A kernel whose parts agree: its wait lists, its queues of times, its ready sets and its table of instances are those of a
/// clean configuration, of one in which nothing that has ended is named (`parts_are_clean` says what that comes to), and each
/// body has the room that it may need. Whatever changes the kernel leaves it so.
#[derive(Drop)]
pub struct SoundKernel<'d> {
    /// The kernel.
    pub kernel: Kernel<'d>,
    ghost sound: { IsSound kernel } by { sound_prop kernel },
}
