//! What a chooser of processes is.
ghost use Rattle.std.specs.Prelude.{◌≡◌, ℕ, List, Option};
ghost use Rattle.kernel_state.specs.ReadySet.Ready.{rising};

use kernel_state::ready_set_api::ReadySet;

/// Something that picks the process to be taken from those that are runnable. IEEE 1666-2011, 4.2.1.2 leaves open which it is; the
/// steps of a session (`make_step` of kernel_runs) take any chooser.
///
/// A chooser is seen as what it holds. `picks` is its answer, from what it holds and the runnable serials in rising order, and
/// `later` what it holds behind that answer. Both are functions: a chooser knows nothing of a run but these serials, and
/// its answer does not depend on whether there is memory.
pub trait Chooser {
    ghost picks: { Self → List ℕ → Option ℕ };

    ghost later: { Self → List ℕ → Self };

    /// The serial that is picked for the next taking. Where there is none, or it is not runnable, no process is taken. It takes no
    /// memory.
    fn choose(&mut self, ready: &ReadySet) -> Option<u32>
        ensures answer { result ≡ picks self.old (rising ready.now.members) }
        ensures held { self.new ≡ later self.old (rising ready.now.members) };
}
