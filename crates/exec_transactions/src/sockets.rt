//! The other ends of sockets.
ghost use Rattle.std.specs.Prelude.{◌≡◌, slice_get};
ghost use Rattle.exec_calls.specs.SimModel.Transport as transport;

use exec_calls::transport_phases_api::Path;
use flat_design::{CodeId, Denoted, Design};

/// The end of a hop that a name stands for: the hop, and whether calls from there go forward.
pub(crate) fn socket_of(denoted: Denoted) -> Option<(u32, bool)>
    ensures { result ≡ transport.socket_of denoted }
{
    match denoted {
        Denoted::Socket { hop, forward } => Some((hop, forward)),
        Denoted::Nothing
        | Denoted::Channel(_)
        | Denoted::Event(_)
        | Denoted::Keeper(_)
        | Denoted::Memory(_)
        | Denoted::Variable(_)
        | Denoted::Port(_)
        | Denoted::Process(_) => None,
    }
}

/// The target's handler of blocking calls over a hop.
pub(crate) fn blocking_handler(design: &Design, hop: u32) -> Option<CodeId>
    ensures { result ≡ transport.blocking_handler (slice_get design.now.hops hop) }
{
    match design.hops.as_slice().get(hop as usize) {
        Some(hop) => hop.blocking,
        None => None,
    }
}

/// The handler of non-blocking calls over a hop, forward or backward.
pub(crate) fn nonblocking_handler(design: &Design, forward: bool, hop: u32) -> Option<CodeId>
    ensures { result ≡ transport.nonblocking_handler forward (slice_get design.now.hops hop) }
{
    match design.hops.as_slice().get(hop as usize) {
        Some(hop) => { if forward { hop.forward } else { hop.backward } }
        None => None,
    }
}

/// The way on which calls of an end go.
pub(crate) fn path_of_call(forward: bool) -> Path
    ensures { result ≡ transport.path_of_call forward }
{
    if forward {
        Path::Forward
    } else {
        Path::Backward
    }
}
