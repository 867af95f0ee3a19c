//! Where an expression stands in a kernel.
ghost use Rattle.std.specs.Prelude.{◌≡◌, None, IfSome, IfNone};
ghost use Rattle.std.specs.FinMap as map;
ghost use Rattle.expr_eval.specs.SimModel.Residual as residual;
ghost use Rattle.expr_eval.specs.SimModel.Reading as reading;
ghost use Rattle.kernel_state.specs.ProcessBodies.Bodies.{settled_in};
ghost use Rattle.kernel_view.specs.Standings.{is_gone, ShowsHere, Everywhere};

use expr_eval::sim_model_api::Via;
use flat_design::{Design, Hop};
use kernel_state::process_bodies_api::Body;
use kernel_state::{Kept, Kernel};

/// Where the next statement of an instance stands in a kernel.
#[derive(Clone, Copy)]
pub struct Standing<'a> {
    /// The kernel.
    pub kernel: &'a Kernel<'a>,
    /// What is left of the instance.
    pub body: &'a Body,
    /// The serial of the instance.
    pub serial: u32,
    /// The number, among the instances of modules, of the one that the statement stands in.
    pub home: u32,
}

/// The instance of a module that the other end of a hop is in.
fn far_home(forward: bool, hop: &Hop) -> u32
    ensures { result ≡ reading.far_home forward hop.now }
{
    if forward {
        hop.target_home
    } else {
        hop.initiator_home
    }
}

/// The instance of a module that a statement stands in: within a transport call that of its other end.
pub fn home_within(design: &Design, home: u32, within: Option<Via>) -> u32
    ensures { result ≡ reading.home_of_via design.now home within }
{
    match within {
        Some(via) => match design.hops.as_slice().get(via.hop as usize) {
            Some(hop) => far_home(via.forward, hop),
            None => home,
        },
        None => home,
    }
}

/// The instance of a module that the next statement of a body stands in.
fn home_of(k: &Kernel, kept: &Kept) -> u32
    ensures { result ≡ reading.home_of_via k.now.design kept.now.home (residual.within (settled_in k.now.program.now kept.now.body)) }
{
    // Within no transport call nothing has to fall away to know that.
    match kept.body.within_now() {
        None => kept.home,
        Some(_) => home_in_call(k, kept),
    }
}

/// The same within a transport call.
#[inline(never)]
fn home_in_call(k: &Kernel, kept: &Kept) -> u32
    ensures { result ≡ reading.home_of_via k.now.design kept.now.home (residual.within (settled_in k.now.program.now kept.now.body)) }
{
    home_within(&k.design, kept.home, kept.body.within(k.program))
}

/// Where the next statement of an instance stands, where the instance has not ended.
#[inline(always)]
pub fn standing_at<'a>(k: &'a Kernel, p: u32) -> Option<Standing<'a>>
    ensures shows { IfSome result (λ x. Everywhere k.now p (ShowsHere x)) }
    ensures ended { IfNone result (map.get k.now.schedule.table.live p ≡ None) }
{
    match k.schedule.table.get(p) {
        Some(x) => Some(Standing {
            kernel: k,
            body: &x.body.body.body,
            serial: p,
            home: home_of(k, &x.body.body),
        }),
        None => None,
    }
}

/// Whether there was an instance of this serial, which has ended.
pub(crate) fn has_ended(k: &Kernel, q: u32) -> bool
    ensures { result ≡ is_gone k.now q }
{
    match k.schedule.table.get(q) {
        Some(_) => false,
        None => q < k.schedule.table.next_serial(),
    }
}
