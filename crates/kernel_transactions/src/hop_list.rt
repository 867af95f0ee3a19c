// The hops of a run by their numbers: what is kept of the transactions on each.
ghost use Rattle.std.specs.Prelude.{◌≡◌, ◌++◌, ◌∷◌, [], ℕ, Bool, List, Ok, OnOk, OnErr, IfOk, replicate, slice_get};
ghost use Rattle.sim_model.specs.TransportPhases.Phases.{verdict};
ghost use Rattle.sim_model.specs.TransportPhases.History.{Entry, Call, Return, BCall, BReturn, Left, broken};
ghost use Rattle.kernel_transactions.specs.Hops.{nothing_called, StandsForHops, IsRegisteredOn, Rules, Enters};

use sim_model::transport_phases_api::{Hop, Path, Rule};
use std::alloc::{AllocError, Global};
use std::marker::Model;

// The hops by their numbers. A hop that is not there is one on which nothing was called, and nothing is kept of it.
#[derive(Drop)]
pub(crate) struct Hops {
    list: Vec<Hop>,
}

impl Model for Hops {
    ghost use Rattle.std.specs.Prelude.{List};
    ghost use Rattle.std.specs.Coded.{coded_list};
    ghost use Rattle.sim_model.specs.TransportPhases.Rows.{Rows, rows_code};

    ghost Value = { List Rows };

    ghost coded = { coded_list rows_code };

    ghost view = { λ hops. hops.list.items };
}

// The judgement of an `nb_transport` call where nothing was called before.
fn first_call(path: Path, phase: i32, handled: bool) -> Result<(), Rule>
    ensures { (t : ℕ) (complete : Bool) → result ≡ verdict (broken [] (Call t path phase complete handled)) }
{
    match (path, phase) {
        (Path::Forward, 1) => { if handled { Ok(()) } else { Err(Rule::P10) } }
        (Path::Forward, 4) | (Path::Backward, 2 | 3) => Err(Rule::P5),
        _ => Err(Rule::P1),
    }
}

// So many hops on which nothing has been called.
fn idle_hops(alloc: Global, n: u32) -> Result<Vec<Hop>, AllocError>
    ensures { IfOk result (λ hops. hops.items ≡ replicate n nothing_called) }
{
    let mut hops = Vec::with_capacity(alloc, n as usize)?;
    for _i in 0..n {
        match hops.push(Hop::new(alloc)) {
            Ok(()) => {}
            Err(_) => return Err(AllocError),
        }
    }
    Ok(hops)
}

impl Hops {
    // So many hops on which nothing has been called.
    pub(crate) fn new(alloc: Global, n: u32) -> Result<Hops, AllocError>
        ensures { IfOk result (λ hops. hops ≡ replicate n nothing_called) }
    {
        let list = idle_hops(alloc, n)?;
        Ok(Hops { list })
    }

    // Makes room for the payload on the hop.
    pub(crate) fn register(&mut self, hop: u32, t: u32) -> Result<(), AllocError>
        ensures placed { OnOk result (IsRegisteredOn (slice_get self.new hop) t) }
        ensures again { IsRegisteredOn (slice_get self.old hop) t → result ≡ Ok tt }
        ensures stays { (hs : List (List Entry)) → StandsForHops self.old hs → StandsForHops self.new hs }
        ensures err { OnErr result (self.new ≡ self.old) }
    {
        if hop as usize >= self.list.len() {
            return Ok(());
        }
        self.list[hop as usize].register(t)
    }

    // An `nb_transport` call on the hop.
    pub(crate) fn call(
        &mut self,
        hop: u32,
        path: Path,
        t: u32,
        phase: i32,
        complete: bool,
        handled: bool,
    ) -> Result<(), Rule>
        requires { IsRegisteredOn (slice_get self.old hop) t }
        ensures answer { Rules self.old result hop (Call t path phase complete handled) }
        ensures enters { OnOk result (Enters self.old self.new hop (Call t path phase complete handled)) }
        ensures err { OnErr result (self.new ≡ self.old) }
    {
        if hop as usize >= self.list.len() {
            return first_call(path, phase, handled);
        }
        self.list[hop as usize].call(path, t, phase, complete, handled)
    }

    // The return of an `nb_transport` call on the hop; where nothing was called nothing may be answered.
    pub(crate) fn returned(
        &mut self,
        hop: u32,
        t: u32,
        status: i32,
        phase: i32,
        complete: bool,
    ) -> Result<(), Rule>
        ensures answer { Rules self.old result hop (Return t status phase complete) }
        ensures enters { OnOk result (Enters self.old self.new hop (Return t status phase complete)) }
        ensures err { OnErr result (self.new ≡ self.old) }
    {
        if hop as usize >= self.list.len() {
            return Err(Rule::P7);
        }
        self.list[hop as usize].returned(t, status, phase, complete)
    }

    // A `b_transport` call on the hop.
    pub(crate) fn b_call(&mut self, hop: u32, t: u32, handled: bool) -> Result<(), Rule>
        requires { IsRegisteredOn (slice_get self.old hop) t }
        ensures answer { Rules self.old result hop (BCall t handled) }
        ensures enters { OnOk result (Enters self.old self.new hop (BCall t handled)) }
        ensures err { OnErr result (self.new ≡ self.old) }
    {
        if hop as usize >= self.list.len() {
            return if handled { Ok(()) } else { Err(Rule::P10) };
        }
        self.list[hop as usize].b_call(t, handled)
    }

    // The return of a `b_transport` call on the hop.
    pub(crate) fn b_returned(&mut self, hop: u32, t: u32, complete: bool) -> Result<(), Rule>
        ensures answer { Rules self.old result hop (BReturn t complete) }
        ensures enters { OnOk result (Enters self.old self.new hop (BReturn t complete)) }
        ensures err { OnErr result (self.new ≡ self.old) }
    {
        if hop as usize >= self.list.len() {
            return if complete { Ok(()) } else { Err(Rule::P6) };
        }
        self.list[hop as usize].b_returned(t, complete)
    }

    // The open call on the hop was left without a return.
    pub(crate) fn abandon(&mut self, hop: u32, t: u32)
        ensures { Enters self.old self.new hop (Left t) }
    {
        if hop as usize >= self.list.len() {
            return;
        }
        self.list[hop as usize].abandon(t);
    }
}
