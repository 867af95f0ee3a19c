//! The points of the trace of a session, one after another.
ghost use Rattle.std.specs.Prelude.{◌≡◌, ◌++◌, ◌∷◌, List, [], OnOk, OnErr, IfOk};
ghost use Rattle.laws_runs.specs.SimModel.Configuration.{Config, Snapshot};
ghost use Rattle.laws_runs.specs.SimModel.Steps.{step, went};
ghost use Rattle.laws_runs.specs.SimModel.Trace.{all_values, trace_text};
ghost use Rattle.kernel_state.specs.Kernel.{StandsFor};
ghost use Rattle.laws_runs.specs.AddedStanding.{seen_at};
ghost use Rattle.vcd_trace.specs.Points.{IsPoint, snapshot_of};
ghost use Rattle.vcd_trace.specs.Traced.{trace_so_far, Keeps};

use crate::point;
use crate::visible::visible_values;
use kernel_state::Kernel;
use laws_runs::logic_values_api::{Items, Text, Value};
use laws_runs::sim_time_api::Time;
use laws_runs::steps_add_snapshots;
use std::alloc::{AllocError, Global};

/// What is kept of a trace that is being written: the values of the last snapshot, if there was one.
#[derive(Drop)]
pub struct Tracing {
    last: Option<Items<Value>>,
}

impl Tracing {
    /// A trace without snapshots yet. It takes no memory.
    pub fn new() -> Tracing
        ensures { Keeps result [] }
    {
        Tracing { last: None }
    }

    /// The text of a point behind the last snapshot.
    fn point_of(&self, alloc: Global, values: &[Value], time: Time) -> Result<Text, AllocError>
        ensures { IfOk result (λ text. IsPoint self.now.last (snapshot_of time.0 values.now) text) }
    {
        match &self.last {
            None => point(alloc, None, values, time),
            Some(last) => point(alloc, Some(last.as_slice()), values, time),
        }
    }

    /// The text of the next snapshot, which is of this time and of the values that are seen of a kernel (`text`): behind the
    /// snapshots whose last one is kept, of which it is kept then (`keeps`). Where memory is refused nothing changes.
    ///
    /// # Errors
    /// Memory was refused.
    pub fn next_point(&mut self, alloc: Global, k: &Kernel, time: Time) -> Result<Text, AllocError>
        ensures text { IfOk result (λ text. (c : Config) (before : List Snapshot) → StandsFor k.now c → Keeps self.old before
            → all_values (before ++ seen_at time.0 c ∷ []) ≡ all_values before ++ text) }
        ensures keeps { OnOk result ((c : Config) (before : List Snapshot) → StandsFor k.now c → Keeps self.old before
            → Keeps self.new (before ++ seen_at time.0 c ∷ [])) }
        ensures stays { OnErr result (self.new ≡ self.old) }
    {
        let values = visible_values(alloc, k)?;
        let text = self.point_of(alloc, values.as_slice(), time)?;
        self.last = Some(values);
        Ok(text)
    }

    /// What a step adds to the trace (`text`), by the kernel after it and the time before it: nothing where the simulated time
    /// is as before, and else the point of the time before (IEEE 1666-2011, 4.2.1.5). Where memory is refused nothing changes.
    ///
    /// # Errors
    /// Memory was refused.
    pub fn step_point(&mut self, alloc: Global, k: &Kernel, time: Time) -> Result<Text, AllocError>
        ensures text { IfOk result (λ text. (c d : Config) → step c ≡ went d → StandsFor k.now d → c.cycle.now ≡ time.0 → d.design ≡ c.design
            → Keeps self.old c.trace.snapshots → trace_so_far d ≡ trace_so_far c ++ text) }
        ensures keeps { OnOk result ((c d : Config) → step c ≡ went d → StandsFor k.now d → c.cycle.now ≡ time.0
            → Keeps self.old c.trace.snapshots → Keeps self.new d.trace.snapshots) }
        ensures stays { OnErr result (self.new ≡ self.old) }
    {
        steps_add_snapshots();
        if k.cycle.now.0 == time.0 {
            return Ok(Text::new(alloc));
        }
        self.next_point(alloc, k, time)
    }

    /// What the trace ends with: the point of the simulated time at the end of the session, nothing where it changes no value.
    ///
    /// # Errors
    /// Memory was refused.
    pub fn last_point(&mut self, alloc: Global, k: &Kernel) -> Result<Text, AllocError>
        ensures text { IfOk result (λ text. (c : Config) → StandsFor k.now c → Keeps self.old c.trace.snapshots → trace_so_far c ++ text ≡ trace_text c) }
        ensures stays { OnErr result (self.new ≡ self.old) }
    {
        self.next_point(alloc, k, k.cycle.now)
    }
}
