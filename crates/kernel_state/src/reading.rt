//! What is seen of a kernel from outside.
ghost use Rattle.std.specs.Prelude.{◌≡◌, ◌<◌, Some, length, slice_get};
ghost use Rattle.kernel_processes.specs.FlatDesign.declared.design.Visible.{Visible};
ghost use Rattle.kernel_processes.specs.SimModel.Configuration.{Config};
ghost use Rattle.kernel_processes.specs.SimModel.Phases.{visible_value};
ghost use Rattle.kernel_state.specs.Kernel.{StandsFor};

use crate::kernel::Kernel;
use kernel_processes::flat_design_api::VisibleId;
use kernel_processes::logic_values_api::Value;
use kernel_processes::sim_time_api::Time;

impl Kernel<'_> {
    /// The simulated time.
    pub fn now(&self) -> Time
        ensures { (c : Config) → StandsFor self.now c → result.0 ≡ c.cycle.now }
    {
        self.cycle.now
    }

    /// The value of an object that has values to be seen: a signal, buffer, clock or resolved signal, by its number among
    /// these in object order.
    pub fn read_signal(&self, i: u32) -> Value
        requires { i < length self.now.design.visible }
        ensures { (c : Config) (v : Visible) → StandsFor self.now c → slice_get c.design.visible i ≡ Some v → result ≡ visible_value c v.id }
    {
        match self.design.visible.as_slice()[i as usize].id {
            VisibleId::Signal(n) => self.channels.signal(n),
            VisibleId::Resolved(n) => self.channels.resolved(n),
        }
    }
}
