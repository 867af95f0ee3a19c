//! The parts of the first kernel, together.
ghost use Rattle.std.specs.Prelude.{◌≡◌, ◌≤◌, ◌<◌, ℕ, List, IfOk, Contains, length};
ghost use Rattle.kernel_state.specs.InstanceTable.declared.TheConstants.{MAX_LIVE};
ghost use Rattle.kernel_state.specs.FlatDesign.Code as code;
ghost use Rattle.kernel_state.specs.FlatDesign.Code.{arena_of};
ghost use Rattle.kernel_state.specs.FlatDesign.Reach.{IsIn, inner_blocks};
ghost use Rattle.kernel_state.specs.SimModel.Configuration.{start};
ghost use Rattle.kernel_state.specs.SimModel.declared.plain.Command.{Command};
ghost use Rattle.kernel_state.specs.Kernel.{StandsFor, cycle_of};
ghost use Rattle.kernel_start.specs.Made.{first_cycle};

use crate::SoundKernel;
use crate::parts::{First, first_parts};
use crate::processes::first_processes;
use kernel_state::flat_design_api::{Code, Design};
use kernel_state::kernel_bodies_api::Program;
use kernel_state::kernel_processes_api::Schedule;
use kernel_state::logic_values_api::Items;
use kernel_state::sim_model_api::Phase;
use kernel_state::sim_time_api::Time;
use kernel_state::{Cycle, Kept, Kernel};
use std::alloc::{AllocError, Global};
use std::mem;

/// A design and its code as it stands in it, apart.
#[derive(Drop)]
struct Parted {
    design: Design,
    code: Code,
}

/// No code.
fn no_code(alloc: Global) -> Code {
    Code {
        bodies: Items::new(alloc),
        blocks: Items::new(alloc),
        statements: Items::new(alloc),
    }
}

/// The code of a design is taken out of it, as it stands.
fn without_code(alloc: Global, design: Design) -> Parted
    ensures code { result.code ≡ design.code }
    ensures others { result.design ≡ record design { code = result.design.code } }
{
    let mut design = design;
    let code = mem::replace(&mut design.code, no_code(alloc));
    Parted { design, code }
}

/// Idle at time 0.
fn first_cycle() -> Cycle
    ensures { cycle_of result ≡ first_cycle }
{
    Cycle {
        phase: Phase::Idle,
        begun: false,
        now: Time(0),
        end: None,
        stop_asked: false,
        stopped: false,
    }
}

/// The parts together, Idle at time 0.
fn assembled(design: Design, program: &Program, schedule: Schedule<Kept>, first: First) -> Kernel
    ensures parts { result ≡ record { design = design; program = program.entry; cycle = result.cycle; schedule = schedule; parents = first.parents; events = first.events; channels = first.channels; transactions = first.transactions; variables = first.variables; memories = first.memories; made = 0 } }
    ensures cycle { cycle_of result.cycle ≡ first_cycle }
{
    let First {
        parents,
        events,
        channels,
        transactions,
        variables,
        memories,
    } = first;
    Kernel {
        design,
        program,
        cycle: first_cycle(),
        schedule,
        parents,
        events,
        channels,
        transactions,
        variables,
        memories,
        made: 0,
    }
}

/// A design and its code, apart.
#[derive(Drop)]
pub struct SplitDesign {
    /// The design, with other code.
    pub design: Design,
    /// Its code.
    pub program: Program,
}

/// Takes the code out of a design.
pub fn apart(alloc: Global, design: Design) -> Result<SplitDesign, AllocError>
    requires { (b j : ℕ) (s : code.Statement) → IsIn (arena_of design.code) b s → Contains (inner_blocks s) j → j < b }
    ensures { IfOk result (λ x. record x.design { code = x.program.code } ≡ design) }
{
    let Parted { design, code } = without_code(alloc, design);
    match Program::new(alloc, code) {
        Ok(program) => Ok(SplitDesign { design, program }),
        Err(_) => Err(AllocError),
    }
}

/// The kernel of a sound design before the first command, over the code of the design: no run has begun, it is time 0, and each
/// value is the first. Its parts agree, as its type states.
pub fn first_kernel(
    alloc: Global,
    design: Design,
    program: &Program,
) -> Result<SoundKernel, AllocError>
    requires few { length design.processes ≤ MAX_LIVE }
    ensures first { IfOk result (λ k. (script : List Command) → StandsFor k.kernel (start (record design { code = program.now.code }) script)) }
    ensures made { IfOk result (λ k. k.kernel.made ≡ 0) }
{
    let first = match first_parts(alloc, &design) {
        Ok(first) => first,
        Err(_) => return Err(AllocError),
    };
    match first_processes(alloc, program, design.processes.as_slice()) {
        Ok(schedule) => Ok(SoundKernel {
            kernel: assembled(design, program, schedule, first),
        }),
        Err(_) => Err(AllocError),
    }
}
