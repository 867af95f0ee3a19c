//! How a session is to be run, and how it went.
ghost use Rattle.std.specs.Prelude.{◌≡◌};
ghost use Rattle.session.specs.Cut as spec;

use flat_design::Choices;
use sim_io::Trouble;
use vcd_trace::sim_model_api::{Log, Rule, Stop};

/// How a session is to be run.
#[derive(Drop)]
pub struct Plan {
    /// The rule of choices.
    pub rule: Rule,
    /// The most steps that may be made.
    pub budget: u64,
    /// What the report tells.
    pub log: Log,
    /// The file that the trace is written to, as it was created.
    pub vcd: Option<u32>,
    /// The file that the choices are written to, as it was created.
    pub choices: Option<u32>,
}

/// How a session went.
#[derive(Drop)]
pub struct Outcome {
    /// How it ended.
    pub stop: Stop,
    /// The serials that were taken, in order.
    pub choices: Choices,
    /// How many steps were made.
    pub steps: u64,
}

/// How a session ends that is cut by this.
fn cut_by(trouble: Trouble) -> Stop
    ensures { result ≡ spec.cut_by trouble }
{
    match trouble {
        Trouble::Failed => Stop::WriteFault,
        Trouble::NoMemory => Stop::NoMemory,
    }
}

impl Outcome {
    /// A session that was cut by this, after these steps with these choices.
    pub fn cut(trouble: Trouble, choices: Choices, steps: u64) -> Outcome
        ensures { result ≡ record { stop = spec.cut_by trouble; choices = choices; steps = steps } }
    {
        Outcome {
            stop: cut_by(trouble),
            choices,
            steps,
        }
    }
}
