//! What a command line may ask for.

use sim_model::Log;
use thiserror::Error;

/// In which order processes that are runnable at once are taken (IEEE 1666-2011, 4.2.1.2 leaves it open).
#[derive(Clone, Copy, Debug, PartialEq, Eq)]
pub enum Order {
    /// The least serial first.
    First,
    /// The greatest serial first.
    Last,
    /// As a generator says that is made by this seed.
    Seed(u64),
}

/// By which rule the next process is chosen.
#[derive(Clone, Copy)]
pub enum ChoiceRule<'a> {
    /// By an order.
    Ordered(Order),
    /// As the list of choices in the file of this name says.
    Replayed(&'a str),
}

/// A model that is to be run under a script. Names of files are as the words have them.
#[derive(Clone, Copy)]
pub struct Simulation<'a> {
    /// The model's file.
    pub model: &'a str,
    /// The script's file.
    pub script: &'a str,
    /// The file that the trace of signals is to be written to.
    pub vcd: Option<&'a str>,
    /// The file that the choices of the run are to be written to.
    pub choices: Option<&'a str>,
    /// The most steps of the run.
    pub budget: u64,
    /// How processes are chosen.
    pub rule: ChoiceRule<'a>,
    /// What the report tells.
    pub log: Log,
}

/// A generated model that is to be run.
#[derive(Clone, Copy, Debug, PartialEq, Eq)]
pub struct Generated {
    /// The size of the model.
    pub size: u64,
    /// The most steps of the run.
    pub budget: u64,
    /// How processes are chosen.
    pub order: Order,
}

/// What is told of one file.
#[derive(Clone, Copy, Debug, PartialEq, Eq)]
pub enum PageKind {
    /// A model as the printer lays it out.
    Layout,
    /// Whether a model keeps the rule on the order of its processes.
    Verdict,
    /// What comes of the traffic of a bus.
    Traffic,
}

/// What a command line asks for.
#[derive(Clone, Copy)]
pub enum Mode<'a> {
    /// To run a model under a script.
    Simulate(Simulation<'a>),
    /// To tell this of the file of this name.
    Page(PageKind, &'a str),
    /// To run a generated model.
    Generate(Generated),
}

/// Why words were not read.
#[derive(Clone, Copy, Debug, PartialEq, Eq, Error)]
pub enum WordsStop {
    /// They are no command line.
    #[error("the words are no command line")]
    Usage,
    /// Memory was refused.
    #[error("no memory")]
    NoMemory,
}
