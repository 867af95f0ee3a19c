//! What is wrong with input that is refused, to be said of it.
use bus_router::traffic_file_api::BusStop;
use model_tree::Fault;
use model_tree::logic_values_api::Text;

/// What is wrong with a model.
#[derive(Drop)]
pub enum ModelFault {
    /// It has no tree; the line that says so, counted from 1.
    Syntax(u32),
    /// It breaks a rule: its first fault.
    Rule(Fault),
}

/// What is wrong with a script.
#[derive(Drop)]
pub enum ScriptFault {
    /// It has no command list; the line at which it does not read, counted from 1.
    Syntax(u32),
    /// A command cannot be carried out: the fault of the first such one.
    Command(Fault),
}

/// Why nothing was begun, where it is the input that is refused.
#[derive(Drop)]
pub enum Refusal {
    /// The words are refused.
    Usage,
    /// The file of this name could not be read.
    Read(Text),
    /// The model is refused for what is wrong with it.
    Model(ModelFault),
    /// The script is refused for what is wrong with it.
    Script(ScriptFault),
    /// The replay text is no list of serials; the line at which it does not read, counted from 1.
    Replay(u32),
    /// The traffic file is refused for what is wrong with it, which is not want of memory.
    Bus(BusStop),
    /// The file of this name has more bytes than its limit.
    TooLarge(Text),
}
