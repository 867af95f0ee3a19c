use sim_model::logic_values_api::Text;
use sim_model::sim_time_api::Unit;

/// A command as it stands in a text: its names and values are still the bytes that spell them.
#[derive(Drop)]
pub enum CommandForm {
    /// `run`, to the end of all that is pending, or `run NUM UNIT`, for so many units.
    Run(Option<(u64, Unit)>),
    /// `set PATH VALUE`
    Set {
        /// The path of what is set.
        path: Text,
        /// The spelled value.
        value: Text,
    },
    /// `show PATH`
    Show {
        /// The path of what is shown.
        path: Text,
    },
}

/// What a line of a script says.
#[derive(Drop)]
pub enum LineForm {
    /// Nothing: it has no words, or is a comment.
    Blank,
    /// A command.
    Command(CommandForm),
    /// None of the forms that a line may have.
    Unreadable,
}

/// A command of a text with its line.
#[derive(Drop)]
pub struct TextCommand {
    /// The line that it stands on, counted from 1.
    pub line: u32,
    /// What it says.
    pub form: CommandForm,
}
