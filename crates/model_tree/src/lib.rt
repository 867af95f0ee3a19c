//! The model language as data: words, names, the tree of a text.
#![tactic(auto)]

mod expressions;
mod faults;
mod items;
mod leaves;
mod lines;
mod spelling;
mod statements;
mod types;
mod vocabulary;
mod whole;

pub use expressions::{BinaryOp, Conversion, Expression, NamedConstant, UnaryOp};
pub use faults::{CheckStop, Fault, Kind, ParseStop};
pub use items::{
    ClockItem, FunctionItem, Head, InitiatorRole, Item, Module, PlainKind, ProcessItem,
    ProcessKind, ResolutionLine, SignalItem, SignalKind, TargetRole, Top,
};
pub use leaves::{
    NAME_LIMIT, Name, PRINT_LIMIT, PrintText, is_letter, is_name, is_print_byte, is_print_text,
    is_word, is_word_byte,
};
pub use lines::{first_line, item_line};
pub use spelling::{
    binary_symbol, constant_word, control_word, conversion_word, plain_word, process_word,
    signal_word, unary_symbol, unit_name,
};
pub use statements::{
    Action, Channel, Control, Event, Notification, Operation, Place, Spawn, Statement, Target,
    Waiting, Who,
};
pub use types::{
    BoundRule, Constant, ConstantForm, End, Interface, Parameter, PortSize, SignalType, Span,
    TypeForm, VarType,
};
pub use vocabulary::{
    LATER_WORDS, SYMBOLS, Symbol, WORDS, Word, later_word_of, symbol_text, word_of, word_text,
};
pub use whole::Tree;

/// What is passed on of logic_values.
pub mod logic_values_api {
    pub use logic_values::{
        Digit, Items, Lv, Sign, Text, Value, concat, cut, digit, sub, value_text, vector_of_digits,
    };
}

/// What is passed on of sim_time.
pub mod sim_time_api {
    pub use sim_time::{Resolution, Time, Unit, UnitStop, of_unit};
}
