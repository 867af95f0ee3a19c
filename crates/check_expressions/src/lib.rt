//! Types of expressions: what operators take and give, what names stand for in an expression, and what a construct needs a
//! name to be.
//!
//! One walk over an expression of a model: what it stands for, and the first broken rule in it.
#![tactic(auto)]

mod channel_places;
mod channels;
mod construct_findings;
mod expressions;
mod findings;
mod heads;
mod needs;
mod operators;
mod types;

pub use channel_places::{JudgedChannel, judge_channel};
pub use construct_findings::Judged;
pub use expressions::judge;
pub use findings::{Finding, first_finding, told_if};
pub use heads::{MemberUse, member_finding};
pub use needs::{is_unmet, meets};
pub use operators::{
    becomes_vector, concat_type, conversion_type, digit_count, digit_type, given, is_bool,
    is_integer, is_logic, is_payload, is_process, is_time, is_vector_of, is_within, operands,
    seen_as, slice_type, unary_type,
};
pub use types::{
    element_seen, is_array, is_below, is_integer_type, is_port, is_time_literal, logic_type,
    member_seen, object_if, places, type_seen, value_if,
};

/// What is passed on of check_names.
pub mod check_names_api {
    pub use check_names::{
        Locals, ModelNames, ModuleNames, NameTable, Place, event_member, is_width, item_name,
        port_size, row_of, signal_type, value_member, variable_type,
    };
}

/// What is passed on of model_rules.
pub mod model_rules_api {
    pub use check_names::model_rules_api::{
        Destination, EndMeaning, ExpressionType, LeftEnd, Meaning, Need, Row, ValueMember,
        blocking_is_least, reached_is_least,
    };
}

/// What is passed on of sim_time.
pub mod sim_time_api {
    pub use check_names::sim_time_api::picoseconds_of;
}

/// What is passed on of logic_values.
pub mod logic_values_api {
    pub use check_names::logic_values_api::Items;
}
