//! Statements that act: what their names stand for, whether their types fit, and the first broken rule in them.
#![tactic(auto)]

mod actions;
mod calls;
mod events;
mod operations;
mod sites;
mod stores;
mod uses;

pub use events::{events_finding, option_finding, option_type, type_of};
pub use operations::result_differs;
pub use sites::{act_finding, operate_finding};
pub use stores::{misfits, types_differ, variable_named};
pub use uses::{Used, site_finding};

/// What is passed on of check_expressions.
pub mod check_expressions_api {
    pub use check_expressions::{
        Finding, MemberUse, first_finding, is_bool, is_integer, is_port, is_time_literal, judge,
        member_finding, told_if, type_seen,
    };
}

/// What is passed on of check_names.
pub mod check_names_api {
    pub use check_expressions::check_names_api::{
        Locals, ModelNames, ModuleNames, NameTable, Place, is_width, item_name, port_size, row_of,
        signal_type, value_member, variable_type,
    };
}

/// What is passed on of model_rules.
pub mod model_rules_api {
    pub use check_expressions::model_rules_api::{
        Destination, EndMeaning, ExpressionType, LeftEnd, Meaning, Need, Row, ValueMember,
    };
}

/// What is passed on of sim_time.
pub mod sim_time_api {
    pub use check_expressions::sim_time_api::picoseconds_of;
}
