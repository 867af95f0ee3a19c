//! The code of blocks of statements: numbered blocks of numbered statements.
#![tactic(auto)]

mod blocks;
mod laid;
mod leaves;

pub use blocks::lay_block;
pub use laid::{Laid, add, push_block};

/// What is passed on of code_deeds.
pub mod code_deeds_api {
    pub use code_deeds::Home;
}

/// What is passed on of code_terms.
pub mod code_terms_api {
    pub use code_deeds::code_terms_api::{
        NameList, Source, body_names, body_sources, exceptions_of, function_sources,
    };
}

/// What is passed on of laws_code.
pub mod laws_code_api {
    pub use laws_code::models_have_code;
}
