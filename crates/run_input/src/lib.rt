//! The input of a run: its texts, read each within its limit, and judged; and the laid-out text of a model.
#![tactic(auto)]

mod judging;
mod laws;
mod laying;
mod loading;

pub use judging::{JudgeStop, Judged, ModelStop, judge, judge_model, judge_text};
pub use laws::{one_cause, one_source};
pub use laying::laid_out;
pub use loading::{LoadStop, MODEL_LIMIT, REPLAY_LIMIT, SCRIPT_LIMIT, Texts, load, load_model};

/// What is passed on of script_text.
pub mod script_text_api {
    pub use script_text::Script;
}

/// What is passed on of result_texts.
pub mod result_texts_api {
    pub use result_texts::{Refusal, memory_line, refusal_line, write_line};
}
