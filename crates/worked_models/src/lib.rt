//! Worked rules: what the definitions of the rules answer for texts written by hand as trees, computed by the checker. A clause
//! says of one tree that it has this first fault, with its kind, line and name, or that it has none.
//!
//! A design that is written by hand, tied to the text that it stands for: the text reads as the tree, of which the flat design and
//! its code are what the definitions say; and a run of it.
//!
//! Worked runs of models that break one part of the rule on the order of processes: each ends in two orders without a fault,
//! and comes to different values. A clause says what the final values are where the processes are taken in this order.
//!
//! Worked texts with clocked threads: what the definition of an expansion makes of token lists written by hand, computed by the
//! checker. A clause says of one text what it becomes, or that it becomes nothing; of the tree of a model which ticks its clocked
//! thread has; and of the code of one of these that it has them too, by the law on all clocked threads.
//!
//! Texts of traffic written by hand, and what the definitions give for them.
#![tactic(auto)]

mod calling;
mod coded;
mod coding;
mod following;
mod forms;
mod models;
mod naming;
mod orders;
mod reaching;
mod texts;
mod traffic_texts;
mod using;
mod valuing;

pub use calling::{
    arguments_are_counted, handlers_have_their_signatures, numbers_of_items_are_in_range,
    sockets_of_calls, values_are_returned,
};
pub use coded::the_code_with_a_reset_at_an_edge;
pub use coding::{a_clock_reads_back, parts_are_told_apart, signs_are_kept, statements_are_coded};
pub use following::{the_design_is_that_of_its_text, the_design_runs};
pub use forms::{
    the_thread_with_a_reset_at_an_edge, the_thread_with_a_reset_at_once, the_thread_without_resets,
};
pub use models::{
    a_model_with_a_reset_at_an_edge, a_model_with_a_reset_at_once, a_model_without_resets,
};
pub use naming::{
    ends_are_known, locals_are_visible_in_their_block, members_are_of_their_column,
    names_are_known, names_differ,
};
pub use orders::{
    an_immediate_notification_shows_the_order, cancelling_for_another_shows_the_order,
    two_readers_show_the_order, two_users_of_a_variable_show_the_order,
    what_is_available_shows_the_order, what_is_free_shows_the_order,
};
pub use reaching::{
    handlers_do_not_wait, methods_do_not_wait, passes_have_their_order, threads_set_no_trigger,
    unwind_blocks_are_plain,
};
pub use texts::{
    others_become_nothing, resets_are_tested, several_expand, ticks_wait, words_are_reserved,
};
pub use traffic_texts::{
    faults_have_their_order, forms_come_before_faults, limits_are_counted, lines_are_read,
};
pub use using::{
    channels_are_of_their_kind, handles_are_told_apart, sensitivities_are_static,
    targets_are_assigned, unwind_blocks_do_not_sync, values_are_read,
};
pub use valuing::{
    operands_have_one_sign, places_and_slices_are_in_range, types_fit, written_types_come_first,
};
