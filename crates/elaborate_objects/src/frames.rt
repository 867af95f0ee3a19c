//! What is left of the instances that a walk stands in.
ghost use Rattle.std.specs.Prelude.{◌≡◌, ◌≤◌, ◌+◌, ◌++◌, length, OnOk};
ghost use Rattle.elaborate_objects.specs.Left.{Rows, left_of, rows_within, inside_form};

use check_names::flat_design_api::ObjectForm;
use std::alloc::AllocError;

/// An instance whose objects are not all made.
#[derive(Clone, Copy)]
pub(crate) struct Frame {
    /// The place in the text of its module.
    pub place: u32,
    /// The next row of it.
    pub next: usize,
    /// Its number among the objects.
    pub instance: u32,
    /// How many instances may stand in each other inside it.
    pub depth: usize,
}

/// Goes into the instance of this number, if another may stand in those around.
#[tactic(auto, unfolding(crate::specs::Left::rows_within))]
pub(crate) fn enter(
    frames: &mut Vec<Frame>,
    depth: usize,
    instance: u32,
    place: u32,
) -> Result<(), AllocError>
    ensures left { OnOk result ((t : Rows) → left_of t (instance + 1) frames.new.items
        ≡ rows_within depth t instance place ++ left_of t (instance + 1 + length (rows_within depth t instance place)) frames.old.items) }
    ensures one { OnOk result (length frames.new.items ≤ length frames.old.items + 1) }
{
    if depth == 0 {
        return Ok(());
    }
    frames.push(Frame {
        place,
        next: 0,
        instance,
        depth: depth - 1,
    })?;
    Ok(())
}

/// Goes into an object of this number, if it is an instance.
pub(crate) fn enter_form(
    frames: &mut Vec<Frame>,
    depth: usize,
    number: u32,
    form: ObjectForm,
) -> Result<(), AllocError>
    ensures left { OnOk result ((t : Rows) → left_of t (number + 1) frames.new.items
        ≡ inside_form (rows_within depth t) number form ++ left_of t (number + 1 + length (inside_form (rows_within depth t) number form)) frames.old.items) }
    ensures one { OnOk result (length frames.new.items ≤ length frames.old.items + 1) }
{
    match form {
        ObjectForm::Instance { module } => enter(frames, depth, number, module),
        ObjectForm::Signal { .. }
        | ObjectForm::Resolved
        | ObjectForm::Clock { .. }
        | ObjectForm::Fifo { .. }
        | ObjectForm::Mutex
        | ObjectForm::Event
        | ObjectForm::Keeper
        | ObjectForm::Semaphore { .. }
        | ObjectForm::Memory { .. }
        | ObjectForm::Variable { .. }
        | ObjectForm::Port { .. }
        | ObjectForm::Export { .. }
        | ObjectForm::Initiator { .. }
        | ObjectForm::Target { .. }
        | ObjectForm::Process { .. } => Ok(()),
    }
}
