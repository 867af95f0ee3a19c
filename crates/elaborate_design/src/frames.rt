//! What is left of the instances that a walk stands in.
ghost use Rattle.std.specs.Prelude.{◌≡◌, ◌+◌, ◌++◌, List, IfOk, OnOk};
ghost use Rattle.elaborate_objects.specs.FlatDesign.declared.objects.Object.{Object};
ghost use Rattle.elaborate_design.specs.Links.{Links};
ghost use Rattle.elaborate_design.specs.Left.{left_of, links_within};
ghost use Rattle.elaborate_design.specs.Work.{work_of, work_within};

use std::alloc::AllocError;

/// An instance whose bindings are not all listed.
#[derive(Clone, Copy)]
pub(crate) struct Frame {
    /// The place in the text of its module.
    pub place: u32,
    /// The next link of it.
    pub next: usize,
    /// Its number among the objects.
    pub instance: u32,
    /// How many instances may stand in each other inside it.
    pub depth: usize,
}

/// Goes into the instance of this number, if another may stand in those around.
#[tactic(auto, unfolding(crate::specs::Left::links_within, crate::specs::Work::work_within))]
pub(crate) fn enter(
    frames: &mut Vec<Frame>,
    depth: usize,
    instance: u32,
    place: u32,
) -> Result<(), AllocError>
    ensures left { OnOk result ((t : Links) (os : List Object) → left_of t os frames.new.items ≡ links_within depth t os instance place ++ left_of t os frames.old.items) }
    ensures work { OnOk result ((t : Links) → work_of t frames.new.items ≡ work_within depth t place + work_of t frames.old.items) }
{
    if depth == 0 {
        return Ok(());
    }
    frames.push(Frame {
        place,
        next: 0,
        instance,
        depth: depth - 1,
    })?;
    Ok(())
}

/// A frame behind its next link.
pub(crate) fn behind(frame: Frame) -> Result<Frame, AllocError>
    ensures { IfOk result (λ f. f ≡ record { place = frame.place; next = frame.next + 1; instance = frame.instance; depth = frame.depth }) }
{
    match frame.next.checked_add(1) {
        None => Err(AllocError),
        Some(next) => Ok(Frame {
            place: frame.place,
            next,
            instance: frame.instance,
            depth: frame.depth,
        }),
    }
}
