//! The ids of variables.
ghost use Rattle.std.specs.Prelude.{◌≡◌, ◌++◌, OnOk};
ghost use Rattle.laws_runs.specs.SimModel.Trace.{id_of};

use std::alloc::AllocError;

/// How many characters an id may be made of: those from `!` up to `~`.
const CHARACTERS: usize = 94;

/// Adds the id of the variable of this number.
pub(crate) fn push_id(text: &mut Vec<u8>, number: usize) -> Result<(), AllocError>
    ensures { OnOk result (text.new.items ≡ text.old.items ++ id_of number) }
{
    let mut left = number;
    while left >= CHARACTERS {
        text.push(b'!' + (left % CHARACTERS) as u8)?;
        left = left / CHARACTERS - 1;
    }
    text.push(b'!' + left as u8)?;
    Ok(())
}
