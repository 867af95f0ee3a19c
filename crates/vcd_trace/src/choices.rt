//! The text of a list of choices.
ghost use Rattle.std.specs.Prelude.{◌≡◌, ◌++◌, ◌∷◌, [], OnOk, IfOk};
ghost use Rattle.std.specs.Fmt.{decimal};
ghost use Rattle.laws_runs.specs.SimModel.Texts as spec;

use flat_design::Choices;
use laws_runs::logic_values_api::Text;
use std::alloc::{AllocError, Global};

/// Adds the line of a choice: the serial in decimal.
fn push_choice(alloc: Global, text: &mut Vec<u8>, serial: u32) -> Result<(), AllocError>
    ensures { OnOk result (text.new.items ≡ text.old.items ++ (decimal serial ++ 10 ∷ [])) }
{
    let line = format!(in alloc; "{serial}\n")?;
    text.extend_from_slice(line.as_bytes())
}

/// Adds the lines of these choices.
fn push_choices(alloc: Global, text: &mut Vec<u8>, serials: &[u32]) -> Result<(), AllocError>
    ensures { OnOk result (text.new.items ≡ text.old.items ++ spec.choice_text serials.now) }
{
    for serial in serials {
        push_choice(alloc, text, *serial)?;
    }
    Ok(())
}

/// The text of the choices of a run: the serials of the processes that were taken, in order, one a line.
///
/// # Errors
/// Memory was refused.
pub fn choices_text(alloc: Global, choices: &Choices) -> Result<Text, AllocError>
    ensures { IfOk result (λ text. text ≡ spec.choice_text choices.now) }
{
    let mut text = Vec::new(alloc);
    push_choices(alloc, &mut text, choices.as_slice())?;
    Ok(Text::from_vec(text))
}
