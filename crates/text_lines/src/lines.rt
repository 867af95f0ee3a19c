//! What lines say.
ghost use Rattle.std.specs.Prelude.{◌≡◌, [], ◌∷◌, IfOk};
ghost use Rattle.text_lines.specs.Pieces.{words_left};
ghost use Rattle.text_lines.specs.Words.{name_read};
ghost use Rattle.text_lines.specs.LineForms as spec;

use super::forms::LineForm;
use crate::{
    action_read, delay_read, is_comment, name_read, next_word, number_read, size_read, text_of,
    time_read,
};
use std::alloc::{AllocError, Global};

fn delay_of(bytes: &[u8]) -> LineForm
    ensures { result ≡ spec.delay_form (bytes.now ∷ []) }
{
    match delay_read(bytes) {
        Some(delay) => LineForm::Delay(delay),
        None => LineForm::Unreadable,
    }
}

fn delay_form(rest: Option<&[u8]>) -> LineForm
    ensures { result ≡ spec.delay_form (words_left rest.entry) }
{
    let Some((delay, rest)) = next_word(rest) else {
        return LineForm::Unreadable;
    };
    if next_word(rest).is_some() {
        return LineForm::Unreadable;
    }
    delay_of(delay)
}

fn initiator_of(alloc: Global, bytes: &[u8], dmi: bool) -> Result<LineForm, AllocError>
    ensures { IfOk result (λ form. form ≡ spec.form_with (name_read bytes.now) (λ name. LineForm.Initiator name dmi)) }
{
    match name_read(bytes) {
        Some(name) => {
            let name = text_of(alloc, name)?;
            Ok(LineForm::Initiator { name, dmi })
        }
        None => Ok(LineForm::Unreadable),
    }
}

fn marked_initiator(alloc: Global, name: &[u8], mark: &[u8]) -> Result<LineForm, AllocError>
    ensures { IfOk result (λ form. form ≡ spec.initiator_form (name.now ∷ mark.now ∷ [])) }
{
    if mark == b"dmi".as_slice() {
        initiator_of(alloc, name, true)
    } else {
        Ok(LineForm::Unreadable)
    }
}

fn initiator_form(alloc: Global, rest: Option<&[u8]>) -> Result<LineForm, AllocError>
    ensures { IfOk result (λ form. form ≡ spec.initiator_form (words_left rest.entry)) }
{
    let Some((name, rest)) = next_word(rest) else {
        return Ok(LineForm::Unreadable);
    };
    let Some((mark, rest)) = next_word(rest) else {
        return initiator_of(alloc, name, false);
    };
    if next_word(rest).is_some() {
        return Ok(LineForm::Unreadable);
    }
    marked_initiator(alloc, name, mark)
}

fn invalidate_of(time: &[u8], low: &[u8], high: &[u8]) -> LineForm
    ensures { result ≡ spec.invalidate_form (time.now ∷ low.now ∷ high.now ∷ []) }
{
    let Some(time) = time_read(time) else {
        return LineForm::Unreadable;
    };
    let Some(low) = number_read(low) else {
        return LineForm::Unreadable;
    };
    let Some(high) = number_read(high) else {
        return LineForm::Unreadable;
    };
    if low <= high {
        LineForm::Invalidate { time, low, high }
    } else {
        LineForm::Unreadable
    }
}

fn invalidate_form(rest: Option<&[u8]>) -> LineForm
    ensures { result ≡ spec.invalidate_form (words_left rest.entry) }
{
    let Some((time, rest)) = next_word(rest) else {
        return LineForm::Unreadable;
    };
    let Some((low, rest)) = next_word(rest) else {
        return LineForm::Unreadable;
    };
    let Some((high, rest)) = next_word(rest) else {
        return LineForm::Unreadable;
    };
    if next_word(rest).is_some() {
        return LineForm::Unreadable;
    }
    invalidate_of(time, low, high)
}

fn target_of(
    alloc: Global,
    name: &[u8],
    low: &[u8],
    size: &[u8],
    latency: &[u8],
) -> Result<LineForm, AllocError>
    ensures { IfOk result (λ form. form ≡ spec.target_form (name.now ∷ low.now ∷ size.now ∷ latency.now ∷ [])) }
{
    let Some(name) = name_read(name) else {
        return Ok(LineForm::Unreadable);
    };
    let Some(low) = number_read(low) else {
        return Ok(LineForm::Unreadable);
    };
    let Some(size) = size_read(size) else {
        return Ok(LineForm::Unreadable);
    };
    let Some(latency) = time_read(latency) else {
        return Ok(LineForm::Unreadable);
    };
    let name = text_of(alloc, name)?;
    Ok(LineForm::Target {
        name,
        low,
        size,
        latency,
    })
}

fn target_form(alloc: Global, rest: Option<&[u8]>) -> Result<LineForm, AllocError>
    ensures { IfOk result (λ form. form ≡ spec.target_form (words_left rest.entry)) }
{
    let Some((name, rest)) = next_word(rest) else {
        return Ok(LineForm::Unreadable);
    };
    let Some((low, rest)) = next_word(rest) else {
        return Ok(LineForm::Unreadable);
    };
    let Some((size, rest)) = next_word(rest) else {
        return Ok(LineForm::Unreadable);
    };
    let Some((latency, rest)) = next_word(rest) else {
        return Ok(LineForm::Unreadable);
    };
    if next_word(rest).is_some() {
        return Ok(LineForm::Unreadable);
    }
    target_of(alloc, name, low, size, latency)
}

fn access_of(
    alloc: Global,
    time: &[u8],
    name: &[u8],
    word: &[u8],
    address: &[u8],
    what: &[u8],
) -> Result<LineForm, AllocError>
    ensures { IfOk result (λ form. form ≡ spec.access_form (time.now ∷ name.now ∷ word.now ∷ address.now ∷ what.now ∷ [])) }
{
    let Some(time) = time_read(time) else {
        return Ok(LineForm::Unreadable);
    };
    let Some(name) = name_read(name) else {
        return Ok(LineForm::Unreadable);
    };
    let Some(address) = number_read(address) else {
        return Ok(LineForm::Unreadable);
    };
    let Some(action) = action_read(alloc, word, what)? else {
        return Ok(LineForm::Unreadable);
    };
    let name = text_of(alloc, name)?;
    Ok(LineForm::Access {
        time,
        name,
        address,
        action,
    })
}

fn access_form(alloc: Global, rest: Option<&[u8]>) -> Result<LineForm, AllocError>
    ensures { IfOk result (λ form. form ≡ spec.access_form (words_left rest.entry)) }
{
    let Some((time, rest)) = next_word(rest) else {
        return Ok(LineForm::Unreadable);
    };
    let Some((name, rest)) = next_word(rest) else {
        return Ok(LineForm::Unreadable);
    };
    let Some((word, rest)) = next_word(rest) else {
        return Ok(LineForm::Unreadable);
    };
    let Some((address, rest)) = next_word(rest) else {
        return Ok(LineForm::Unreadable);
    };
    let Some((what, rest)) = next_word(rest) else {
        return Ok(LineForm::Unreadable);
    };
    if next_word(rest).is_some() {
        return Ok(LineForm::Unreadable);
    }
    access_of(alloc, time, name, word, address, what)
}

fn form_of(alloc: Global, word: &[u8], rest: Option<&[u8]>) -> Result<LineForm, AllocError>
    ensures { IfOk result (λ form. form ≡ spec.form_of word.now (words_left rest.entry)) }
{
    if word == b"delay".as_slice() {
        return Ok(delay_form(rest));
    }
    if word == b"target".as_slice() {
        return target_form(alloc, rest);
    }
    if word == b"initiator".as_slice() {
        return initiator_form(alloc, rest);
    }
    if word == b"at".as_slice() {
        return access_form(alloc, rest);
    }
    if word == b"invalidate".as_slice() {
        return Ok(invalidate_form(rest));
    }
    Ok(LineForm::Unreadable)
}

/// What a line says.
pub fn line_form(alloc: Global, line: &[u8]) -> Result<LineForm, AllocError>
    ensures { IfOk result (λ form. form ≡ spec.line_form line.now) }
{
    if is_comment(line) {
        return Ok(LineForm::Blank);
    }
    match next_word(Some(line)) {
        Some((word, rest)) => form_of(alloc, word, rest),
        None => Ok(LineForm::Blank),
    }
}
