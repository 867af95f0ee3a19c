ghost use Rattle.std.specs.Prelude.{◌≡◌, ◌+◌, IfOk, option_map};
ghost use Rattle.model_tree.specs.Views.{expression_of, expressions_of, spawn_of};
ghost use Rattle.flat_design.specs.Code as code;
ghost use Rattle.code_terms.specs.CodeRules.Deeds as deeds;
ghost use Rattle.code_terms.specs.ModelRules.Scopes.{use_of as use_in};
ghost use Rattle.code_terms.specs.CheckNames.Places.{scope_of};
ghost use Rattle.code_deeds.specs.Homes as spec;

use super::events::{statics_code, terms_code};
use super::homes::Home;
use code_terms::check_names_api::Place;
use code_terms::{term_code, use_of};
use flat_design::{Argument, CodeId, Controlled, NameId, NameUse, SpawnForm};
use model_tree::{Expression, Name, Parameter, ProcessKind, Spawn, Who};
use std::alloc::{AllocError, Global};

/// A number in 32 bits. A greater one is answered as out of memory.
fn in_32_bits(number: usize) -> Result<u32, AllocError>
    ensures { IfOk result (λ n. n ≡ number) }
{
    match u32::try_from(number) {
        Ok(number) => Ok(number),
        Err(_) => Err(AllocError),
    }
}

/// The sum of two numbers in 32 bits. A greater one is answered as out of memory.
fn sum_in_32_bits(first: u32, number: u32) -> Result<u32, AllocError>
    ensures { IfOk result (λ n. n ≡ first + number) }
{
    match first.checked_add(number) {
        Some(sum) => Ok(sum),
        None => Err(AllocError),
    }
}

/// The number of the body of a name of the module around.
fn body_number(home: Home<'_>, name: &[u8]) -> Result<Option<CodeId>, AllocError>
    ensures { IfOk result (λ found. found ≡ spec.numbered_from home.entry.first_body home.entry.bodies.now name.now) }
{
    match home.bodies.find(name) {
        None => Ok(None),
        Some(number) => {
            let number = in_32_bits(number)?;
            let number = sum_in_32_bits(home.first_body, number)?;
            Ok(Some(number))
        }
    }
}

/// The number of the body of the first function of a name; none where the module around has none.
pub fn function_number(
    place: &Place<'_>,
    home: Home<'_>,
    name: &[u8],
) -> Result<Option<CodeId>, AllocError>
    requires { spec.IsHome home (scope_of place.now) }
    ensures { IfOk result (λ found. found ≡ deeds.function_number (spec.home_of home.entry) (scope_of place.now) name.now) }
{
    match place.function(name) {
        None => Ok(None),
        Some(function) => body_number(home, function.name.bytes()),
    }
}

/// The number of an exception.
pub fn exception_number(home: Home<'_>, name: &[u8]) -> Result<Option<NameId>, AllocError>
    ensures { IfOk result (λ found. found ≡ deeds.exception_number (spec.home_of home.entry) name.now) }
{
    match home.exceptions.find(name) {
        None => Ok(None),
        Some(number) => {
            let number = in_32_bits(number)?;
            Ok(Some(number))
        }
    }
}

/// An argument of an inout parameter: a variable.
fn inout_argument(place: &Place<'_>, argument: &Expression) -> Result<Option<Argument>, AllocError>
    ensures { IfOk result (λ found. option_map code.argument_term found ≡ deeds.inout_argument (scope_of place.now) (expression_of argument.now)) }
{
    match argument {
        Expression::Named(_, name) => match use_of(place, name.bytes())? {
            None => Ok(None),
            Some(used) => Ok(Some(Argument::Inout(used))),
        },
        Expression::Number(_, _)
        | Expression::Time(_, _, _)
        | Expression::Logic(_, _)
        | Expression::Truth(_, _)
        | Expression::Now(_)
        | Expression::Myself(_)
        | Expression::Constant(_, _)
        | Expression::Paren(_, _)
        | Expression::Convert(_, _, _)
        | Expression::ToVector(_, _, _)
        | Expression::Concat(_, _, _)
        | Expression::Placed(_, _, _)
        | Expression::PlacedBy(_, _, _)
        | Expression::Member(_, _)
        | Expression::Element(_, _)
        | Expression::Slice(_, _, _)
        | Expression::Unary(_, _, _)
        | Expression::Binary(_, _, _) => Ok(None),
    }
}

/// The code of an argument.
fn argument_code(
    alloc: Global,
    place: &Place<'_>,
    inout: bool,
    argument: &Expression,
) -> Result<Option<Argument>, AllocError>
    ensures { IfOk result (λ found. option_map code.argument_term found ≡ deeds.argument (scope_of place.now) inout (expression_of argument.now)) }
{
    if inout {
        return inout_argument(place, argument);
    }
    match term_code(alloc, place, argument)? {
        None => Ok(None),
        Some(term) => Ok(Some(Argument::Value(term))),
    }
}

/// The code of arguments; none where one of them has none, or there are not as many as parameters.
fn arguments_code(
    alloc: Global,
    place: &Place<'_>,
    parameters: &[Parameter],
    arguments: &[Expression],
) -> Result<Option<Vec<Argument>>, AllocError>
    ensures { IfOk result (λ found. option_map (λ xs. spec.arguments_of xs.items) found ≡ deeds.arguments (scope_of place.now) parameters.now (expressions_of arguments.now)) }
{
    if parameters.len() != arguments.len() {
        return Ok(None);
    }
    let mut done = Vec::new(alloc);
    for i in 0..arguments.len() {
        match argument_code(alloc, place, parameters[i].inout, &arguments[i])? {
            None => return Ok(None),
            Some(argument) => done.push(argument)?,
        }
    }
    Ok(Some(done))
}

/// The code of the arguments of a call of a function of this name.
pub fn call_arguments(
    alloc: Global,
    place: &Place<'_>,
    name: &[u8],
    arguments: &[Expression],
) -> Result<Option<Vec<Argument>>, AllocError>
    ensures { IfOk result (λ found. option_map (λ xs. spec.arguments_of xs.items) found ≡ deeds.call_arguments (scope_of place.now) name.now (expressions_of arguments.now)) }
{
    match place.function(name) {
        None => Ok(None),
        Some(function) => arguments_code(alloc, place, function.parameters.as_slice(), arguments),
    }
}

/// The process that a control call is for.
pub fn controlled_by(place: &Place<'_>, who: &Who) -> Result<Option<Controlled>, AllocError>
    ensures { IfOk result (λ found. found ≡ deeds.controlled_by (scope_of place.now) who.now) }
{
    match who {
        Who::Named(_, name) => match use_of(place, name.bytes())? {
            None => Ok(None),
            Some(used) => Ok(Some(Controlled::Named(used))),
        },
        Who::Myself(_) => Ok(Some(Controlled::Myself)),
    }
}

/// The variable that gets a handle, where one is written.
fn handle_code(
    place: &Place<'_>,
    handle: &Option<Name>,
) -> Result<Option<Option<NameUse>>, AllocError>
    ensures { IfOk result (λ found. found ≡ deeds.if_written (use_in (scope_of place.now)) handle.now) }
{
    match handle {
        None => Ok(Some(None)),
        Some(name) => match use_of(place, name.bytes())? {
            None => Ok(None),
            Some(used) => Ok(Some(Some(used))),
        },
    }
}

/// Which kind of process a new instance is.
fn spawned_kind(method: bool) -> ProcessKind
    ensures { result ≡ deeds.spawned_kind method }
{
    if method {
        ProcessKind::Method
    } else {
        ProcessKind::Thread
    }
}

/// The code of a new instance of a function; none where a part of it has none.
pub fn spawn_code(
    alloc: Global,
    place: &Place<'_>,
    home: Home<'_>,
    spawn: &Spawn,
) -> Result<Option<SpawnForm>, AllocError>
    requires { spec.IsHome home (scope_of place.now) }
    ensures { IfOk result (λ found. option_map code.spawn_term found ≡ deeds.spawn_term (spec.home_of home.entry) (scope_of place.now) (spawn_of spawn.now)) }
{
    match handle_code(place, &spawn.handle)? {
        None => Ok(None),
        Some(handle) => match function_number(place, home, spawn.function.bytes())? {
            None => Ok(None),
            Some(function) => match terms_code(alloc, place, spawn.arguments.as_slice())? {
                None => Ok(None),
                Some(arguments) => {
                    match statics_code(alloc, place, spawn.sensitive.as_slice())? {
                        None => Ok(None),
                        Some(sensitive) => Ok(Some(SpawnForm {
                            handle,
                            kind: spawned_kind(spawn.method),
                            function,
                            arguments,
                            sensitive,
                            dont_initialize: spawn.dont_initialize,
                        })),
                    }
                }
            },
        },
    }
}
