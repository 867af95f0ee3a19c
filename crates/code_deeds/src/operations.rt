ghost use Rattle.std.specs.Prelude.{◌≡◌, IfOk, option_map};
ghost use Rattle.model_tree.specs.Tree as tree;
ghost use Rattle.model_tree.specs.Views.{channel_of, expression_of, expressions_of, operation_of};
ghost use Rattle.flat_design.specs.Code as code;
ghost use Rattle.code_terms.specs.CodeRules.Deeds as deeds;
ghost use Rattle.code_terms.specs.CodeRules.Numbered.{operate_code as operate_in};
ghost use Rattle.code_terms.specs.CodeRules.Terms.{term_of as value_of};
ghost use Rattle.code_terms.specs.ModelRules.Scopes.{place_of as place_in, use_of as use_in};
ghost use Rattle.code_terms.specs.ModelRules.Targets.{put_into as put_in};
ghost use Rattle.code_terms.specs.CheckNames.Places.{scope_of};
ghost use Rattle.code_terms.specs.Statements.{statements_of};
ghost use Rattle.code_deeds.specs.Homes as spec;

use crate::{Home, call_arguments, function_number, put_into};
use code_terms::check_names_api::Place;
use code_terms::{Deed, channel_code, declared_place, optional_store, store, term_code, use_of};
use flat_design::{Statement, Store};
use model_tree::{Channel, Expression, Name, Operation};
use std::alloc::{AllocError, Global};

/// The code of a call.
fn call_code(
    alloc: Global,
    place: &Place<'_>,
    home: Home<'_>,
    result_to: Option<Store>,
    name: &Name,
    arguments: &[Expression],
) -> Result<Option<Statement>, AllocError>
    requires { spec.IsHome home (scope_of place.now) }
    ensures { IfOk result (λ found. option_map code.statement_of found ≡ deeds.operation_code (spec.home_of home.entry) (scope_of place.now) result_to (tree.call name.now (expressions_of arguments.now))) }
{
    match function_number(place, home, name.bytes())? {
        None => Ok(None),
        Some(function) => match call_arguments(alloc, place, name.bytes(), arguments)? {
            None => Ok(None),
            Some(arguments) => Ok(Some(Statement::Call(result_to, function, arguments))),
        },
    }
}

/// The code of a read of a fifo that does not block.
fn nb_read_code(
    alloc: Global,
    place: &Place<'_>,
    result_to: Option<Store>,
    channel: &Channel,
    name: &Name,
) -> Result<Option<Statement>, AllocError>
    ensures { IfOk result (λ found. option_map code.statement_of found ≡ deeds.with_two (code.nb_read result_to) (deeds.channel_term (scope_of place.now) (channel_of channel.now)) (deeds.store (scope_of place.now) name.now)) }
{
    match channel_code(alloc, place, channel)? {
        None => Ok(None),
        Some(channel) => match store(place, name.bytes())? {
            None => Ok(None),
            Some(store) => Ok(Some(Statement::NbRead(result_to, channel, store))),
        },
    }
}

/// The code of a write of a fifo that does not block.
fn nb_write_code(
    alloc: Global,
    place: &Place<'_>,
    result_to: Option<Store>,
    channel: &Channel,
    value: &Expression,
) -> Result<Option<Statement>, AllocError>
    ensures { IfOk result (λ found. option_map code.statement_of found ≡ deeds.with_three (code.nb_write result_to) (deeds.channel_term (scope_of place.now) (channel_of channel.now)) (put_in (scope_of place.now) (channel_of channel.now)) (value_of (scope_of place.now) (expression_of value.now))) }
{
    match channel_code(alloc, place, channel)? {
        None => Ok(None),
        Some(written) => match put_into(place, channel) {
            None => Ok(None),
            Some(value_type) => match term_code(alloc, place, value)? {
                None => Ok(None),
                Some(value) => Ok(Some(Statement::NbWrite(result_to, written, value_type, value))),
            },
        },
    }
}

/// The code of a non-blocking transport call.
fn nb_transport_code(
    place: &Place<'_>,
    result_to: Option<Store>,
    socket: &Name,
    payload: &Name,
    phase: &Name,
    delay: &Name,
) -> Result<Option<Statement>, AllocError>
    ensures { IfOk result (λ found. option_map code.statement_of found ≡ deeds.with_four (code.nb_transport result_to) (place_in (scope_of place.now) socket.now) (use_in (scope_of place.now) payload.now) (use_in (scope_of place.now) phase.now) (use_in (scope_of place.now) delay.now)) }
{
    match declared_place(place, socket.bytes())? {
        None => Ok(None),
        Some(socket) => match use_of(place, payload.bytes())? {
            None => Ok(None),
            Some(payload) => match use_of(place, phase.bytes())? {
                None => Ok(None),
                Some(phase) => match use_of(place, delay.bytes())? {
                    None => Ok(None),
                    Some(delay) => Ok(Some(Statement::NbTransport(
                        result_to, socket, payload, phase, delay,
                    ))),
                },
            },
        },
    }
}

/// The code of an operation whose value goes to this variable; none where a part of it has none.
fn operation_code(
    alloc: Global,
    place: &Place<'_>,
    home: Home<'_>,
    result_to: Option<Store>,
    operation: &Operation,
) -> Result<Option<Statement>, AllocError>
    requires { spec.IsHome home (scope_of place.now) }
    ensures { IfOk result (λ found. option_map code.statement_of found ≡ deeds.operation_code (spec.home_of home.entry) (scope_of place.now) result_to (operation_of operation.now)) }
{
    match operation {
        Operation::Call(name, arguments) => {
            call_code(alloc, place, home, result_to, name, arguments.as_slice())
        }
        Operation::Read(channel) => match channel_code(alloc, place, channel)? {
            None => Ok(None),
            Some(channel) => Ok(Some(Statement::Read(result_to, channel))),
        },
        Operation::NbRead(channel, name) => nb_read_code(alloc, place, result_to, channel, name),
        Operation::NbWrite(channel, value) => {
            nb_write_code(alloc, place, result_to, channel, value)
        }
        Operation::Trylock(channel) => match channel_code(alloc, place, channel)? {
            None => Ok(None),
            Some(channel) => Ok(Some(Statement::Trylock(result_to, channel))),
        },
        Operation::Unlock(channel) => match channel_code(alloc, place, channel)? {
            None => Ok(None),
            Some(channel) => Ok(Some(Statement::Unlock(result_to, channel))),
        },
        Operation::SemTrywait(channel) => match channel_code(alloc, place, channel)? {
            None => Ok(None),
            Some(channel) => Ok(Some(Statement::SemTrywait(result_to, channel))),
        },
        Operation::NbTransport(socket, payload, phase, delay) => {
            nb_transport_code(place, result_to, socket, payload, phase, delay)
        }
    }
}

/// The code of an operation, and of the variable that its value goes to where one is written; none where a part of it has
/// none.
pub fn operate_code(
    alloc: Global,
    place: &Place<'_>,
    home: Home<'_>,
    name: &Option<Name>,
    operation: &Operation,
) -> Result<Option<Deed>, AllocError>
    requires { spec.IsHome home (scope_of place.now) }
    ensures { IfOk result (λ found. option_map statements_of found ≡ operate_in (spec.home_of home.entry) (scope_of place.now) (deeds.if_written (deeds.store (scope_of place.now)) name.now) (operation_of operation.now)) }
{
    match optional_store(place, name)? {
        None => Ok(None),
        Some(result_to) => match operation_code(alloc, place, home, result_to, operation)? {
            None => Ok(None),
            Some(statement) => Ok(Some(Deed::One(statement))),
        },
    }
}
