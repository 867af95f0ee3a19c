ghost use Rattle.std.specs.Prelude.{◌≡◌, option_map, option_and_then};
ghost use Rattle.std.specs.Option.{option_or};
ghost use Rattle.model_tree.specs.Tree as tree;
ghost use Rattle.model_tree.specs.Views.{channel_of, expression_of, expressions_of, operation_of};
ghost use Rattle.model_tree.specs.declared.faults.Kind.TheVariants as kind;
ghost use Rattle.check_expressions.specs.ModelRules.Operators as operators;
ghost use Rattle.check_expressions.specs.ModelRules.Targets as targets;
ghost use Rattle.check_expressions.specs.ModelRules.Items as items;
ghost use Rattle.check_expressions.specs.ModelRules.declared.needs.Need.TheVariants as need_of;
ghost use Rattle.check_expressions.specs.ModelRules.Passes.{constructs, fault_of};
ghost use Rattle.check_expressions.specs.ModelRules.Sites as sites;
ghost use Rattle.check_expressions.specs.ModelRules.Values as values;
ghost use Rattle.check_expressions.specs.CheckNames.Places.{scope_of};
ghost use Rattle.check_expressions.specs.Findings.{faults_of, told};
ghost use Rattle.check_actions.specs.Uses as spec;

use super::calls::{
    answer_of, arguments_differ, arguments_finding, count_differs, has_no_answer, inouts_wrong,
    parameters_of,
};
use super::stores::{misfits, put, taken, types_differ, variable_named};
use super::uses::{Used, site_finding};
use check_expressions::check_names_api::Place;
use check_expressions::model_rules_api::{ExpressionType, Meaning, Need};
use check_expressions::{
    Finding, first_finding, judge, judge_channel, seen_as, told_if, type_seen,
};
use flat_design::ValueType;
use model_tree::{Channel, Expression, Kind, Name, Operation};

/// Whether a name stands for a socket that hands calls on.
fn is_pass(meaning: Option<Meaning>) -> bool
    ensures { result ≡ items.is_pass meaning }
{
    match meaning {
        Some(Meaning::Initiator(pass) | Meaning::Target(pass)) => pass,
        _ => false,
    }
}

/// The finding of a socket that hands calls on, in a transport call.
pub(crate) fn pass_finding<'a>(
    place: &Place<'a>,
    line: u32,
    socket: &'a [u8],
) -> Option<Finding<'a>>
    ensures { faults_of result ≡ told kind.BadBinding line (items.pass_in (scope_of place.now) socket.now) }
{
    told_if(
        is_pass(place.meaning(socket)),
        Kind::BadBinding,
        line,
        socket,
    )
}

/// A call of a function: itself.
fn call_finding<'a>(
    place: &Place<'a>,
    line: u32,
    name: &'a Name,
    arguments: &'a [Expression],
) -> Option<Finding<'a>>
    ensures { faults_of result ≡ spec.operation_fault (scope_of place.now) line (tree.call name.now (expressions_of arguments.now)) }
{
    let name = name.bytes();
    let function = place.function(name);
    let parameters = parameters_of(function);
    let miscounted = count_differs(function, arguments)
        || inouts_wrong(place, parameters, arguments);
    let extra = told_if(miscounted, Kind::ArgumentCount, line, name);
    let differs = arguments_differ(place, parameters, arguments);
    let uses = [Used {
        name,
        need: Need::Function,
    }];
    site_finding(place, line, &uses, differs, extra)
}

/// The type of what is taken from a channel, as a value of an expression.
fn taken_seen(channel: Option<Meaning>) -> Option<ExpressionType>
    ensures { result ≡ option_map operators.seen_as (option_and_then targets.taken_type channel) }
{
    match taken(channel) {
        None => None,
        Some(t) => Some(seen_as(t)),
    }
}

/// A read that does not block: itself and its channel.
fn nb_read_finding<'a>(
    place: &Place<'a>,
    line: u32,
    channel: &'a Channel,
    name: &'a [u8],
) -> Option<Finding<'a>>
    ensures { faults_of result ≡ option_or (spec.operation_fault (scope_of place.now) line (tree.nb_read (channel_of channel.now) name.now)) (fault_of constructs (sites.channel_sites (scope_of place.now) need_of.Taken (channel_of channel.now))) }
{
    let of = judge_channel(place, Need::Taken, channel);
    let differs = misfits(variable_named(place, name), taken_seen(of.meaning));
    let uses = [Used {
        name,
        need: Need::Variable,
    }];
    let own = site_finding(place, line, &uses, differs, None);
    first_finding(own, of.finding)
}

/// A write that does not block: itself, its channel and its value.
#[tactic(auto, using(crate::proofs::Parts::parts))]
fn nb_write_finding<'a>(
    place: &Place<'a>,
    line: u32,
    channel: &'a Channel,
    value: &'a Expression,
) -> Option<Finding<'a>>
    ensures { faults_of result ≡ option_or (spec.operation_fault (scope_of place.now) line (tree.nb_write (channel_of channel.now) (expression_of value.now))) (fault_of constructs (sites.operation_parts (scope_of place.now) (tree.nb_write (channel_of channel.now) (expression_of value.now)))) }
{
    let of = judge_channel(place, Need::Put, channel);
    let value = judge(place, Need::Readable, value);
    let differs = misfits(put(of.meaning), type_seen(value.seen));
    let own = site_finding(place, line, &[], differs, None);
    first_finding(own, first_finding(of.finding, value.finding))
}

/// A transport call that does not block.
fn nb_transport_finding<'a>(
    place: &Place<'a>,
    line: u32,
    socket: &'a [u8],
    payload: &'a [u8],
    phase: &'a [u8],
    delay: &'a [u8],
) -> Option<Finding<'a>>
    ensures { faults_of result ≡ spec.operation_fault (scope_of place.now) line (tree.nb_transport socket.now payload.now phase.now delay.now) }
{
    let uses = [
        Used {
            name: socket,
            need: Need::Socket,
        },
        Used {
            name: payload,
            need: Need::Variable,
        },
        Used {
            name: phase,
            need: Need::Variable,
        },
        Used {
            name: delay,
            need: Need::Variable,
        },
    ];
    let differs = types_differ(Some(ValueType::Payload), variable_named(place, payload))
        || types_differ(Some(ValueType::Int(32)), variable_named(place, phase))
        || types_differ(Some(ValueType::Time), variable_named(place, delay));
    site_finding(
        place,
        line,
        &uses,
        differs,
        pass_finding(place, line, socket),
    )
}

/// The first broken rule at an operation and in its parts.
pub fn operation_finding<'a>(
    place: &Place<'a>,
    line: u32,
    operation: &'a Operation,
) -> Option<Finding<'a>>
    ensures { faults_of result ≡ option_or (spec.operation_fault (scope_of place.now) line (operation_of operation.now)) (fault_of constructs (sites.operation_parts (scope_of place.now) (operation_of operation.now))) }
{
    match operation {
        Operation::Call(name, arguments) => first_finding(
            call_finding(place, line, name, arguments.as_slice()),
            arguments_finding(place, arguments.as_slice()),
        ),
        Operation::Read(channel) => judge_channel(place, Need::Taken, channel).finding,
        Operation::NbRead(channel, name) => { nb_read_finding(place, line, channel, name.bytes()) }
        Operation::NbWrite(channel, value) => nb_write_finding(place, line, channel, value),
        Operation::Trylock(channel) | Operation::Unlock(channel) => {
            judge_channel(place, Need::Mutex, channel).finding
        }
        Operation::SemTrywait(channel) => { judge_channel(place, Need::Semaphore, channel).finding }
        Operation::NbTransport(socket, payload, phase, delay) => nb_transport_finding(
            place,
            line,
            socket.bytes(),
            payload.bytes(),
            phase.bytes(),
            delay.bytes(),
        ),
    }
}

/// The type of the value that an operation gives; none where that is not known.
fn result_type(place: &Place<'_>, operation: &Operation) -> Option<ExpressionType>
    ensures { result ≡ targets.result_type (scope_of place.now) (operation_of operation.now) }
{
    match operation {
        Operation::Call(name, _) => match answer_of(place.function(name.bytes())) {
            None => None,
            Some(t) => Some(seen_as(t)),
        },
        Operation::Read(channel) => {
            taken_seen(judge_channel(place, Need::Taken, channel).meaning)
        }
        Operation::NbRead(_, _) | Operation::NbWrite(_, _) => Some(ExpressionType::Bool),
        Operation::Trylock(_)
        | Operation::Unlock(_)
        | Operation::SemTrywait(_)
        | Operation::NbTransport(_, _, _, _) => Some(ExpressionType::Signed),
    }
}

/// Whether an operation is a call of a function without an answer.
fn gives_nothing(place: &Place<'_>, operation: &Operation) -> bool
    ensures { result ≡ targets.gives_nothing (scope_of place.now) (operation_of operation.now) }
{
    match operation {
        Operation::Call(name, _) => has_no_answer(place.function(name.bytes())),
        _ => false,
    }
}

/// Whether the variable in front of an operation does not take what it gives.
pub fn result_differs(place: &Place<'_>, name: &Option<Name>, operation: &Operation) -> bool
    ensures { result ≡ values.result_differs (scope_of place.now) name.now (operation_of operation.now) }
{
    match name {
        None => false,
        Some(name) => {
            gives_nothing(place, operation)
                || misfits(
                    variable_named(place, name.bytes()),
                    result_type(place, operation),
                )
        }
    }
}
