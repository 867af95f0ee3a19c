ghost use Rattle.std.specs.Prelude.{◌≡◌, ◌∷◌, [], None, Some, not, option_map};
ghost use Rattle.std.specs.Option.{option_copied};
ghost use Rattle.flat_design.specs.Sound as sound;
ghost use Rattle.model_tree.specs.Views.{function_of};
ghost use Rattle.model_tree.specs.declared.faults.Kind.TheVariants as kind;
ghost use Rattle.check_statements.specs.ModelRules.Calls as calls;
ghost use Rattle.check_statements.specs.CheckNames.Places.{scope_of};
ghost use Rattle.check_statements.specs.CheckExpressions.Findings.{faults_of, told};

use check_statements::check_actions_api::types_differ;
use check_statements::check_expressions_api::{Finding, first_finding, told_if};
use check_statements::check_names_api::{Place, variable_type};
use flat_design::ValueType;
use model_tree::{FunctionItem, Kind, Name, Parameter, VarType};

/// Whether one of two is so and the other is not.
fn is_other(one: bool, other: bool) -> bool
    ensures { result ≡ not (calls.same_bool one other) }
{
    if one { !other } else { other }
}

/// Whether a parameter has another type than this, or goes the other way.
fn parameter_differs(wanted: (ValueType, bool), parameter: &Parameter) -> bool
    ensures { result ≡ calls.parameters_differ (wanted ∷ []) (parameter.now ∷ []) }
{
    types_differ(Some(wanted.0), variable_type(parameter.var_type))
        || is_other(wanted.1, parameter.inout)
}

/// Whether parameters have other types than these, or go the other way.
fn parameters_differ(wanted: &[(ValueType, bool)], parameters: &[Parameter]) -> bool
    ensures { result ≡ calls.parameters_differ wanted.now parameters.now }
{
    match wanted {
        [] => !parameters.is_empty(),
        [first, wanted @ ..] => match parameters {
            [] => true,
            [parameter, parameters @ ..] => {
                parameter_differs(*first, parameter) || parameters_differ(wanted, parameters)
            }
        },
    }
}

/// Whether a function's answer has another type than this, or only one of them is there.
fn answer_differs(wanted: Option<ValueType>, answer: Option<VarType>) -> bool
    ensures { result ≡ calls.answer_differs wanted answer }
{
    match (wanted, answer) {
        (None, None) => false,
        (Some(wanted), Some(answer)) => types_differ(Some(wanted), variable_type(answer)),
        _ => true,
    }
}

/// Whether a function that is known is no handler with these parameters and this answer.
fn is_bad_handler(
    parameters: &[(ValueType, bool)],
    answer: Option<ValueType>,
    function: Option<&FunctionItem>,
) -> bool
    ensures { result ≡ calls.is_bad_handler parameters.now answer (option_map function_of (option_copied function.entry)) }
{
    match function {
        None => false,
        Some(function) => {
            parameters_differ(parameters, function.parameters.as_slice())
                || answer_differs(answer, function.answer)
        }
    }
}

/// A handler of blocking calls: a payload and a time that comes back, and no answer.
pub fn blocking_handler<'a>(
    place: &Place<'a>,
    line: u32,
    name: &'a Option<Name>,
) -> Option<Finding<'a>>
    ensures { faults_of result ≡ told kind.BadHandler line (calls.blocking_handler (scope_of place.now) name.now) }
{
    let Some(name) = name else {
        return None;
    };
    let wanted = [(ValueType::Payload, false), (ValueType::Time, true)];
    let is_bad = is_bad_handler(&wanted, None, place.function(name.bytes()));
    told_if(is_bad, Kind::BadHandler, line, name.bytes())
}

/// A handler of calls that do not block: a payload, a phase and a time that come back, and an answer.
pub fn nonblocking_handler<'a>(
    place: &Place<'a>,
    line: u32,
    name: &'a Option<Name>,
) -> Option<Finding<'a>>
    ensures { faults_of result ≡ told kind.BadHandler line (calls.nonblocking_handler (scope_of place.now) name.now) }
{
    let Some(name) = name else {
        return None;
    };
    let wanted = [
        (ValueType::Payload, false),
        (ValueType::Int(32), true),
        (ValueType::Time, true),
    ];
    let answer = Some(ValueType::Int(32));
    let is_bad = is_bad_handler(&wanted, answer, place.function(name.bytes()));
    told_if(is_bad, Kind::BadHandler, line, name.bytes())
}
