ghost use Rattle.std.specs.Prelude.{◌≡◌, option_map, option_and_then};
ghost use Rattle.std.specs.Option.{option_copied};
ghost use Rattle.model_tree.specs.Views.{expression_of, expressions_of, function_of};
ghost use Rattle.check_expressions.specs.ModelRules.Targets as targets;
ghost use Rattle.check_expressions.specs.ModelRules.Calls as calls;
ghost use Rattle.check_expressions.specs.ModelRules.Passes.{constructs, fault_of};
ghost use Rattle.check_expressions.specs.ModelRules.Sites as sites;
ghost use Rattle.check_expressions.specs.ModelRules.Values as values;
ghost use Rattle.check_expressions.specs.CheckNames.Places.{scope_of};
ghost use Rattle.check_expressions.specs.Findings.{faults_of};

use super::events::type_of;
use super::stores::{misfits, types_differ};
use check_expressions::check_names_api::{Place, variable_type};
use check_expressions::model_rules_api::{Meaning, Need};
use check_expressions::{Finding, judge};
use flat_design::ValueType;
use model_tree::{Expression, FunctionItem, Parameter};

/// The parameters of a function, where it is known.
pub fn parameters_of(function: Option<&FunctionItem>) -> &[Parameter]
    ensures { result.now ≡ values.parameters_of (option_map function_of (option_copied function.entry)) }
{
    match function {
        None => &[],
        Some(function) => function.parameters.as_slice(),
    }
}

/// Whether an argument that is passed by value does not go into its parameter.
fn argument_differs(place: &Place<'_>, parameter: &Parameter, argument: &Expression) -> bool
    ensures { result ≡ values.argument_differs (scope_of place.now) parameter.now.inout parameter.now (expression_of argument.now) }
{
    !parameter.inout && misfits(variable_type(parameter.var_type), type_of(place, argument))
}

/// Whether one of the arguments does not go into its parameter.
pub fn arguments_differ(
    place: &Place<'_>,
    parameters: &[Parameter],
    arguments: &[Expression],
) -> bool
    ensures { result ≡ values.arguments_differ (scope_of place.now) parameters.now (expressions_of arguments.now) }
{
    match parameters {
        [] => false,
        [parameter, parameters @ ..] => match arguments {
            [] => false,
            [argument, arguments @ ..] => {
                argument_differs(place, parameter, argument)
                    || arguments_differ(place, parameters, arguments)
            }
        },
    }
}

/// Whether a name stands for something that is no variable of this type.
fn is_other_variable(value_type: Option<ValueType>, meaning: Option<Meaning>) -> bool
    ensures { result ≡ calls.is_other_variable value_type meaning }
{
    match meaning {
        None => false,
        Some(Meaning::Variable(t)) => types_differ(value_type, t),
        Some(_) => true,
    }
}

/// Whether an argument of an inout parameter is no variable of exactly its type.
fn inout_wrong(place: &Place<'_>, parameter: &Parameter, argument: &Expression) -> bool
    ensures { result ≡ calls.inout_wrong (scope_of place.now) parameter.now.inout parameter.now (expression_of argument.now) }
{
    if !parameter.inout {
        return false;
    }
    match argument {
        Expression::Named(_, name) => is_other_variable(
            variable_type(parameter.var_type),
            place.meaning(name.bytes()),
        ),
        _ => true,
    }
}

/// Whether an argument of an inout parameter is wrong.
pub fn inouts_wrong(place: &Place<'_>, parameters: &[Parameter], arguments: &[Expression]) -> bool
    ensures { result ≡ calls.inouts_wrong (scope_of place.now) parameters.now (expressions_of arguments.now) }
{
    match parameters {
        [] => false,
        [parameter, parameters @ ..] => match arguments {
            [] => false,
            [argument, arguments @ ..] => {
                inout_wrong(place, parameter, argument)
                    || inouts_wrong(place, parameters, arguments)
            }
        },
    }
}

/// Whether a function that is known has another number of parameters.
pub fn count_differs(function: Option<&FunctionItem>, arguments: &[Expression]) -> bool
    ensures { result ≡ calls.count_differs (option_map function_of (option_copied function.entry)) (expressions_of arguments.now) }
{
    match function {
        None => false,
        Some(function) => function.parameters.len() != arguments.len(),
    }
}

/// Whether one of the parameters is inout.
pub fn has_inout(parameters: &[Parameter]) -> bool
    ensures { result ≡ calls.has_inout parameters.now }
{
    parameters.iter().any(|parameter| parameter.inout)
}

/// The first broken rule in an argument.
fn argument_finding<'a>(place: &Place<'a>, argument: &'a Expression) -> Option<Finding<'a>>
    ensures { faults_of result ≡ fault_of constructs (sites.expression_sites (scope_of place.now) (expression_of argument.now)) }
{
    judge(place, Need::Readable, argument).finding
}

/// The first broken rule in arguments.
pub fn arguments_finding<'a>(place: &Place<'a>, arguments: &'a [Expression]) -> Option<Finding<'a>>
    ensures { faults_of result ≡ fault_of constructs (sites.argument_sites (scope_of place.now) (expressions_of arguments.now)) }
{
    for argument in arguments {
        if let Some(finding) = argument_finding(place, argument) {
            return Some(finding);
        }
    }
    None
}

/// The type of a function's answer, where it is known and has one.
pub fn answer_of(function: Option<&FunctionItem>) -> Option<ValueType>
    ensures { result ≡ option_and_then targets.answer_of (option_map function_of (option_copied function.entry)) }
{
    match function {
        None => None,
        Some(function) => match function.answer {
            None => None,
            Some(answer) => variable_type(answer),
        },
    }
}

/// Whether a function is known and has no answer.
pub fn has_no_answer(function: Option<&FunctionItem>) -> bool
    ensures { result ≡ targets.has_no_answer (option_map function_of (option_copied function.entry)) }
{
    match function {
        None => false,
        Some(function) => function.answer.is_none(),
    }
}
