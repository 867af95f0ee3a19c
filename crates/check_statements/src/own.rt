ghost use Rattle.std.specs.Prelude.{◌≡◌, None, Some, option_map};
ghost use Rattle.std.specs.Option.{option_or};
ghost use Rattle.model_tree.specs.Tree as tree;
ghost use Rattle.model_tree.specs.Views.{expression_of, operation_of, target_of};
ghost use Rattle.check_actions.specs.ModelRules.Operators as operators;
ghost use Rattle.check_actions.specs.ModelRules.Passes.{constructs, fault_of};
ghost use Rattle.check_actions.specs.ModelRules.Sites as sites;
ghost use Rattle.check_actions.specs.ModelRules.Values as values;
ghost use Rattle.check_actions.specs.CheckNames.Places.{scope_of};
ghost use Rattle.check_actions.specs.CheckExpressions.Findings.{faults_of};
ghost use Rattle.check_actions.specs.ModelRules.Names as names;
ghost use Rattle.check_actions.specs.ModelRules.declared.needs.Need.TheVariants as need_of;
ghost use Rattle.check_actions.specs.Uses as uses;
ghost use Rattle.check_statements.specs.Own as spec;

use super::targets::{destination, goes_nowhere, target_type};
use super::types::variable_type_finding;
use check_actions::check_expressions_api::{
    Finding, MemberUse, first_finding, is_bool, is_integer, judge, member_finding, told_if,
    type_seen,
};
use check_actions::check_names_api::{Place, variable_type};
use check_actions::model_rules_api::{ExpressionType, Need};
use check_actions::{
    Used, misfits, operate_finding, option_finding, option_type, result_differs, site_finding,
    type_of,
};
use model_tree::{Expression, Kind, Name, Operation, Target, VarType};

/// The first broken rule at a local variable: itself, its type and its first value.
pub fn var_finding<'a>(
    place: &Place<'a>,
    line: u32,
    var_type: VarType,
    name: &'a Name,
    value: &'a Option<Expression>,
) -> Option<Finding<'a>>
    ensures { faults_of result ≡ fault_of constructs (sites.statement_sites (tree.var line var_type name.now (option_map expression_of value.now)) (scope_of place.now)) }
{
    let differs = misfits(variable_type(var_type), option_type(place, value));
    let own = told_if(differs, Kind::TypeDiffers, line, place.around);
    let parts = first_finding(
        variable_type_finding(place, var_type),
        option_finding(place, value),
    );
    first_finding(own, parts)
}

/// Whether a type that is known is no integer.
fn is_no_integer(e: Option<ExpressionType>) -> bool
    ensures { result ≡ values.fails operators.is_integer e }
{
    match e {
        None => false,
        Some(e) => !is_integer(e),
    }
}

/// Whether the types of an assignment differ.
fn assigned_differs(place: &Place<'_>, target: &Target, value: &Expression) -> bool
    ensures { result ≡ values.statement_differs (scope_of place.now) (tree.assign 1 (target_of target.now) (expression_of value.now)) }
{
    is_no_integer(option_type(place, &target.index))
        || misfits(target_type(place, target), type_of(place, value))
}

/// What the name of a target has to be, by what follows it.
fn need_of_target(target: &Target) -> Need
    ensures { result ≡ names.target_need target.now.member (option_map expression_of target.now.index) }
{
    match (&target.member, &target.index) {
        (Some(_), _) => Need::Object,
        (None, None) => Need::Variable,
        (None, Some(_)) => Need::Memory,
    }
}

/// An assignment to a name, or to an element of it: itself.
fn assign_name<'a>(
    place: &Place<'a>,
    line: u32,
    target: &'a Target,
    differs: bool,
) -> Option<Finding<'a>>
    requires bare { target.now.member ≡ None }
    ensures { faults_of result ≡ spec.assign_fault (scope_of place.now) line (target_of target.now) differs }
{
    let need = need_of_target(target);
    let uses = [Used {
        name: target.name.bytes(),
        need,
    }];
    site_finding(place, line, &uses, differs, None)
}

/// An assignment to a member: itself.
fn assign_member<'a>(
    place: &Place<'a>,
    line: u32,
    target: &'a Target,
    member: &'a Name,
    differs: bool,
) -> Option<Finding<'a>>
    requires member { target.now.member ≡ Some member.now }
    ensures { faults_of result ≡ spec.assign_fault (scope_of place.now) line (target_of target.now) differs }
{
    let name = target.name.bytes();
    let meaning = place.meaning(name);
    let nowhere = goes_nowhere(destination(place, target));
    let unknown = told_if(!place.is_known(name), Kind::UnknownName, line, name);
    let wrong = member_finding(
        MemberUse::Assigned(nowhere),
        line,
        name,
        member.bytes(),
        meaning,
    );
    let types = told_if(differs, Kind::TypeDiffers, line, place.around);
    first_finding(unknown, first_finding(wrong, types))
}

/// An assignment: itself.
fn assign_own<'a>(
    place: &Place<'a>,
    line: u32,
    target: &'a Target,
    differs: bool,
) -> Option<Finding<'a>>
    ensures { faults_of result ≡ spec.assign_fault (scope_of place.now) line (target_of target.now) differs }
{
    match &target.member {
        None => assign_name(place, line, target, differs),
        Some(member) => assign_member(place, line, target, member, differs),
    }
}

/// An assignment: itself, the index of its target and its value.
pub fn assign_finding<'a>(
    place: &Place<'a>,
    line: u32,
    target: &'a Target,
    value: &'a Expression,
) -> Option<Finding<'a>>
    ensures { faults_of result ≡ fault_of constructs (sites.statement_sites (tree.assign line (target_of target.now) (expression_of value.now)) (scope_of place.now)) }
{
    let differs = assigned_differs(place, target, value);
    let own = assign_own(place, line, target, differs);
    let parts = first_finding(
        option_finding(place, &target.index),
        judge(place, Need::Readable, value).finding,
    );
    first_finding(own, parts)
}

/// The variable in front of an operation.
fn result_own<'a>(
    place: &Place<'a>,
    line: u32,
    name: &'a Option<Name>,
    differs: bool,
) -> Option<Finding<'a>>
    ensures { faults_of result ≡ uses.site_fault (scope_of place.now) line (names.optional name.now need_of.Variable) differs None }
{
    match name {
        None => site_finding(place, line, &[], differs, None),
        Some(name) => {
            let uses = [Used {
                name: name.bytes(),
                need: Need::Variable,
            }];
            site_finding(place, line, &uses, differs, None)
        }
    }
}

/// An operation: the variable that gets its value, and the operation at its own line.
pub fn result_finding<'a>(
    place: &Place<'a>,
    line: u32,
    name: &'a Option<Name>,
    at: u32,
    operation: &'a Operation,
) -> Option<Finding<'a>>
    ensures { faults_of result ≡ fault_of constructs (sites.statement_sites (tree.operate line name.now at (operation_of operation.now)) (scope_of place.now)) }
{
    let differs = result_differs(place, name, operation);
    let own = result_own(place, line, name, differs);
    first_finding(own, operate_finding(place, at, operation))
}

/// Whether a type that is known is no truth value.
fn is_no_truth(e: Option<ExpressionType>) -> bool
    ensures { result ≡ values.fails operators.is_bool e }
{
    match e {
        None => false,
        Some(e) => !is_bool(e),
    }
}

/// The condition of a statement that begins at this line: that it is a truth value, and its parts.
pub fn condition_finding<'a>(
    place: &Place<'a>,
    line: u32,
    condition: &'a Expression,
) -> Option<Finding<'a>>
    ensures { faults_of result ≡ option_or (spec.condition_fault (scope_of place.now) line (expression_of condition.now)) (fault_of constructs (sites.expression_sites (scope_of place.now) (expression_of condition.now))) }
{
    let judged = judge(place, Need::Readable, condition);
    let differs = is_no_truth(type_seen(judged.seen));
    let own = told_if(differs, Kind::TypeDiffers, line, place.around);
    first_finding(own, judged.finding)
}
