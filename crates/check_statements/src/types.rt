ghost use Rattle.std.specs.Prelude.{◌≡◌};
ghost use Rattle.check_actions.specs.ModelRules.Passes.{constructs, fault_of};
ghost use Rattle.check_actions.specs.ModelRules.Sites as sites;
ghost use Rattle.check_actions.specs.ModelRules.Values as values;
ghost use Rattle.check_actions.specs.CheckNames.Places.{scope_of};
ghost use Rattle.check_actions.specs.CheckExpressions.Findings.{faults_of};

use check_actions::check_expressions_api::{Finding, told_if};
use check_actions::check_names_api::{Place, is_width};
use model_tree::{Kind, SignalType, TypeForm, VarType};

/// Whether a type has a width that is none of 1 to 64.
fn is_wide(form: TypeForm) -> bool
    ensures { result ≡ values.is_wide form }
{
    match form {
        TypeForm::Bool | TypeForm::Logic => false,
        TypeForm::Int(width) | TypeForm::Uint(width) | TypeForm::Vector(width) => {
            !is_width(width)
        }
    }
}

/// The first broken rule at a type of signals.
pub fn type_finding<'a>(place: &Place<'a>, t: SignalType) -> Option<Finding<'a>>
    ensures { faults_of result ≡ fault_of constructs (sites.type_site (scope_of place.now) t) }
{
    told_if(is_wide(t.form), Kind::WidthRange, t.line, place.around)
}

/// The first broken rule at a type of variables.
pub fn variable_type_finding<'a>(place: &Place<'a>, t: VarType) -> Option<Finding<'a>>
    ensures { faults_of result ≡ fault_of constructs (sites.variable_type_sites (scope_of place.now) t) }
{
    match t {
        VarType::Plain(t) => type_finding(place, t),
        VarType::Time | VarType::Process | VarType::Payload => None,
    }
}
