ghost use Rattle.std.specs.Prelude.{◌≡◌, ◌∷◌};
ghost use Rattle.model_tree.specs.Tree as tree;
ghost use Rattle.model_tree.specs.Views.{action_of, operation_of};
ghost use Rattle.check_expressions.specs.ModelRules.Passes.{constructs, fault_of};
ghost use Rattle.check_expressions.specs.ModelRules.Sites as sites;
ghost use Rattle.check_expressions.specs.CheckNames.Places.{scope_of};
ghost use Rattle.check_expressions.specs.Findings.{faults_of};

use super::actions::action_finding;
use super::operations::operation_finding;
use check_expressions::Finding;
use check_expressions::check_names_api::Place;
use model_tree::{Action, Operation};

/// The first broken rule at a statement that gives no value, which begins at this line, and in its parts.
pub fn act_finding<'a>(place: &Place<'a>, line: u32, action: &'a Action) -> Option<Finding<'a>>
    ensures { faults_of result ≡ fault_of constructs (sites.statement_sites (tree.act line (action_of action.now)) (scope_of place.now)) }
{
    action_finding(place, line, action)
}

/// The first broken rule at an operation, whose word stands at this line, and in its parts.
pub fn operate_finding<'a>(
    place: &Place<'a>,
    line: u32,
    operation: &'a Operation,
) -> Option<Finding<'a>>
    ensures { faults_of result ≡ fault_of constructs (sites.site (scope_of place.now) line (sites.of_operation (operation_of operation.now)) ∷ sites.operation_parts (scope_of place.now) (operation_of operation.now)) }
{
    operation_finding(place, line, operation)
}
