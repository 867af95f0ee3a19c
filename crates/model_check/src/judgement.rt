ghost use Rattle.std.specs.Prelude.{◌≡◌, IfErr, IfOk, None, OnOk, Some};
ghost use Rattle.model_tree.specs.WholeTree.{model_of};
ghost use Rattle.model_tree.specs.Stops.{IfRefused};
ghost use Rattle.code_rules.specs.ModelRules.Passes.{first_fault};
ghost use Rattle.check_reach.specs.CheckExpressions.Findings.{fault_seen, faults_of};

use check_items::check_statements_api::double_finding;
use check_items::construct_finding;
use check_reach::check_expressions_api::Finding;
use check_reach::check_names_api::ModelNames;
use check_reach::reach_finding;
use code_rules::logic_values_api::Text;
use model_tree::{CheckStop, Fault, Tree};
use std::alloc::{AllocError, Global};

/// The first broken rule of a tree, whose modules have these names: of the first pass that has one.
fn first_finding<'a, 't: 'a>(
    alloc: Global,
    names: &'a ModelNames<'t>,
    tree: &'t Tree,
) -> Result<Option<Finding<'a>>, AllocError>
    requires { names.now ≡ tree.now.modules.items }
    ensures { IfOk result (λ found. faults_of found ≡ first_fault (model_of tree.now)) }
{
    if let Some(finding) = double_finding(alloc, tree)? {
        return Ok(Some(finding));
    }
    if let Some(finding) = construct_finding(alloc, names, tree)? {
        return Ok(Some(finding));
    }
    reach_finding(alloc, tree)
}

/// The finding as a refusal, with its name in memory of its own.
fn refused(alloc: Global, finding: Finding<'_>) -> CheckStop
    ensures { IfRefused result (λ fault. fault ≡ fault_seen finding.entry) }
{
    match Vec::from_slice(alloc, finding.name) {
        Ok(bytes) => CheckStop::Refused(Fault {
            kind: finding.kind,
            line: finding.line,
            name: Text::from_vec(bytes),
        }),
        Err(_) => CheckStop::NoMemory,
    }
}

/// Judges a tree by all rules on its modules.
///
/// Refused has the first broken rule: that of the first pass that has one (double names; the rules on single constructs; the
/// rules on what is reached), there at the first construct in text order, and there the lowest kind. Time grows with the
/// text. Out of memory is also answered for more locals in one body than 32 bits count.
pub fn judge_rules(alloc: Global, tree: &Tree) -> Result<(), CheckStop>
    ensures accepted { OnOk result (first_fault (model_of tree.now) ≡ None) }
    ensures refused { IfErr result (λ stop. IfRefused stop (λ fault. first_fault (model_of tree.now) ≡ Some fault)) }
{
    let names = match ModelNames::new(alloc, tree.modules.as_slice()) {
        Ok(names) => names,
        Err(_) => return Err(CheckStop::NoMemory),
    };
    match first_finding(alloc, &names, tree) {
        Ok(None) => Ok(()),
        Ok(Some(finding)) => Err(refused(alloc, finding)),
        Err(_) => Err(CheckStop::NoMemory),
    }
}
