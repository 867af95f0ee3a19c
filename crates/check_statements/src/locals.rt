ghost use Rattle.std.specs.Prelude.{◌≡◌, IfOk};
ghost use Rattle.check_actions.specs.ModelRules.Scopes.{is_known, with_local, with_parameters};
ghost use Rattle.check_statements.specs.Doubled as spec;
ghost use Rattle.check_statements.specs.Doubled.{place_at};
ghost use Rattle.check_statements.specs.Walks.{Walks};

use check_actions::check_expressions_api::Finding;
use check_actions::check_names_api::{Locals, ModuleNames};
use model_tree::{Kind, Parameter, VarType};
use std::alloc::AllocError;

/// Whether a name is visible: as a local, or in the module.
fn is_known(names: &ModuleNames<'_>, locals: &Locals<'_>, name: &[u8]) -> bool
    ensures { result ≡ is_known (place_at names.now locals.now) name.now }
{
    match locals.find(name) {
        Some(_) => true,
        None => names.meaning(name).is_some(),
    }
}

/// Declares a parameter or a local variable; its name is a double one where it is visible already.
pub(crate) fn declare<'t>(
    names: &ModuleNames<'t>,
    locals: &mut Locals<'t>,
    line: u32,
    name: &'t [u8],
    var_type: VarType,
) -> Result<Option<Finding<'t>>, AllocError>
    ensures { IfOk result (λ found. Walks (spec.double_local line name.now (place_at names.now locals.old)) (with_local (place_at names.now locals.old) name.now var_type) (place_at names.now locals.new) found) }
{
    if is_known(names, locals, name) {
        return Ok(Some(Finding {
            kind: Kind::DoubleName,
            line,
            name,
        }));
    }
    locals.declare(name, var_type)?;
    Ok(None)
}

/// Declares the parameters of a function, up to a double name.
pub(crate) fn in_parameters<'t>(
    names: &ModuleNames<'t>,
    locals: &mut Locals<'t>,
    parameters: &'t [Parameter],
) -> Result<Option<Finding<'t>>, AllocError>
    ensures { IfOk result (λ found. Walks (spec.in_parameters parameters.now (place_at names.now locals.old)) (with_parameters (place_at names.now locals.old) parameters.now) (place_at names.now locals.new) found) }
{
    for parameter in parameters {
        let name = parameter.name.bytes();
        if let Some(finding) = declare(names, locals, parameter.line, name, parameter.var_type)? {
            return Ok(Some(finding));
        }
    }
    Ok(None)
}
