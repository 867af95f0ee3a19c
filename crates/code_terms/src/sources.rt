ghost use Rattle.std.specs.Prelude.{◌≡◌, ◌++◌, ◌∷◌, [], IfOk, OnOk};
ghost use Rattle.model_tree.specs.Views.{body_of, function_of, statement_of};
ghost use Rattle.code_rules.specs.Bodies as bodies;
ghost use Rattle.code_terms.specs.Sources as spec;

use model_tree::{FunctionItem, Parameter, Statement, VarType};
use std::alloc::{AllocError, Global};

/// A parameter or a local variable as it is declared.
#[derive(Clone, Copy)]
pub struct Source<'a> {
    /// Its name.
    pub name: &'a [u8],
    /// Its type.
    pub var_type: VarType,
    /// Whether it is an inout parameter.
    pub inout: bool,
}

/// Adds the local variables of a statement, in text order.
#[cycle(variables)]
fn add_statement<'a>(
    statement: &'a Statement,
    sources: &mut Vec<Source<'a>>,
) -> Result<(), AllocError>
    ensures { OnOk result (spec.sources_of sources.new.items ≡ spec.sources_of sources.old.items ++ bodies.variables_in (statement_of statement.now)) }
{
    match statement {
        Statement::Var(_, var_type, name, _) => {
            sources.push(Source {
                name: name.bytes(),
                var_type: *var_type,
                inout: false,
            })?;
            Ok(())
        }
        Statement::Assign(_, _, _) | Statement::Operate(_, _, _, _) | Statement::Act(_, _) => {
            Ok(())
        }
        Statement::If(_, _, body, other) => {
            add_block(body, sources)?;
            match other {
                None => Ok(()),
                Some(other) => add_block(other, sources),
            }
        }
        Statement::While(_, _, body) => add_block(body, sources),
        Statement::Guard(_, body, undo) => {
            add_block(body, sources)?;
            add_block(undo, sources)
        }
        Statement::Try(_, body, handlers) => {
            add_block(body, sources)?;
            for (_, body) in handlers {
                add_block(body, sources)?;
            }
            Ok(())
        }
    }
}

/// Adds the local variables of the statements of a block, in text order.
#[cycle(variables)]
fn add_block<'a>(body: &'a Vec<Statement>, sources: &mut Vec<Source<'a>>) -> Result<(), AllocError>
    ensures { OnOk result (spec.sources_of sources.new.items ≡ spec.sources_of sources.old.items ++ bodies.variables_in_block (body_of body.now.items)) }
{
    for statement in body {
        add_statement(statement, sources)?;
    }
    Ok(())
}

/// Adds parameters, in order.
fn add_parameters<'a>(
    parameters: &'a [Parameter],
    sources: &mut Vec<Source<'a>>,
) -> Result<(), AllocError>
    ensures { OnOk result (spec.sources_of sources.new.items ≡ spec.sources_of sources.old.items ++ bodies.parameter_sources parameters.now) }
{
    for parameter in parameters {
        sources.push(Source {
            name: parameter.name.bytes(),
            var_type: parameter.var_type,
            inout: parameter.inout,
        })?;
    }
    Ok(())
}

/// The local variables of a body without parameters, in text order.
pub fn body_sources<'a>(
    alloc: Global,
    body: &'a Vec<Statement>,
) -> Result<Vec<Source<'a>>, AllocError>
    ensures { IfOk result (λ sources. spec.sources_of sources.items ≡ bodies.variables_in_block (body_of body.now.items)) }
{
    let mut sources = Vec::new(alloc);
    add_block(body, &mut sources)?;
    Ok(sources)
}

/// The parameters of a function in order, and then its local variables in text order.
pub fn function_sources<'a>(
    alloc: Global,
    function: &'a FunctionItem,
) -> Result<Vec<Source<'a>>, AllocError>
    ensures { IfOk result (λ sources. spec.sources_of sources.items ≡ bodies.source_locals (bodies.of_function (function_of function.now))) }
{
    let mut sources = Vec::new(alloc);
    add_parameters(function.parameters.as_slice(), &mut sources)?;
    add_block(&function.body, &mut sources)?;
    Ok(sources)
}
