ghost use Rattle.std.specs.Prelude.{◌≡◌, Some, IfOk};
ghost use Rattle.code_rules.specs.ModelRules.Meanings.{variable_type as type_in};
ghost use Rattle.code_blocks.specs.CodeTerms.Sources.{sources_of};
ghost use Rattle.code_rules.specs.Bodies.{AreLocals, IsAnswer};
ghost use Rattle.code_blocks.specs.LawsCode.HasCode.{AnswerHasType, IsThere, LocalsHaveTypes};

use check_reach::check_names_api::variable_type;
use code_blocks::code_terms_api::Source;
use code_rules::logic_values_api::{Items, Text};
use flat_design::{Local, ValueType};
use model_tree::VarType;
use std::alloc::{AllocError, Global};

/// The text of a name.
pub(crate) fn text_of(alloc: Global, name: &[u8]) -> Result<Text, AllocError>
    ensures { IfOk result (λ text. text ≡ name.now) }
{
    Ok(Text::from_vec(Vec::from_slice(alloc, name)?))
}

/// The type of values of a variable whose type is in range.
fn known_type(t: VarType) -> ValueType
    requires { IsThere (type_in t) }
    ensures { type_in t ≡ Some result }
{
    match variable_type(t) {
        None => unreachable!(),
        Some(value_type) => value_type,
    }
}

/// The local variables of a body, with their types.
pub(crate) fn locals_code(alloc: Global, sources: &[Source<'_>]) -> Result<Items<Local>, AllocError>
    requires { LocalsHaveTypes (sources_of sources.now) }
    ensures { IfOk result (λ locals. AreLocals (sources_of sources.now) locals) }
{
    let mut done = Items::new(alloc);
    for source in sources {
        let value_type = known_type(source.var_type);
        let name = text_of(alloc, source.name)?;
        done.push(Local {
            name,
            value_type,
            inout: source.inout,
        })?;
    }
    Ok(done)
}

/// The type of a function's answer, where it has one.
pub(crate) fn answer_code(answer: Option<VarType>) -> Option<ValueType>
    requires { AnswerHasType answer }
    ensures { IsAnswer answer result }
{
    match answer {
        None => None,
        Some(answer) => Some(known_type(answer)),
    }
}
