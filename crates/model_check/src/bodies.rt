ghost use Rattle.std.specs.Prelude.{◌≡◌, Some, IfOk, OnOk, length, position};
ghost use Rattle.model_tree.specs.Views.{function_of, modules_of, process_of};
ghost use Rattle.flat_design.specs.Reach.{Inside};
ghost use Rattle.code_rules.specs.Bodies as bodies;
ghost use Rattle.code_rules.specs.Bodies.{IsBody};
ghost use Rattle.code_blocks.specs.LawsCode.HasCode.{BodyHasCode, IsThere};
ghost use Rattle.code_blocks.specs.CodeTerms.Names.{body_names};
ghost use Rattle.code_blocks.specs.CodeDeeds.Homes.{home_of};
ghost use Rattle.code_rules.specs.ModelRules.Meanings.{declarations};
ghost use Rattle.code_rules.specs.ModelRules.Scopes.{is_declared, item_scope, with_parameters};
ghost use Rattle.check_reach.specs.CheckNames.ModuleNames.{items_of};
ghost use Rattle.check_reach.specs.CheckNames.Places.{scope_of};
ghost use Rattle.code_blocks.specs.Laid.{EachFrom, FromNowOn, Grows, IsNested, OnlyFrom};
ghost use Rattle.model_check.specs.Parts.{answering};

use super::clocks::clock_block;
use super::locals::{answer_code, locals_code, text_of};
use check_reach::check_names_api::{Locals, ModelNames, ModuleNames, Place};
use code_blocks::code_deeds_api::Home;
use code_blocks::code_terms_api::{body_sources, function_sources};
use code_blocks::{Laid, lay_block};
use code_rules::logic_values_api::Items;
use flat_design::{BodyKind, CodeBody};
use model_tree::{ClockItem, FunctionItem, Parameter, ProcessItem, ProcessKind, VarType};
use std::alloc::{AllocError, Global};

/// A number in 32 bits. A greater one is answered as out of memory.
pub(crate) fn in_32_bits(number: usize) -> Result<u32, AllocError>
    ensures { IfOk result (λ n. n ≡ number) }
{
    match u32::try_from(number) {
        Ok(number) => Ok(number),
        Err(_) => Err(AllocError),
    }
}

/// The place of the statements of a body without parameters.
fn body_place<'a>(
    alloc: Global,
    model: &'a ModelNames<'a>,
    names: &'a ModuleNames<'a>,
    around: &'a [u8],
    answer: Option<VarType>,
) -> Place<'a>
    ensures { scope_of result ≡ answering answer (item_scope (modules_of model.now) (items_of names.now) around.now) }
{
    Place {
        model,
        names,
        locals: Locals::new(alloc),
        around,
        answer,
        unwinding: false,
    }
}

/// Declares parameters, in order.
fn declare_parameters<'a>(
    parameters: &'a [Parameter],
    place: &mut Place<'a>,
) -> Result<(), AllocError>
    ensures { OnOk result (scope_of place.new ≡ with_parameters (scope_of place.old) parameters.now) }
{
    for parameter in parameters {
        place.declare(parameter.name.bytes(), parameter.var_type)?;
    }
    Ok(())
}

/// The kind of the body of a process.
fn process_kind(kind: ProcessKind) -> BodyKind
    ensures { result ≡ bodies.process_kind kind }
{
    match kind {
        ProcessKind::Thread => BodyKind::Thread,
        ProcessKind::Method => BodyKind::Method,
    }
}

/// The body of a function of the module at this place.
pub(crate) fn function_body<'a>(
    alloc: Global,
    model: &'a ModelNames<'a>,
    names: &'a ModuleNames<'a>,
    module_place: u32,
    home: Home<'_>,
    function: &'a FunctionItem,
    laid: &mut Laid,
) -> Result<CodeBody, AllocError>
    requires home { home.bodies.now ≡ body_names (items_of names.now) }
    requires coded { BodyHasCode (home_of home) (item_scope (modules_of model.now) (items_of names.now) function.now.name) (bodies.of_function (function_of function.now)) }
    requires nested { IsNested laid.old }
    ensures grows { OnOk result (Grows laid.old laid.new) }
    ensures nested { OnOk result (IsNested laid.new) }
    ensures owned { IfOk result (λ b. EachFrom (length laid.old.blocks) laid.new (λ a n. Inside a b.block n)) }
    ensures only { IfOk result (λ b. OnlyFrom (length laid.old.blocks) laid.new (λ a n. Inside a b.block n)) }
    ensures reads { IfOk result (λ b. FromNowOn laid.new (λ a. IsBody module_place (home_of home.entry) a (item_scope (modules_of model.now) (items_of names.now) function.now.name) (bodies.of_function (function_of function.now)) b)) }
{
    let mut place = body_place(alloc, model, names, function.name.bytes(), function.answer);
    declare_parameters(function.parameters.as_slice(), &mut place)?;
    let sources = function_sources(alloc, function)?;
    let locals = locals_code(alloc, sources.as_slice())?;
    let parameters = in_32_bits(function.parameters.len())?;
    let block = lay_block(&function.body, alloc, home, &mut place, laid)?;
    Ok(CodeBody {
        kind: BodyKind::Function,
        module_place,
        name: text_of(alloc, function.name.bytes())?,
        locals,
        parameters,
        answer: answer_code(function.answer),
        block,
        room: 0,
    })
}

/// The body of a process of the module at this place.
pub(crate) fn process_body<'a>(
    alloc: Global,
    model: &'a ModelNames<'a>,
    names: &'a ModuleNames<'a>,
    module_place: u32,
    home: Home<'_>,
    process: &'a ProcessItem,
    laid: &mut Laid,
) -> Result<CodeBody, AllocError>
    requires home { home.bodies.now ≡ body_names (items_of names.now) }
    requires coded { BodyHasCode (home_of home) (item_scope (modules_of model.now) (items_of names.now) process.now.name) (bodies.of_process (process_of process.now)) }
    requires nested { IsNested laid.old }
    ensures grows { OnOk result (Grows laid.old laid.new) }
    ensures nested { OnOk result (IsNested laid.new) }
    ensures owned { IfOk result (λ b. EachFrom (length laid.old.blocks) laid.new (λ a n. Inside a b.block n)) }
    ensures only { IfOk result (λ b. OnlyFrom (length laid.old.blocks) laid.new (λ a n. Inside a b.block n)) }
    ensures reads { IfOk result (λ b. FromNowOn laid.new (λ a. IsBody module_place (home_of home.entry) a (item_scope (modules_of model.now) (items_of names.now) process.now.name) (bodies.of_process (process_of process.now)) b)) }
{
    let mut place = body_place(alloc, model, names, process.name.bytes(), None);
    let sources = body_sources(alloc, &process.body)?;
    let locals = locals_code(alloc, sources.as_slice())?;
    let block = lay_block(&process.body, alloc, home, &mut place, laid)?;
    Ok(CodeBody {
        kind: process_kind(process.kind),
        module_place,
        name: text_of(alloc, process.name.bytes())?,
        locals,
        parameters: 0,
        answer: None,
        block,
        room: 0,
    })
}

/// The place of a clock's signal among the names that its module declares.
fn clock_channel(names: &ModuleNames<'_>, clock: &ClockItem) -> Result<u32, AllocError>
    requires { IsThere (position (is_declared clock.now.name) (declarations (items_of names.now))) }
    ensures { IfOk result (λ n. position (is_declared clock.now.name) (declarations (items_of names.now)) ≡ Some n) }
{
    match names.place(clock.name.bytes()) {
        None => unreachable!(),
        Some(place) => in_32_bits(place),
    }
}

/// The body of the thread of a clock of the module at this place.
pub(crate) fn clock_body<'a>(
    alloc: Global,
    model: &'a ModelNames<'a>,
    names: &'a ModuleNames<'a>,
    module_place: u32,
    home: Home<'_>,
    clock: &'a ClockItem,
    laid: &mut Laid,
) -> Result<CodeBody, AllocError>
    requires coded { BodyHasCode (home_of home) (item_scope (modules_of model.now) (items_of names.now) clock.now.name) (bodies.of_clock clock.now) }
    requires nested { IsNested laid.old }
    ensures grows { OnOk result (Grows laid.old laid.new) }
    ensures nested { OnOk result (IsNested laid.new) }
    ensures owned { IfOk result (λ b. EachFrom (length laid.old.blocks) laid.new (λ a n. Inside a b.block n)) }
    ensures only { IfOk result (λ b. OnlyFrom (length laid.old.blocks) laid.new (λ a n. Inside a b.block n)) }
    ensures reads { IfOk result (λ b. FromNowOn laid.new (λ a. IsBody module_place (home_of home.entry) a (item_scope (modules_of model.now) (items_of names.now) clock.now.name) (bodies.of_clock clock.now) b)) }
{
    let channel = clock_channel(names, clock)?;
    let block = clock_block(alloc, channel, clock, laid)?;
    Ok(CodeBody {
        kind: BodyKind::Clock,
        module_place,
        name: text_of(alloc, clock.name.bytes())?,
        locals: Items::new(alloc),
        parameters: 0,
        answer: None,
        block,
        room: 0,
    })
}
