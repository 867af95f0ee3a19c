ghost use Rattle.std.specs.Prelude.{◌≡◌, OnOk, map};
ghost use Rattle.model_tree.specs.Views.{function_of, item_of, module_of, modules_of, process_of};
ghost use Rattle.model_print.specs.Layout.{put_all};
ghost use Rattle.model_print.specs.Pieces as piece;
ghost use Rattle.model_print.specs.Leaves as leaf;
ghost use Rattle.model_print.specs.Printed as spec;

use super::leaves::{
    binding_end, constant_form, first_value, flag, interface, parameter, port_size, time,
    type_form, var_type,
};
use super::statements::{block, sensitive, with_name};
use crate::Page;
use model_tree::{
    ClockItem, FunctionItem, Head, InitiatorRole, Item, Module, Name, Parameter, PlainKind,
    ProcessItem, ProcessKind, ResolutionLine, SignalItem, SignalKind, Symbol, TargetRole, Top,
    VarType, Word, plain_word, process_word, signal_word,
};
use std::alloc::AllocError;

/// Writes a signal or a buffer, without its `;`.
fn signal(page: &mut Page, signal: &SignalItem) -> Result<(), AllocError>
    ensures { OnOk result (page.new ≡ put_all page.old (spec.signal signal.now)) }
{
    page.word(signal_word(signal.kind))?;
    flag(page, Word::Many, signal.many)?;
    type_form(page, signal.value_type.form)?;
    page.name(&signal.name)?;
    first_value(page, signal.initial)
}

/// Writes a clock, without its `;`.
fn clock(page: &mut Page, clock: &ClockItem) -> Result<(), AllocError>
    ensures { OnOk result (page.new ≡ put_all page.old (spec.clock clock.now)) }
{
    page.word(Word::Clock)?;
    page.name(&clock.name)?;
    page.word(Word::Period)?;
    time(page, clock.period.count, clock.period.unit)?;
    page.word(Word::High)?;
    time(page, clock.high.count, clock.high.unit)?;
    if let Some(start) = clock.start {
        page.word(Word::Start)?;
        time(page, start.count, start.unit)?;
    }
    Ok(())
}

/// Writes a word and the name of a handler where one is written.
fn own_handler(page: &mut Page, word: Word, handler: &Option<Name>) -> Result<(), AllocError>
    ensures { OnOk result (page.new ≡ put_all page.old (spec.own_handler word handler.now)) }
{
    match handler {
        None => Ok(()),
        Some(handler) => with_name(page, word, handler),
    }
}

/// Writes the handlers of an initiator socket.
fn initiator_role(page: &mut Page, role: &InitiatorRole) -> Result<(), AllocError>
    ensures { OnOk result (page.new ≡ put_all page.old (spec.initiator_role role.now)) }
{
    match role {
        InitiatorRole::Pass => page.word(Word::Pass),
        InitiatorRole::Own(backward) => own_handler(page, Word::Bw, backward),
    }
}

/// Writes the handlers of a target socket.
fn target_role(page: &mut Page, role: &TargetRole) -> Result<(), AllocError>
    ensures { OnOk result (page.new ≡ put_all page.old (spec.target_role role.now)) }
{
    match role {
        TargetRole::Pass => page.word(Word::Pass),
        TargetRole::Own(blocking, forward) => {
            own_handler(page, Word::Bt, blocking)?;
            own_handler(page, Word::Fw, forward)
        }
    }
}

/// Writes the type of a function's answer where it has one.
fn answer(page: &mut Page, answer: Option<VarType>) -> Result<(), AllocError>
    ensures { OnOk result (page.new ≡ put_all page.old (spec.answer answer)) }
{
    match answer {
        None => Ok(()),
        Some(answer) => {
            page.operator(Symbol::Arrow)?;
            var_type(page, answer)
        }
    }
}

/// Writes each parameter behind a comma.
fn more_parameters(page: &mut Page, parameters: &[Parameter]) -> Result<(), AllocError>
    ensures { OnOk result (page.new ≡ put_all page.old (spec.more_parameters parameters.now)) }
{
    for one in parameters {
        page.comma()?;
        parameter(page, one)?;
    }
    Ok(())
}

/// Writes parameters with commas between them.
fn listed(page: &mut Page, parameters: &[Parameter]) -> Result<(), AllocError>
    ensures { OnOk result (page.new ≡ put_all page.old (piece.separated leaf.parameter parameters.now)) }
{
    match parameters {
        [] => Ok(()),
        [first, rest @ ..] => {
            parameter(page, first)?;
            more_parameters(page, rest)
        }
    }
}

/// Writes a function.
fn function(page: &mut Page, function: &FunctionItem) -> Result<(), AllocError>
    ensures { OnOk result (page.new ≡ put_all page.old (spec.function (function_of function.now))) }
{
    page.word(Word::Func)?;
    page.name(&function.name)?;
    page.opening(Symbol::LeftParen)?;
    listed(page, function.parameters.as_slice())?;
    page.closing(Symbol::RightParen)?;
    answer(page, function.answer)?;
    block(page, &function.body)
}

/// Writes a process.
fn process(page: &mut Page, process: &ProcessItem) -> Result<(), AllocError>
    ensures { OnOk result (page.new ≡ put_all page.old (spec.process (process_of process.now))) }
{
    page.word(process_word(process.kind))?;
    page.name(&process.name)?;
    sensitive(page, process.sensitive.as_slice())?;
    flag(page, Word::DontInitialize, process.dont_initialize)?;
    block(page, &process.body)
}

/// Writes the size of a fifo where one is written.
fn fifo_size(page: &mut Page, size: Option<u64>) -> Result<(), AllocError>
    ensures { OnOk result (page.new ≡ put_all page.old (spec.fifo_size size)) }
{
    match size {
        None => Ok(()),
        Some(size) => {
            page.word(Word::Size)?;
            page.number(size)
        }
    }
}

/// Writes an item.
fn item(page: &mut Page, item: &Item) -> Result<(), AllocError>
    ensures { OnOk result (page.new ≡ put_all page.old (spec.item (item_of item.now))) }
{
    match item {
        Item::Signal(_, declared) => signal(page, declared)?,
        Item::Resolved(_, name) => with_name(page, Word::Resolved, name)?,
        Item::Clock(_, declared) => clock(page, declared)?,
        Item::Fifo(_, value_type, name, size) => {
            page.word(Word::Fifo)?;
            type_form(page, value_type.form)?;
            page.name(name)?;
            fifo_size(page, *size)?;
        }
        Item::Plain(_, kind, name) => with_name(page, plain_word(*kind), name)?,
        Item::Semaphore(_, name, value) => {
            with_name(page, Word::Semaphore, name)?;
            constant_form(page, value.form)?;
        }
        Item::Memory(_, name, size) => {
            with_name(page, Word::Memory, name)?;
            page.opening(Symbol::LeftBracket)?;
            page.number(*size)?;
            page.closing(Symbol::RightBracket)?;
        }
        Item::Variable(_, of, name, value) => {
            page.word(Word::Var)?;
            var_type(page, *of)?;
            page.name(name)?;
            first_value(page, *value)?;
        }
        Item::Port(_, of, name, size) => {
            interface(page, *of)?;
            page.name(name)?;
            port_size(page, *size)?;
        }
        Item::Export(_, of, name) => {
            page.word(Word::Export)?;
            interface(page, *of)?;
            page.name(name)?;
        }
        Item::Initiator(_, name, role) => {
            with_name(page, Word::Initiator, name)?;
            initiator_role(page, role)?;
        }
        Item::Target(_, name, role) => {
            with_name(page, Word::Target, name)?;
            target_role(page, role)?;
        }
        Item::Instance(_, module, name) => {
            with_name(page, Word::Inst, module)?;
            page.name(name)?;
        }
        Item::Bind(_, left, right) => {
            page.word(Word::Bind)?;
            binding_end(page, left)?;
            page.word(Word::To)?;
            binding_end(page, right)?;
        }
        Item::Function(_, declared) => return function(page, declared),
        Item::Process(_, declared) => return process(page, declared),
    }
    page.semicolon()
}

/// Writes items, one behind another.
fn items(page: &mut Page, items: &[Item]) -> Result<(), AllocError>
    ensures { OnOk result (page.new ≡ put_all page.old (piece.each spec.item (map item_of items.now))) }
{
    for one in items {
        item(page, one)?;
    }
    Ok(())
}

/// Writes a module.
fn module(page: &mut Page, one: &Module) -> Result<(), AllocError>
    ensures { OnOk result (page.new ≡ put_all page.old (spec.module_ (module_of one.now))) }
{
    with_name(page, Word::Module, &one.name)?;
    page.left_brace()?;
    items(page, one.items.as_slice())?;
    page.right_brace()
}

/// Writes the resolution that a text asks for.
fn resolution(page: &mut Page, resolution: &ResolutionLine) -> Result<(), AllocError>
    ensures { OnOk result (page.new ≡ put_all page.old (spec.resolution resolution.now)) }
{
    page.word(Word::Resolution)?;
    time(page, resolution.span.count, resolution.span.unit)?;
    page.semicolon()
}

/// Writes what a text says of its language.
pub fn first_lines(page: &mut Page, head: &Head) -> Result<(), AllocError>
    ensures { OnOk result (page.new ≡ put_all page.old (spec.first_lines head.now)) }
{
    match head {
        Head::First => Ok(()),
        Head::Second(asked) => {
            page.word(Word::Language)?;
            page.number(2)?;
            page.semicolon()?;
            match asked {
                None => Ok(()),
                Some(line) => resolution(page, line),
            }
        }
    }
}

/// Writes modules, one behind another.
pub fn modules(page: &mut Page, modules: &[Module]) -> Result<(), AllocError>
    ensures { OnOk result (page.new ≡ put_all page.old (piece.each spec.module_ (modules_of modules.now))) }
{
    for one in modules {
        module(page, one)?;
    }
    Ok(())
}

/// Writes the instance at the top.
pub fn top(page: &mut Page, top: &Top) -> Result<(), AllocError>
    ensures { OnOk result (page.new ≡ put_all page.old (spec.top top.now)) }
{
    with_name(page, Word::Top, &top.module)?;
    page.name(&top.name)?;
    page.semicolon()
}
