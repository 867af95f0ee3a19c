ghost use Rattle.std.specs.Prelude.{◌≡◌, OnOk, codes};
ghost use Rattle.model_print.specs.Layout.{put, put_all};
ghost use Rattle.model_print.specs.Pieces as piece;
ghost use Rattle.model_print.specs.Leaves as leaf;

use crate::Page;
use model_tree::sim_time_api::Unit;
use model_tree::{
    BoundRule, Constant, ConstantForm, End, Interface, Name, Parameter, PortSize, Symbol, TypeForm,
    VarType, Who, Word, unit_name,
};
use std::alloc::AllocError;

/// Writes a word where it is written.
pub fn flag(page: &mut Page, word: Word, is_written: bool) -> Result<(), AllocError>
    ensures { OnOk result (page.new ≡ put_all page.old (piece.flag word is_written)) }
{
    if is_written {
        page.word(word)?;
    }
    Ok(())
}

/// Writes a type of signals.
pub fn type_form(page: &mut Page, form: TypeForm) -> Result<(), AllocError>
    ensures { OnOk result (page.new ≡ put page.old (leaf.type_form form)) }
{
    match form {
        TypeForm::Bool => page.type_word(Word::Bool),
        TypeForm::Logic => page.type_word(Word::Logic),
        TypeForm::Int(width) => page.wide(Word::Int, width),
        TypeForm::Uint(width) => page.wide(Word::Uint, width),
        TypeForm::Vector(width) => page.wide(Word::Lv, width),
    }
}

/// Writes a type of variables.
pub fn var_type(page: &mut Page, var_type: VarType) -> Result<(), AllocError>
    ensures { OnOk result (page.new ≡ put page.old (leaf.var_type var_type)) }
{
    match var_type {
        VarType::Plain(plain) => type_form(page, plain.form),
        VarType::Time => page.type_word(Word::Time),
        VarType::Process => page.type_word(Word::Process),
        VarType::Payload => page.type_word(Word::Payload),
    }
}

/// Writes a number and its unit.
pub fn time(page: &mut Page, count: u64, unit: Unit) -> Result<(), AllocError>
    ensures { OnOk result (page.new ≡ put_all page.old (leaf.time count unit)) }
{
    page.number(count)?;
    page.unit(unit_name(unit).as_bytes())
}

/// Writes `true` or `false`.
pub fn truth(page: &mut Page, value: bool) -> Result<(), AllocError>
    ensures { OnOk result (page.new ≡ put page.old (leaf.truth value)) }
{
    if value {
        page.word(Word::True)
    } else {
        page.word(Word::False)
    }
}

/// Writes a constant of an item.
pub fn constant_form(page: &mut Page, form: ConstantForm) -> Result<(), AllocError>
    ensures { OnOk result (page.new ≡ put_all page.old (leaf.constant_form form)) }
{
    match form {
        ConstantForm::Number(number) => page.number(number),
        ConstantForm::Negative(number) => {
            page.prefix(Symbol::Minus)?;
            page.number(number)
        }
        ConstantForm::Time(count, unit) => time(page, count, unit),
        ConstantForm::Logic(value) => page.logic(value),
        ConstantForm::Truth(value) => truth(page, value),
    }
}

/// Writes a first value where there is one.
pub fn first_value(page: &mut Page, value: Option<Constant>) -> Result<(), AllocError>
    ensures { OnOk result (page.new ≡ put_all page.old (leaf.first_value value)) }
{
    match value {
        None => Ok(()),
        Some(constant) => {
            page.operator(Symbol::Equal)?;
            constant_form(page, constant.form)
        }
    }
}

/// Writes the process of a control call.
pub fn who(page: &mut Page, who: &Who) -> Result<(), AllocError>
    ensures { OnOk result (page.new ≡ put page.old (leaf.who who.now)) }
{
    match who {
        Who::Named(_, name) => page.name(name),
        Who::Myself(_) => page.word(Word::SelfProcess),
    }
}

/// Writes a member behind a dot where one is written.
pub fn member(page: &mut Page, member: &Option<Name>) -> Result<(), AllocError>
    ensures { OnOk result (page.new ≡ put_all page.old (leaf.member member.now)) }
{
    match member {
        None => Ok(()),
        Some(name) => {
            page.joint(Symbol::Dot)?;
            page.name(name)
        }
    }
}

/// Writes what a port or an export leads to.
pub fn interface(page: &mut Page, interface: Interface) -> Result<(), AllocError>
    ensures { OnOk result (page.new ≡ put_all page.old (leaf.interface interface)) }
{
    match interface {
        Interface::In(of) => {
            page.word(Word::In)?;
            type_form(page, of.form)
        }
        Interface::Out(of) => {
            page.word(Word::Out)?;
            type_form(page, of.form)
        }
        Interface::FifoIn(of) => {
            page.word(Word::FifoIn)?;
            type_form(page, of.form)
        }
        Interface::FifoOut(of) => {
            page.word(Word::FifoOut)?;
            type_form(page, of.form)
        }
        Interface::Mutex => page.word(Word::MutexPort),
        Interface::Semaphore => page.word(Word::SemaphorePort),
    }
}

fn bound_rule(page: &mut Page, rule: BoundRule) -> Result<(), AllocError>
    ensures { OnOk result (page.new ≡ put_all page.old (leaf.bound_rule rule)) }
{
    match rule {
        BoundRule::One => Ok(()),
        BoundRule::Zero => page.word(Word::Zero),
        BoundRule::All => page.word(Word::AllBound),
    }
}

/// Writes the size of a port where one is written.
pub fn port_size(page: &mut Page, size: Option<PortSize>) -> Result<(), AllocError>
    ensures { OnOk result (page.new ≡ put_all page.old (piece.maybe leaf.port_size size)) }
{
    match size {
        None => Ok(()),
        Some(size) => {
            page.opening(Symbol::LeftBracket)?;
            page.number(size.count)?;
            bound_rule(page, size.rule)?;
            page.closing(Symbol::RightBracket)
        }
    }
}

/// Writes a parameter.
pub fn parameter(page: &mut Page, parameter: &Parameter) -> Result<(), AllocError>
    ensures { OnOk result (page.new ≡ put_all page.old (leaf.parameter parameter.now)) }
{
    flag(page, Word::Inout, parameter.inout)?;
    var_type(page, parameter.var_type)?;
    page.name(&parameter.name)
}

/// Writes one end of a binding.
pub fn binding_end(page: &mut Page, end: &End) -> Result<(), AllocError>
    ensures { OnOk result (page.new ≡ put_all page.old (leaf.binding_end end.now)) }
{
    page.name(&end.name)?;
    member(page, &end.member)
}
