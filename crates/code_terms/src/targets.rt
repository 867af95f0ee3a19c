ghost use Rattle.std.specs.Prelude.{◌≡◌, IfOk, option_map};
ghost use Rattle.model_tree.specs.Views.{expression_of, target_of};
ghost use Rattle.flat_design.specs.Code as code;
ghost use Rattle.code_rules.specs.Deeds as deeds;
ghost use Rattle.code_rules.specs.Numbered.{assign_code as assign_in};
ghost use Rattle.code_rules.specs.ModelRules.declared.meanings.Destination.TheVariants as to;
ghost use Rattle.code_rules.specs.ModelRules.Targets as targets;
ghost use Rattle.check_expressions.specs.CheckNames.Places.{scope_of};
ghost use Rattle.code_terms.specs.Statements as spec;

use super::deeds::Deed;
use super::stores::store;
use crate::{declared_place, term_code, use_of};
use check_expressions::check_names_api::{Place, row_of, value_member};
use code_rules::model_rules_api::{Destination, Meaning, Row, ValueMember};
use flat_design::{Destination as Form, Expr, Member, PayloadBytes, Statement};
use model_tree::{Expression, Name, Target};
use std::alloc::{AllocError, Global};

/// What a name is that is assigned as a whole.
fn to_variable(meaning: Option<Meaning>) -> Destination
    ensures { result ≡ targets.to_variable meaning }
{
    match meaning {
        Some(Meaning::Variable(t)) => Destination::Variable(t),
        _ => Destination::Nowhere,
    }
}

/// What a name is of which an element is assigned.
fn to_element(meaning: Option<Meaning>) -> Destination
    ensures { result ≡ targets.to_element meaning }
{
    match meaning {
        Some(Meaning::Memory) => Destination::Element,
        _ => Destination::Nowhere,
    }
}

/// The member of a payload that a name is.
fn member_assigned(meaning: Option<Meaning>, name: &[u8]) -> Option<ValueMember>
    ensures { result ≡ targets.member_assigned name.now meaning }
{
    match meaning {
        None => None,
        Some(meaning) => match row_of(meaning) {
            Some(Row::Payloads) => value_member(Row::Payloads, name),
            _ => None,
        },
    }
}

/// What a member is that is assigned.
fn to_field(member: Option<ValueMember>) -> Destination
    ensures { result ≡ targets.to_field member }
{
    match member {
        Some(ValueMember::One(Member::Field(field))) => Destination::Field(field),
        _ => Destination::Nowhere,
    }
}

/// What a member is of which a byte is assigned.
fn to_byte(member: Option<ValueMember>) -> Destination
    ensures { result ≡ targets.to_byte member }
{
    match member {
        Some(ValueMember::Many(bytes)) => Destination::Byte(bytes),
        _ => Destination::Nowhere,
    }
}

/// What gets an assigned value.
fn destination(
    meaning: Option<Meaning>,
    member: &Option<Name>,
    index: &Option<Expression>,
) -> Destination
    ensures { result ≡ targets.destination meaning member.now (option_map expression_of index.now) }
{
    match member {
        None => match index {
            None => to_variable(meaning),
            Some(_) => to_element(meaning),
        },
        Some(name) => {
            let member = member_assigned(meaning, name.bytes());
            match index {
                None => to_field(member),
                Some(_) => to_byte(member),
            }
        }
    }
}

/// The code of a variable as a target.
fn name_form(place: &Place<'_>, name: &[u8]) -> Result<Option<Form>, AllocError>
    ensures { IfOk result (λ found. option_map code.destination_term found ≡ option_map code.to_name (deeds.store (scope_of place.now) name.now)) }
{
    match store(place, name)? {
        None => Ok(None),
        Some(store) => Ok(Some(Form::Name(store))),
    }
}

/// The code of an index, where one is written.
fn index_code(
    alloc: Global,
    place: &Place<'_>,
    index: &Option<Expression>,
) -> Result<Option<Expr>, AllocError>
    ensures { IfOk result (λ found. option_map code.term_of found ≡ spec.index_term (scope_of place.now) (option_map expression_of index.now)) }
{
    match index {
        None => Ok(None),
        Some(index) => term_code(alloc, place, index),
    }
}

/// The code of a byte of a payload as a target.
fn byte_form(
    alloc: Global,
    place: &Place<'_>,
    target: &Target,
    bytes: PayloadBytes,
) -> Result<Option<Form>, AllocError>
    ensures { IfOk result (λ found. option_map code.destination_term found ≡ deeds.destination_term (scope_of place.now) (target_of target.now) (to.Byte bytes)) }
{
    match use_of(place, target.name.bytes())? {
        None => Ok(None),
        Some(name) => match index_code(alloc, place, &target.index)? {
            None => Ok(None),
            Some(index) => Ok(Some(Form::PayloadByte(name, bytes, index))),
        },
    }
}

/// The code of an element of a memory as a target.
fn element_form(
    alloc: Global,
    place: &Place<'_>,
    target: &Target,
) -> Result<Option<Form>, AllocError>
    ensures { IfOk result (λ found. option_map code.destination_term found ≡ deeds.destination_term (scope_of place.now) (target_of target.now) to.Element) }
{
    match declared_place(place, target.name.bytes())? {
        None => Ok(None),
        Some(name) => match index_code(alloc, place, &target.index)? {
            None => Ok(None),
            Some(index) => Ok(Some(Form::Element(name, index))),
        },
    }
}

/// The code of what gets an assigned value.
fn destination_form(
    alloc: Global,
    place: &Place<'_>,
    target: &Target,
    kind: Destination,
) -> Result<Option<Form>, AllocError>
    ensures { IfOk result (λ found. option_map code.destination_term found ≡ deeds.destination_term (scope_of place.now) (target_of target.now) kind) }
{
    match kind {
        Destination::Nowhere => Ok(None),
        Destination::Variable(_) => name_form(place, target.name.bytes()),
        Destination::Field(field) => match use_of(place, target.name.bytes())? {
            None => Ok(None),
            Some(name) => Ok(Some(Form::Field(name, field))),
        },
        Destination::Byte(bytes) => byte_form(alloc, place, target, bytes),
        Destination::Element => element_form(alloc, place, target),
    }
}

/// The code of an assignment; none where its target or its value has none.
pub fn assign_code(
    alloc: Global,
    place: &Place<'_>,
    target: &Target,
    value: &Expression,
) -> Result<Option<Deed>, AllocError>
    ensures { IfOk result (λ found. option_map spec.statements_of found ≡ assign_in (scope_of place.now) (target_of target.now) (expression_of value.now)) }
{
    let kind = destination(
        place.meaning(target.name.bytes()),
        &target.member,
        &target.index,
    );
    match destination_form(alloc, place, target, kind)? {
        None => Ok(None),
        Some(form) => match term_code(alloc, place, value)? {
            None => Ok(None),
            Some(value) => Ok(Some(Deed::One(Statement::Assign(form, value)))),
        },
    }
}
