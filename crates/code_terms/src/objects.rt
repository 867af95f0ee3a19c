ghost use Rattle.std.specs.Prelude.{◌≡◌, IfOk, Some, option_map, option_and_then};
ghost use Rattle.flat_design.specs.Code as code;
ghost use Rattle.flat_design.specs.Code.{term_of};
ghost use Rattle.code_rules.specs.Terms as terms;
ghost use Rattle.code_rules.specs.ModelRules.Types as types;
ghost use Rattle.check_expressions.specs.CheckNames.Places.{scope_of};
ghost use Rattle.code_terms.specs.Parts as spec;

use super::named_terms::use_of;
use super::operands::evaluated_as;
use super::parts::{Coded, Made, made_if_typed, name_term, term_made};
use super::values::number;
use check_expressions::check_names_api::{Place, row_of, value_member};
use check_expressions::{
    element_seen, is_below, is_integer_type, is_port, member_seen, object_if, places, type_seen,
};
use code_rules::model_rules_api::{ExpressionType, Meaning, ValueMember};
use flat_design::{Expr, NameUse, PayloadBytes};
use std::alloc::{AllocError, Global};

/// An object, where its name and what it stands for are known.
fn object_made(place: Option<Box<Expr>>, name: Option<NameUse>, meaning: Option<Meaning>) -> Made
    ensures { spec.made_seen result ≡ terms.object_if (spec.boxed_term place) name meaning }
{
    match meaning {
        None => Made::Nothing,
        Some(meaning) => match name {
            None => Made::Nothing,
            Some(name) => Made::Object(name, place, meaning),
        },
    }
}

/// A name.
pub(crate) fn named(place: &Place<'_>, name: &[u8]) -> Result<Coded, AllocError>
    ensures { IfOk result (λ part. spec.part_of part ≡ spec.named_part (scope_of place.now) name.now) }
{
    let meaning = place.meaning(name);
    let number = use_of(place, name)?;
    Ok(Coded {
        seen: object_if(meaning),
        made: object_made(None, number, meaning),
    })
}

/// What a name stands for at a place that is written.
fn at_number(n: u64, meaning: Option<Meaning>) -> Option<Meaning>
    ensures { result ≡ option_and_then (types.at_number n) meaning }
{
    match meaning {
        None => None,
        Some(meaning) => {
            if is_below(n, places(meaning)) {
                Some(meaning)
            } else {
                None
            }
        }
    }
}

/// A port's channel at a place that is written.
pub(crate) fn placed(
    alloc: Global,
    place: &Place<'_>,
    name: &[u8],
    n: u64,
) -> Result<Coded, AllocError>
    ensures { IfOk result (λ part. spec.part_of part ≡ spec.placed_part (scope_of place.now) name.now n) }
{
    let meaning = at_number(n, place.meaning(name));
    let use_number = use_of(place, name)?;
    let at = Box::new(alloc, number(n))?;
    Ok(Coded {
        seen: object_if(meaning),
        made: object_made(Some(at), use_number, meaning),
    })
}

/// What a name stands for at a computed place.
fn at_computed(e: Option<ExpressionType>, meaning: Option<Meaning>) -> Option<Meaning>
    ensures { result ≡ option_and_then (types.at_computed e) meaning }
{
    match meaning {
        None => None,
        Some(meaning) => {
            if is_port(meaning) && is_integer_type(e) {
                Some(meaning)
            } else {
                None
            }
        }
    }
}

/// An object at a computed place, where that has code.
fn placed_made(
    alloc: Global,
    at: Option<Expr>,
    name: Option<NameUse>,
    meaning: Option<Meaning>,
) -> Result<Made, AllocError>
    ensures { IfOk result (λ made. spec.made_seen made ≡ terms.placed_made (option_map term_of at) name meaning) }
{
    match at {
        None => Ok(Made::Nothing),
        Some(at) => {
            let at = Box::new(alloc, at)?;
            Ok(object_made(Some(at), name, meaning))
        }
    }
}

/// A port's channel at a computed place.
pub(crate) fn placed_by(
    alloc: Global,
    place: &Place<'_>,
    name: &[u8],
    inner: Coded,
) -> Result<Coded, AllocError>
    ensures { IfOk result (λ part. spec.part_of part ≡ spec.placed_by_part (scope_of place.now) name.now (spec.part_of inner)) }
{
    let meaning = at_computed(type_seen(inner.seen), place.meaning(name));
    let number = use_of(place, name)?;
    let made = placed_made(alloc, term_made(inner.made), number, meaning)?;
    Ok(Coded {
        seen: object_if(meaning),
        made,
    })
}

/// A member of an object, or of a port's channel at a place.
fn placed_member(name: NameUse, place: Option<Box<Expr>>, member: ValueMember) -> Made
    ensures { spec.made_seen result ≡ terms.placed_member name (spec.boxed_term place) member }
{
    match place {
        None => match member {
            ValueMember::One(member) => Made::Value(Expr::Member(name, member)),
            ValueMember::Many(bytes) => Made::Bytes(name, bytes),
        },
        Some(place) => match name {
            NameUse::Local(_) => Made::Nothing,
            NameUse::Declared(name) => match member {
                ValueMember::One(member) => { Made::Value(Expr::PlacedMember(name, place, member)) }
                ValueMember::Many(_) => Made::Nothing,
            },
        },
    }
}

/// The member that a name is of an object, where it is a value or bytes.
fn member_of(meaning: Meaning, name: &[u8]) -> Option<ValueMember>
    ensures { result ≡ spec.member_of meaning name.now }
{
    match row_of(meaning) {
        None => None,
        Some(row) => value_member(row, name),
    }
}

/// A member of what is made.
fn member_made(made: Made, member: &[u8]) -> Made
    ensures { spec.made_seen result ≡ terms.member_made member.now (spec.made_seen made) }
{
    match made {
        Made::Nothing | Made::Bytes(_, _) | Made::Value(_) => Made::Nothing,
        Made::Object(name, place, meaning) => match member_of(meaning, member) {
            None => Made::Nothing,
            Some(member) => placed_member(name, place, member),
        },
    }
}

/// A member.
pub(crate) fn member(inner: Coded, name: &[u8]) -> Coded
    ensures { spec.part_of result ≡ spec.member_part name.now (spec.part_of inner) }
{
    Coded {
        seen: member_seen(inner.seen, name),
        made: member_made(inner.made, name),
    }
}

/// An element of a memory.
fn memory_element(alloc: Global, name: NameUse, index: Expr) -> Result<Option<Expr>, AllocError>
    ensures { IfOk result (λ term. option_map term_of term ≡ terms.memory_element name (term_of index)) }
{
    match name {
        NameUse::Local(_) => Ok(None),
        NameUse::Declared(name) => {
            let index = Box::new(alloc, index)?;
            Ok(Some(Expr::Element(name, index)))
        }
    }
}

/// A byte of a payload.
fn payload_byte(
    alloc: Global,
    name: NameUse,
    bytes: PayloadBytes,
    index: Expr,
) -> Result<Option<Expr>, AllocError>
    ensures { IfOk result (λ term. option_map term_of term ≡ Some (code.payload_byte name bytes (term_of index))) }
{
    let index = Box::new(alloc, index)?;
    Ok(Some(Expr::PayloadByte(name, bytes, index)))
}

/// A digit of a value.
fn digit_term(
    alloc: Global,
    e: Option<ExpressionType>,
    of: Option<Expr>,
    index: Expr,
) -> Result<Option<Expr>, AllocError>
    ensures { IfOk result (λ term. option_map term_of term ≡ terms.digit_term e (option_map term_of of) (term_of index)) }
{
    match e {
        None => Ok(None),
        Some(e) => match of {
            None => Ok(None),
            Some(of) => {
                let of = Box::new(alloc, of)?;
                let index = Box::new(alloc, index)?;
                Ok(Some(Expr::Digit(evaluated_as(e), of, index)))
            }
        },
    }
}

/// An element of an object: of a memory, or a digit of its value.
fn object_element(
    alloc: Global,
    name: NameUse,
    place: Option<Box<Expr>>,
    meaning: Meaning,
    e: Option<ExpressionType>,
    index: Expr,
) -> Result<Option<Expr>, AllocError>
    ensures { IfOk result (λ term. option_map term_of term ≡ terms.object_element name meaning e (terms.name_term name (spec.boxed_term place) (types.value_of meaning)) (term_of index)) }
{
    match meaning {
        Meaning::Memory => memory_element(alloc, name, index),
        other => digit_term(alloc, e, name_term(name, place, other), index),
    }
}

/// An element of what is made, which has this type.
fn element_at(
    alloc: Global,
    made: Made,
    e: Option<ExpressionType>,
    index: Expr,
) -> Result<Option<Expr>, AllocError>
    ensures { IfOk result (λ term. option_map term_of term ≡ terms.element_at (spec.made_seen made) e (term_of index)) }
{
    match made {
        Made::Nothing => Ok(None),
        Made::Object(name, place, meaning) => {
            object_element(alloc, name, place, meaning, e, index)
        }
        Made::Bytes(name, bytes) => payload_byte(alloc, name, bytes, index),
        Made::Value(term) => digit_term(alloc, e, Some(term), index),
    }
}

/// An element, where its index has code.
fn element_if(
    alloc: Global,
    made: Made,
    e: Option<ExpressionType>,
    index: Option<Expr>,
) -> Result<Option<Expr>, AllocError>
    ensures { IfOk result (λ term. option_map term_of term ≡ option_and_then (terms.element_at (spec.made_seen made) e) (option_map term_of index)) }
{
    match index {
        None => Ok(None),
        Some(index) => element_at(alloc, made, e, index),
    }
}

/// A digit or an element.
pub(crate) fn element(alloc: Global, of: Coded, index: Coded) -> Result<Coded, AllocError>
    ensures { IfOk result (λ part. spec.part_of part ≡ spec.element_part (spec.part_of of) (spec.part_of index)) }
{
    let e = type_seen(of.seen);
    let seen = element_seen(of.seen, type_seen(index.seen));
    let term = element_if(alloc, of.made, e, term_made(index.made))?;
    Ok(Coded {
        seen,
        made: made_if_typed(type_seen(seen), term),
    })
}
