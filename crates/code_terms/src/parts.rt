ghost use Rattle.std.specs.Prelude.{◌≡◌, option_map};
ghost use Rattle.flat_design.specs.Code.{term_of};
ghost use Rattle.code_rules.specs.Terms as terms;
ghost use Rattle.code_rules.specs.ModelRules.Types as types;
ghost use Rattle.code_terms.specs.Parts as spec;

use check_expressions::{type_seen, value_if};
use code_rules::model_rules_api::{ExpressionType, Meaning, Seen};
use flat_design::{Expr, NameUse, PayloadBytes};

/// What an expression is made into.
#[derive(Drop)]
pub(crate) enum Made {
    /// Nothing: it has no code.
    Nothing,
    /// An object, or a port's channel at a place.
    Object(NameUse, Option<Box<Expr>>, Meaning),
    /// The bytes of a payload.
    Bytes(NameUse, PayloadBytes),
    /// A value.
    Value(Expr),
}

/// What an expression stands for, and what it is made into.
#[derive(Drop)]
pub(crate) struct Coded {
    /// What it stands for.
    pub seen: Seen,
    /// What it is made into.
    pub made: Made,
}

/// The code of a value, with its type.
#[derive(Drop)]
pub(crate) struct TypedTerm {
    /// The type.
    pub expression_type: ExpressionType,
    /// The code.
    pub term: Expr,
}

/// A value of this type and code.
pub(crate) fn value_part(e: ExpressionType, term: Expr) -> Coded
    ensures { spec.part_of result ≡ spec.value_part e (term_of term) }
{
    Coded {
        seen: Seen::Value(e),
        made: Made::Value(term),
    }
}

/// A value, where its code is known.
pub(crate) fn made_if(term: Option<Expr>) -> Made
    ensures { spec.made_seen result ≡ terms.value_if (option_map term_of term) }
{
    match term {
        None => Made::Nothing,
        Some(term) => Made::Value(term),
    }
}

/// What is made where there is a type.
pub(crate) fn made_if_typed(e: Option<ExpressionType>, term: Option<Expr>) -> Made
    ensures { spec.made_seen result ≡ terms.if_typed e (option_map term_of term) }
{
    match e {
        None => Made::Nothing,
        Some(_) => made_if(term),
    }
}

/// A value of a type that is known, of its code where there is some.
pub(crate) fn given_part(e: Option<ExpressionType>, term: Option<Expr>) -> Coded
    ensures { spec.part_of result ≡ spec.given_part e (option_map term_of term) }
{
    let seen = value_if(e);
    Coded {
        seen,
        made: made_if_typed(type_seen(seen), term),
    }
}

/// The code of what is read by a name, where it is a value.
pub(crate) fn name_term(name: NameUse, place: Option<Box<Expr>>, meaning: Meaning) -> Option<Expr>
    ensures { option_map term_of result ≡ terms.name_term name (spec.boxed_term place) (types.value_of meaning) }
{
    if type_seen(Seen::Object(meaning)).is_none() {
        return None;
    }
    match place {
        None => Some(Expr::Name(name)),
        Some(place) => match name {
            NameUse::Local(_) => None,
            NameUse::Declared(name) => Some(Expr::Placed(name, place)),
        },
    }
}

/// The code of what is made, where that is a value.
pub(crate) fn term_made(made: Made) -> Option<Expr>
    ensures { option_map term_of result ≡ terms.term_made (spec.made_seen made) }
{
    match made {
        Made::Nothing | Made::Bytes(_, _) => None,
        Made::Object(name, place, meaning) => name_term(name, place, meaning),
        Made::Value(term) => Some(term),
    }
}

/// The code of a part, with its type, where it has both.
pub(crate) fn typed(part: Coded) -> Option<TypedTerm>
    ensures { option_map spec.typed_seen result ≡ spec.typed_part (spec.part_of part) }
{
    match type_seen(part.seen) {
        None => None,
        Some(expression_type) => match term_made(part.made) {
            None => None,
            Some(term) => Some(TypedTerm {
                expression_type,
                term,
            }),
        },
    }
}
