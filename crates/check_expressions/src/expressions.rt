ghost use Rattle.std.specs.Prelude.{◌≡◌};
ghost use Rattle.std.specs.Option.{option_or};
ghost use Rattle.model_tree.specs.Lines.{first_line as line_of};
ghost use Rattle.model_tree.specs.Views.{expression_of};
ghost use Rattle.model_tree.specs.declared.faults.Kind.TheVariants as kind;
ghost use Rattle.check_names.specs.ModelRules.Scopes.{meaning_of};
ghost use Rattle.check_names.specs.ModelRules.Types as types;
ghost use Rattle.check_names.specs.ModelRules.Names.{head_of, unknown_of_head, wrong_of_head};
ghost use Rattle.check_names.specs.ModelRules.Passes.{constructs, fault_of};
ghost use Rattle.check_names.specs.ModelRules.Sites as sites;
ghost use Rattle.check_names.specs.Places.{scope_of};
ghost use Rattle.check_expressions.specs.Findings.{faults_of, told};
ghost use Rattle.check_expressions.specs.ConstructFindings as spec;
ghost use Rattle.check_expressions.specs.declared.channels.At.TheVariants as at;

use super::channels::{At, channel_finding, object_at};
use super::construct_findings::{
    Judged, binary, concat, convert, element, paren, slice, sound_value, time_literal, to_vector,
    unary,
};
use super::findings::first_finding;
use super::heads::{dot_finding, front_of};
use crate::{logic_type, member_seen, object_if, type_seen};
use check_names::Place;
use check_names::model_rules_api::{ExpressionType, Need};
use model_tree::{Expression, first_line};

/// A name, or a port's channel at a place.
fn named<'a>(place: &Place<'a>, need: Need, line: u32, name: &'a [u8], at: At) -> Judged<'a>
    ensures seen { result.seen ≡ types.object_if (spec.object_at at (meaning_of (scope_of place.now) name.now)) }
    ensures finding { faults_of result.finding ≡ spec.channel_fault place.now.around.now need line name.now at (meaning_of (scope_of place.now) name.now) }
{
    let meaning = place.meaning(name);
    Judged {
        seen: object_if(object_at(at, meaning)),
        finding: channel_finding(place.around, need, line, name, at, meaning),
    }
}

/// A port's channel at a computed place.
fn placed_by<'a>(
    place: &Place<'a>,
    need: Need,
    line: u32,
    name: &'a [u8],
    inner: Judged<'a>,
) -> Judged<'a>
    ensures seen { result.seen ≡ types.object_if (spec.object_at (at.Computed (types.type_seen inner.entry.seen)) (meaning_of (scope_of place.now) name.now)) }
    ensures finding { faults_of result.finding ≡ option_or (spec.channel_fault place.now.around.now need line name.now (at.Computed (types.type_seen inner.entry.seen)) (meaning_of (scope_of place.now) name.now)) (faults_of inner.entry.finding) }
{
    let own = named(place, need, line, name, At::Computed(type_seen(inner.seen)));
    Judged {
        seen: own.seen,
        finding: first_finding(own.finding, inner.finding),
    }
}

/// Whether an index follows.
fn has_index(need: Need) -> bool
    ensures { result ≡ sites.has_index need }
{
    matches!(need, Need::Indexed)
}

/// A member of what an expression stands for.
fn member<'a>(
    place: &Place<'a>,
    need: Need,
    inner: &'a Expression,
    name: &'a [u8],
    of: Judged<'a>,
) -> Judged<'a>
    requires { of.seen ≡ types.seen_of (scope_of place.now) (expression_of inner.now) }
    ensures seen { result.seen ≡ types.member_seen of.entry.seen name.now }
    ensures finding { faults_of result.finding ≡ option_or (option_or (told kind.UnknownName (line_of (expression_of inner.now)) (unknown_of_head name.now (head_of (scope_of place.now) (expression_of inner.now)))) (told kind.WrongKind (line_of (expression_of inner.now)) (wrong_of_head (sites.has_index need) name.now (head_of (scope_of place.now) (expression_of inner.now))))) (faults_of of.entry.finding) }
{
    let front = front_of(place, inner, of.seen);
    let own = dot_finding(has_index(need), first_line(inner), name, front);
    Judged {
        seen: member_seen(of.seen, name),
        finding: first_finding(own, of.finding),
    }
}

/// What an expression stands for at a place, and the first broken rule in it. The need says what a name has to be that is
/// the whole expression.
pub fn judge<'a>(place: &Place<'a>, need: Need, expression: &'a Expression) -> Judged<'a>
    ensures seen { result.seen ≡ types.seen_of (scope_of place.now) (expression_of expression.now) }
    ensures finding { faults_of result.finding ≡ fault_of constructs (sites.sites_as need (scope_of place.now) (expression_of expression.now)) }
{
    match expression {
        Expression::Number(_, _) | Expression::Constant(_, _) => {
            sound_value(ExpressionType::Free)
        }
        Expression::Time(_, n, unit) => time_literal(place.around, expression, *n, *unit),
        Expression::Logic(_, v) => sound_value(logic_type(*v)),
        Expression::Truth(_, _) => sound_value(ExpressionType::Bool),
        Expression::Now(_) => sound_value(ExpressionType::Time),
        Expression::Myself(_) => sound_value(ExpressionType::Process),
        Expression::Paren(_, inner) => paren(judge(place, Need::Readable, inner)),
        Expression::Convert(_, conversion, inner) => {
            let inner = judge(place, Need::Readable, inner);
            convert(place.around, expression, *conversion, inner)
        }
        Expression::ToVector(_, width, inner) => {
            let inner = judge(place, Need::Readable, inner);
            to_vector(place.around, expression, *width, inner)
        }
        Expression::Concat(_, upper, lower) => {
            let upper = judge(place, Need::Readable, upper);
            let lower = judge(place, Need::Readable, lower);
            concat(place.around, expression, upper, lower)
        }
        Expression::Named(line, name) => named(place, need, *line, name.bytes(), At::First),
        Expression::Placed(line, name, n) => {
            named(place, need, *line, name.bytes(), At::Number(*n))
        }
        Expression::PlacedBy(line, name, inner) => {
            let inner = judge(place, Need::Readable, inner);
            placed_by(place, need, *line, name.bytes(), inner)
        }
        Expression::Member(inner, name) => {
            let of = judge(place, Need::Object, inner);
            member(place, need, inner, name.bytes(), of)
        }
        Expression::Element(inner, index) => {
            let of = judge(place, Need::Indexed, inner);
            let index = judge(place, Need::Readable, index);
            element(place.around, expression, of, index)
        }
        Expression::Slice(inner, high, low) => {
            let inner = judge(place, Need::Readable, inner);
            slice(place.around, expression, *high, *low, inner)
        }
        Expression::Unary(_, op, inner) => {
            let inner = judge(place, Need::Readable, inner);
            unary(place.around, expression, *op, inner)
        }
        Expression::Binary(op, left, right) => {
            let left = judge(place, Need::Readable, left);
            let right = judge(place, Need::Readable, right);
            binary(place.around, expression, *op, left, right)
        }
    }
}
