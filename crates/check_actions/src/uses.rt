ghost use Rattle.std.specs.Prelude.{◌≡◌, option_map};
ghost use Rattle.check_expressions.specs.ModelRules.Names as names;
ghost use Rattle.check_expressions.specs.CheckNames.Places.{scope_of};
ghost use Rattle.check_expressions.specs.Findings.{faults_of};
ghost use Rattle.check_actions.specs.Uses as spec;

use check_expressions::check_names_api::Place;
use check_expressions::model_rules_api::Need;
use check_expressions::{Finding, is_unmet, told_if};
use model_tree::Kind;

/// A name that stands in a construct, and what it has to be there.
#[derive(Clone, Copy)]
pub struct Used<'a> {
    /// The name.
    pub name: &'a [u8],
    /// What it has to be.
    pub need: Need,
}

/// A name that is not known.
fn unknown_use<'a>(place: &Place<'_>, used: Used<'a>) -> Option<&'a [u8]>
    ensures { option_map (λ name. name.now) result ≡ names.unknown_use (scope_of place.now) (spec.used_of used.entry) }
{
    if place.is_known(used.name) {
        None
    } else {
        Some(used.name)
    }
}

/// The first name that is not known.
fn unknown_in<'a>(place: &Place<'_>, uses: &[Used<'a>]) -> Option<&'a [u8]>
    ensures { option_map (λ name. name.now) result ≡ names.first (names.unknown_use (scope_of place.now)) (spec.uses_of uses.now) }
{
    for used in uses {
        if let Some(name) = unknown_use(place, *used) {
            return Some(name);
        }
    }
    None
}

/// A name that is known and not what is needed.
fn wrong_use<'a>(place: &Place<'_>, used: Used<'a>) -> Option<&'a [u8]>
    ensures { option_map (λ name. name.now) result ≡ names.wrong_use (scope_of place.now) (spec.used_of used.entry) }
{
    if is_unmet(used.need, place.meaning(used.name)) {
        Some(used.name)
    } else {
        None
    }
}

/// The first name that is known and not what is needed.
fn wrong_in<'a>(place: &Place<'_>, uses: &[Used<'a>]) -> Option<&'a [u8]>
    ensures { option_map (λ name. name.now) result ≡ names.first (names.wrong_use (scope_of place.now)) (spec.uses_of uses.now) }
{
    for used in uses {
        if let Some(name) = wrong_use(place, *used) {
            return Some(name);
        }
    }
    None
}

/// The first broken rule at a construct, by the names in it, whether its types differ, and what its other rules say.
pub fn site_finding<'a>(
    place: &Place<'a>,
    line: u32,
    uses: &[Used<'a>],
    differs: bool,
    extra: Option<Finding<'a>>,
) -> Option<Finding<'a>>
    ensures { faults_of result ≡ spec.site_fault (scope_of place.now) line (spec.uses_of uses.now) differs (faults_of extra.entry) }
{
    if let Some(name) = unknown_in(place, uses) {
        return told_if(true, Kind::UnknownName, line, name);
    }
    if let Some(name) = wrong_in(place, uses) {
        return told_if(true, Kind::WrongKind, line, name);
    }
    if differs {
        return told_if(true, Kind::TypeDiffers, line, place.around);
    }
    extra
}
