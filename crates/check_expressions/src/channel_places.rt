ghost use Rattle.std.specs.Prelude.{◌≡◌};
ghost use Rattle.std.specs.Option.{option_or};
ghost use Rattle.model_tree.specs.Views.{channel_of as channel_seen};
ghost use Rattle.check_names.specs.ModelRules.Types.{channel_of};
ghost use Rattle.check_names.specs.ModelRules.Scopes.{meaning_of};
ghost use Rattle.check_names.specs.ModelRules.Passes.{constructs, fault_of};
ghost use Rattle.check_names.specs.ModelRules.Sites.{channel_sites};
ghost use Rattle.check_names.specs.Places.{scope_of};
ghost use Rattle.check_expressions.specs.Findings.{faults_of};
ghost use Rattle.check_expressions.specs.ConstructFindings as spec;

use super::channels::{At, channel_finding, object_at};
use super::expressions::judge;
use super::findings::{Finding, first_finding};
use crate::type_seen;
use check_names::Place;
use check_names::model_rules_api::{Meaning, Need};
use model_tree::{Channel, Place as Spot};

/// What the channel of a statement stands for, and the first broken rule in it.
#[derive(Clone, Copy)]
pub struct JudgedChannel<'a> {
    /// What it stands for; none where its name is not known or its place is wrong.
    pub meaning: Option<Meaning>,
    /// The first broken rule in it.
    pub finding: Option<Finding<'a>>,
}

/// A channel at a place of a port, by what its name stands for.
fn at_place<'a>(
    place: &Place<'a>,
    need: Need,
    channel: &'a Channel,
    at: At,
    inside: Option<Finding<'a>>,
) -> JudgedChannel<'a>
    ensures meaning { result.meaning ≡ spec.object_at at (meaning_of (scope_of place.now) channel.now.name) }
    ensures finding { faults_of result.finding ≡ option_or (spec.channel_fault place.now.around.now need channel.now.line channel.now.name at (meaning_of (scope_of place.now) channel.now.name)) (faults_of inside.entry) }
{
    let name = channel.name.bytes();
    let meaning = place.meaning(name);
    let own = channel_finding(place.around, need, channel.line, name, at, meaning);
    JudgedChannel {
        meaning: object_at(at, meaning),
        finding: first_finding(own, inside),
    }
}

/// What a channel stands for that a statement names, and the first broken rule in it. The need says what its name has to be.
pub fn judge_channel<'a>(place: &Place<'a>, need: Need, channel: &'a Channel) -> JudgedChannel<'a>
    ensures meaning { result.meaning ≡ channel_of (scope_of place.now) (channel_seen channel.now) }
    ensures finding { faults_of result.finding ≡ fault_of constructs (channel_sites (scope_of place.now) need (channel_seen channel.now)) }
{
    match &channel.place {
        Spot::First => at_place(place, need, channel, At::First, None),
        Spot::Number(n) => at_place(place, need, channel, At::Number(*n), None),
        Spot::Computed(e) => {
            let inner = judge(place, Need::Readable, e);
            let at = At::Computed(type_seen(inner.seen));
            at_place(place, need, channel, at, inner.finding)
        }
    }
}
