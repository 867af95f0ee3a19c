ghost use Rattle.std.specs.Prelude.{◌≡◌};
ghost use Rattle.model_tree.specs.Views.{channel_of};
ghost use Rattle.code_terms.specs.ModelRules.Targets as targets;
ghost use Rattle.code_terms.specs.CheckNames.Places.{scope_of};

use code_terms::check_expressions_api::judge_channel;
use code_terms::check_names_api::Place;
use code_terms::model_rules_api::{Meaning, Need};
use flat_design::ValueType;
use model_tree::Channel;

/// The type of what is written to a signal, a fifo, or a port of one.
fn written_type(meaning: Meaning) -> Option<ValueType>
    ensures { result ≡ targets.written_type meaning }
{
    match meaning {
        Meaning::Signal(t) | Meaning::Fifo(t) | Meaning::Out(t, _) | Meaning::FifoOut(t, _) => t,
        Meaning::Resolved => Some(ValueType::Logic),
        _ => None,
    }
}

/// The type of what is put into a fifo, or a port of one.
fn put_type(meaning: Meaning) -> Option<ValueType>
    ensures { result ≡ targets.put_type meaning }
{
    match meaning {
        Meaning::Fifo(t) | Meaning::FifoOut(t, _) => t,
        _ => None,
    }
}

/// The type of what a statement writes to its channel.
pub fn written_to(place: &Place<'_>, channel: &Channel) -> Option<ValueType>
    ensures { result ≡ targets.written_to (scope_of place.now) (channel_of channel.now) }
{
    match judge_channel(place, Need::Object, channel).meaning {
        None => None,
        Some(meaning) => written_type(meaning),
    }
}

/// The type of what a statement puts into its channel.
pub fn put_into(place: &Place<'_>, channel: &Channel) -> Option<ValueType>
    ensures { result ≡ targets.put_into (scope_of place.now) (channel_of channel.now) }
{
    match judge_channel(place, Need::Object, channel).meaning {
        None => None,
        Some(meaning) => put_type(meaning),
    }
}
