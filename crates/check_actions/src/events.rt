ghost use Rattle.std.specs.Prelude.{◌≡◌, List, ℕ, None, Some, false, option_map};
ghost use Rattle.model_tree.specs.Views.{channel_of, event_of, events_of, expression_of, notification_of, waiting_of};
ghost use Rattle.std.specs.Option.{option_or};
ghost use Rattle.check_expressions.specs.ModelRules.Types as types;
ghost use Rattle.check_expressions.specs.ModelRules.Operators as operators;
ghost use Rattle.check_expressions.specs.ModelRules.Passes.{constructs, fault_of};
ghost use Rattle.check_expressions.specs.ModelRules.Sites as sites;
ghost use Rattle.check_expressions.specs.ModelRules.Values as values;
ghost use Rattle.check_expressions.specs.CheckNames.Places.{scope_of};
ghost use Rattle.check_expressions.specs.Findings.{faults_of};
ghost use Rattle.check_expressions.specs.ConstructFindings as judged;
ghost use Rattle.check_expressions.specs.declared.heads.MemberUse.TheVariants as used;
ghost use Rattle.check_expressions.specs.ModelRules.Scopes.{meaning_of};
ghost use Rattle.check_actions.specs.Uses as spec;

use check_expressions::check_names_api::Place;
use check_expressions::model_rules_api::{ExpressionType, Need};
use check_expressions::{
    Finding, MemberUse, first_finding, is_time, judge, judge_channel, member_finding, type_seen,
};
use model_tree::{Channel, Event, Expression, Name, Notification, Waiting};

/// What the channel of an event has to be, where no member is written and where one is.
fn own_need(is_static: bool) -> Need
    ensures { result ≡ sites.event_need is_static None }
{
    if is_static {
        Need::StaticEvent
    } else {
        Need::Event
    }
}

fn member_need(is_static: bool) -> Need
    ensures { (name : List ℕ) → result ≡ sites.event_need is_static (Some name) }
{
    if is_static {
        Need::StaticObject
    } else {
        Need::Object
    }
}

/// The first broken rule at the member of an event itself.
fn own_member_finding<'a>(
    place: &Place<'a>,
    line: u32,
    of: &'a [u8],
    member: &'a [u8],
) -> Option<Finding<'a>>
    ensures { faults_of result ≡ judged.member_fault used.Event line of.now member.now (meaning_of (scope_of place.now) of.now) }
{
    member_finding(MemberUse::Event, line, of, member, place.meaning(of))
}

/// The first broken rule in an event that is a member.
fn member_event_finding<'a>(
    place: &Place<'a>,
    is_static: bool,
    channel: &'a Channel,
    member: &'a Name,
) -> Option<Finding<'a>>
    ensures { faults_of result ≡ fault_of constructs (sites.event_sites (scope_of place.now) is_static (spec.event_at (channel_of channel.now) member.now)) }
{
    let own = own_member_finding(place, channel.line, channel.name.bytes(), member.bytes());
    let inside = judge_channel(place, member_need(is_static), channel);
    first_finding(own, inside.finding)
}

/// The first broken rule in an event.
pub fn event_finding<'a>(
    place: &Place<'a>,
    is_static: bool,
    event: &'a Event,
) -> Option<Finding<'a>>
    ensures { faults_of result ≡ fault_of constructs (sites.event_sites (scope_of place.now) is_static (event_of event.now)) }
{
    let channel = &event.channel;
    match &event.member {
        None => judge_channel(place, own_need(is_static), channel).finding,
        Some(member) => member_event_finding(place, is_static, channel, member),
    }
}

/// The first broken rule in events.
pub fn events_finding<'a>(
    place: &Place<'a>,
    is_static: bool,
    events: &'a [Event],
) -> Option<Finding<'a>>
    ensures { faults_of result ≡ fault_of constructs (sites.events_sites (scope_of place.now) is_static (events_of events.now)) }
{
    for event in events {
        if let Some(finding) = event_finding(place, is_static, event) {
            return Some(finding);
        }
    }
    None
}

/// The first broken rule in an expression, where one is written.
pub fn option_finding<'a>(
    place: &Place<'a>,
    expression: &'a Option<Expression>,
) -> Option<Finding<'a>>
    ensures { faults_of result ≡ fault_of constructs (sites.option_sites (scope_of place.now) (option_map expression_of expression.now)) }
{
    match expression {
        None => None,
        Some(expression) => judge(place, Need::Readable, expression).finding,
    }
}

/// The type of an expression, where one is written and its type is known.
pub fn option_type(place: &Place<'_>, expression: &Option<Expression>) -> Option<ExpressionType>
    ensures { result ≡ values.option_type (scope_of place.now) (option_map expression_of expression.now) }
{
    match expression {
        None => None,
        Some(expression) => type_seen(judge(place, Need::Readable, expression).seen),
    }
}

/// The type of an expression, where it is known.
pub fn type_of(place: &Place<'_>, expression: &Expression) -> Option<ExpressionType>
    ensures { result ≡ types.type_of (scope_of place.now) (expression_of expression.now) }
{
    type_seen(judge(place, Need::Readable, expression).seen)
}

/// Whether a type that is known is no time.
fn is_no_time(e: Option<ExpressionType>) -> bool
    ensures { result ≡ values.fails operators.is_time e }
{
    match e {
        None => false,
        Some(e) => !is_time(e),
    }
}

/// Whether an expression that is written is no time.
pub fn time_differs(place: &Place<'_>, expression: &Option<Expression>) -> bool
    ensures { result ≡ values.time_differs (scope_of place.now) (option_map expression_of expression.now) }
{
    is_no_time(option_type(place, expression))
}

/// Whether an expression is no time.
pub fn span_differs(place: &Place<'_>, expression: &Expression) -> bool
    ensures { result ≡ values.time_differs (scope_of place.now) (Some (expression_of expression.now)) }
{
    is_no_time(type_of(place, expression))
}

/// Whether the time-out of a wait or a next trigger is no time.
pub fn waiting_differs(place: &Place<'_>, waiting: &Waiting) -> bool
    ensures { result ≡ values.waiting_differs (scope_of place.now) (waiting_of waiting.now) }
{
    match waiting {
        Waiting::Static | Waiting::Delta => false,
        Waiting::For(time) => span_differs(place, time),
        Waiting::One(_, time) | Waiting::Any(_, time) | Waiting::All(_, time) => {
            time_differs(place, time)
        }
    }
}

/// The first broken rule in an event and then a time-out.
fn event_and<'a>(
    place: &Place<'a>,
    event: &'a Event,
    time: &'a Option<Expression>,
) -> Option<Finding<'a>>
    ensures { faults_of result ≡ option_or (fault_of constructs (sites.event_sites (scope_of place.now) false (event_of event.now))) (fault_of constructs (sites.option_sites (scope_of place.now) (option_map expression_of time.now))) }
{
    first_finding(
        event_finding(place, false, event),
        option_finding(place, time),
    )
}

/// The first broken rule in events and then a time-out.
fn events_and<'a>(
    place: &Place<'a>,
    events: &'a [Event],
    time: &'a Option<Expression>,
) -> Option<Finding<'a>>
    ensures { faults_of result ≡ option_or (fault_of constructs (sites.events_sites (scope_of place.now) false (events_of events.now))) (fault_of constructs (sites.option_sites (scope_of place.now) (option_map expression_of time.now))) }
{
    first_finding(
        events_finding(place, false, events),
        option_finding(place, time),
    )
}

/// The first broken rule in what a wait or a next trigger waits for.
#[tactic(auto, using(crate::proofs::Parts::parts))]
pub fn waiting_finding<'a>(place: &Place<'a>, waiting: &'a Waiting) -> Option<Finding<'a>>
    ensures { faults_of result ≡ fault_of constructs (sites.waiting_sites (scope_of place.now) (waiting_of waiting.now)) }
{
    match waiting {
        Waiting::Static | Waiting::Delta => None,
        Waiting::For(time) => judge(place, Need::Readable, time).finding,
        Waiting::One(event, time) => event_and(place, event, time),
        Waiting::Any(events, time) | Waiting::All(events, time) => {
            events_and(place, events.as_slice(), time)
        }
    }
}

/// Whether the time of a notification is none.
pub fn notification_differs(place: &Place<'_>, notification: &Notification) -> bool
    ensures { result ≡ values.notification_differs (scope_of place.now) (notification_of notification.now) }
{
    match notification {
        Notification::Immediate | Notification::Delta => false,
        Notification::After(time) => span_differs(place, time),
    }
}

/// The first broken rule in the time of a notification.
pub fn notification_finding<'a>(
    place: &Place<'a>,
    notification: &'a Notification,
) -> Option<Finding<'a>>
    ensures { faults_of result ≡ fault_of constructs (sites.notification_sites (scope_of place.now) (notification_of notification.now)) }
{
    match notification {
        Notification::Immediate | Notification::Delta => None,
        Notification::After(time) => judge(place, Need::Readable, time).finding,
    }
}
