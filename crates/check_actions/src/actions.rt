ghost use Rattle.std.specs.Prelude.{◌≡◌, ◌∷◌, [], None, Some, false, not, is_some, option_map, option_and_then};
ghost use Rattle.std.specs.Option.{option_or};
ghost use Rattle.model_tree.specs.Tree as tree;
ghost use Rattle.model_tree.specs.Views.{action_of, channel_of, expression_of, notification_of, spawn_of, waiting_of};
ghost use Rattle.check_expressions.specs.ModelRules.Meanings as meanings;
ghost use Rattle.check_expressions.specs.ModelRules.Operators as operators;
ghost use Rattle.check_expressions.specs.ModelRules.Calls as calls;
ghost use Rattle.check_expressions.specs.ModelRules.Names as names;
ghost use Rattle.check_expressions.specs.ModelRules.declared.needs.Need.TheVariants as need_of;
ghost use Rattle.check_expressions.specs.ModelRules.Passes.{constructs, fault_of};
ghost use Rattle.check_expressions.specs.ModelRules.Sites as sites;
ghost use Rattle.check_expressions.specs.ModelRules.Values as values;
ghost use Rattle.check_expressions.specs.CheckNames.Places.{scope_of};
ghost use Rattle.model_tree.specs.declared.faults.Kind.TheVariants as kind;
ghost use Rattle.check_expressions.specs.Findings.{faults_of, told};
ghost use Rattle.check_actions.specs.Uses as spec;

use super::calls::{arguments_differ, arguments_finding, count_differs, has_inout, parameters_of};
use super::events::{
    events_finding, notification_differs, notification_finding, option_finding, option_type,
    span_differs, waiting_differs, waiting_finding,
};
use super::operations::pass_finding;
use super::stores::{misfits, types_differ, variable_named, written};
use super::uses::{Used, site_finding};
use check_expressions::check_names_api::{Place, variable_type};
use check_expressions::model_rules_api::{ExpressionType, Need};
use check_expressions::{
    Finding, first_finding, is_integer, is_payload, is_process, judge, judge_channel, told_if,
    type_seen,
};
use flat_design::ValueType;
use model_tree::{Action, Channel, Expression, Kind, Name, Notification, Spawn, Waiting, Who};

/// The use of one name.
fn one_use<'a>(name: &'a [u8], need: Need) -> Used<'a>
    ensures { spec.used_of result ≡ (name.now, need) }
{
    Used { name, need }
}

/// A statement that names one object, and whether its types differ: itself.
fn named_finding<'a>(
    place: &Place<'a>,
    line: u32,
    name: &'a [u8],
    need: Need,
    differs: bool,
) -> Option<Finding<'a>>
    ensures { faults_of result ≡ spec.site_fault (scope_of place.now) line ((name.now, need) ∷ []) differs None }
{
    site_finding(place, line, &[one_use(name, need)], differs, None)
}

/// A statement without names of its own, and whether its types differ: itself.
fn plain_finding<'a>(place: &Place<'a>, line: u32, differs: bool) -> Option<Finding<'a>>
    ensures { faults_of result ≡ spec.site_fault (scope_of place.now) line [] differs None }
{
    site_finding(place, line, &[], differs, None)
}

/// A write: itself, its channel and its value.
#[tactic(auto, using(crate::proofs::Parts::parts))]
fn write_finding<'a>(
    place: &Place<'a>,
    line: u32,
    channel: &'a Channel,
    value: &'a Expression,
) -> Option<Finding<'a>>
    ensures { faults_of result ≡ option_or (spec.action_fault (scope_of place.now) line (tree.write (channel_of channel.now) (expression_of value.now))) (fault_of constructs (sites.action_parts (scope_of place.now) (tree.write (channel_of channel.now) (expression_of value.now)))) }
{
    let of = judge_channel(place, Need::Written, channel);
    let value = judge(place, Need::Readable, value);
    let differs = misfits(written(of.meaning), type_seen(value.seen));
    let own = plain_finding(place, line, differs);
    first_finding(own, first_finding(of.finding, value.finding))
}

/// Whether a type that is known can not be printed.
fn is_unprinted(e: Option<ExpressionType>) -> bool
    ensures { result ≡ values.fails values.is_printed e }
{
    match e {
        None => false,
        Some(e) => is_process(e) || is_payload(e),
    }
}

/// Whether a type that is known is no integer.
fn is_no_integer(e: Option<ExpressionType>) -> bool
    ensures { result ≡ values.fails operators.is_integer e }
{
    match e {
        None => false,
        Some(e) => !is_integer(e),
    }
}

/// A new payload: itself and its sizes.
#[tactic(auto, using(crate::proofs::Parts::parts))]
fn make_finding<'a>(
    place: &Place<'a>,
    line: u32,
    name: &'a [u8],
    size: &'a Expression,
    enables: &'a Option<Expression>,
) -> Option<Finding<'a>>
    ensures { faults_of result ≡ option_or (spec.action_fault (scope_of place.now) line (tree.make name.now (expression_of size.now) (option_map expression_of enables.now))) (fault_of constructs (sites.action_parts (scope_of place.now) (tree.make name.now (expression_of size.now) (option_map expression_of enables.now)))) }
{
    let inside = judge(place, Need::Readable, size);
    let differs = is_no_integer(type_seen(inside.seen))
        || is_no_integer(option_type(place, enables));
    let own = named_finding(place, line, name, Need::Payload, differs);
    first_finding(
        own,
        first_finding(inside.finding, option_finding(place, enables)),
    )
}

/// A blocking transport call.
fn b_transport_finding<'a>(
    place: &Place<'a>,
    line: u32,
    socket: &'a [u8],
    payload: &'a [u8],
    delay: &'a [u8],
) -> Option<Finding<'a>>
    ensures { faults_of result ≡ spec.action_fault (scope_of place.now) line (tree.b_transport socket.now payload.now delay.now) }
{
    let uses = [
        one_use(socket, Need::Initiator),
        one_use(payload, Need::Variable),
        one_use(delay, Need::Variable),
    ];
    let differs = types_differ(Some(ValueType::Payload), variable_named(place, payload))
        || types_differ(Some(ValueType::Time), variable_named(place, delay));
    site_finding(
        place,
        line,
        &uses,
        differs,
        pass_finding(place, line, socket),
    )
}

/// The type of the variable of a name, where one is written.
fn handle_type(place: &Place<'_>, name: &Option<Name>) -> Option<ValueType>
    ensures { result ≡ values.option_variable (scope_of place.now) name.now }
{
    match name {
        None => None,
        Some(name) => variable_named(place, name.bytes()),
    }
}

/// The rules on the names and types of a new instance.
fn spawn_site<'a>(
    place: &Place<'a>,
    line: u32,
    spawn: &'a Spawn,
    differs: bool,
    extra: Option<Finding<'a>>,
) -> Option<Finding<'a>>
    ensures { faults_of result ≡ spec.site_fault (scope_of place.now) line (names.action_uses (tree.spawn (spawn_of spawn.now))) differs (faults_of extra.entry) }
{
    let function = one_use(spawn.function.bytes(), Need::Function);
    match &spawn.handle {
        None => site_finding(place, line, &[function], differs, extra),
        Some(handle) => {
            let uses = [one_use(handle.bytes(), Need::Variable), function];
            site_finding(place, line, &uses, differs, extra)
        }
    }
}

/// A new instance of a function: itself.
fn spawn_finding<'a>(place: &Place<'a>, line: u32, spawn: &'a Spawn) -> Option<Finding<'a>>
    ensures { faults_of result ≡ spec.action_fault (scope_of place.now) line (tree.spawn (spawn_of spawn.now)) }
{
    let name = spawn.function.bytes();
    let function = place.function(name);
    let parameters = parameters_of(function);
    let arguments = spawn.arguments.as_slice();
    let differs = types_differ(Some(ValueType::Process), handle_type(place, &spawn.handle))
        || arguments_differ(place, parameters, arguments);
    let inout = told_if(has_inout(parameters), Kind::BadSpawn, line, name);
    let miscounted = count_differs(function, arguments);
    let count = told_if(miscounted, Kind::ArgumentCount, line, name);
    spawn_site(place, line, spawn, differs, first_finding(inout, count))
}

/// A new instance: itself, its arguments and its static sensitivity.
#[tactic(auto, using(crate::proofs::Parts::parts))]
fn spawn_and_parts<'a>(place: &Place<'a>, line: u32, spawn: &'a Spawn) -> Option<Finding<'a>>
    ensures { faults_of result ≡ option_or (spec.action_fault (scope_of place.now) line (tree.spawn (spawn_of spawn.now))) (fault_of constructs (sites.action_parts (scope_of place.now) (tree.spawn (spawn_of spawn.now)))) }
{
    let own = spawn_finding(place, line, spawn);
    let arguments = arguments_finding(place, spawn.arguments.as_slice());
    let events = events_finding(place, true, spawn.sensitive.as_slice());
    first_finding(own, first_finding(arguments, events))
}

/// The first broken rule at the process of a control call.
fn who_finding<'a>(place: &Place<'a>, who: &'a Who) -> Option<Finding<'a>>
    ensures { faults_of result ≡ fault_of constructs (sites.who_sites (scope_of place.now) who.now) }
{
    match who {
        Who::Myself(_) => None,
        Who::Named(line, name) => {
            named_finding(place, *line, name.bytes(), Need::Process, false)
        }
    }
}

/// Whether only one of the two is there: an answer of the function, and a returned value.
fn is_uneven(has_answer: bool, has_value: bool) -> bool
    ensures { result ≡ not (calls.same_bool has_answer has_value) }
{
    match (has_answer, has_value) {
        (true, true) | (false, false) => false,
        (true, false) | (false, true) => true,
    }
}

/// The type of the answer of the function around, where it is known and has one.
fn answer_type(place: &Place<'_>) -> Option<ValueType>
    ensures { result ≡ option_and_then meanings.variable_type (scope_of place.now).answer }
{
    match place.answer {
        None => None,
        Some(answer) => variable_type(answer),
    }
}

/// The rule that a value is returned exactly where the function has a type.
fn return_rule<'a>(place: &Place<'a>, line: u32, has_value: bool) -> Option<Finding<'a>>
    ensures { faults_of result ≡ option_or (told kind.ReturnDiffers line (names.name_if (not (calls.same_bool (is_some (scope_of place.now).answer) has_value)) place.now.around.now)) None }
{
    let uneven = is_uneven(place.answer.is_some(), has_value);
    told_if(uneven, Kind::ReturnDiffers, line, place.around)
}

/// A returned value: itself, and the value.
fn return_finding<'a>(
    place: &Place<'a>,
    line: u32,
    value: &'a Option<Expression>,
) -> Option<Finding<'a>>
    ensures { faults_of result ≡ option_or (spec.action_fault (scope_of place.now) line (tree.return_ (option_map expression_of value.now))) (fault_of constructs (sites.option_sites (scope_of place.now) (option_map expression_of value.now))) }
{
    let differs = misfits(answer_type(place), option_type(place, value));
    let extra = return_rule(place, line, value.is_some());
    let own = site_finding(place, line, &[], differs, extra);
    first_finding(own, option_finding(place, value))
}

/// A print: itself and its value.
fn print_finding<'a>(
    place: &Place<'a>,
    line: u32,
    value: &'a Option<Expression>,
) -> Option<Finding<'a>>
    ensures { faults_of result ≡ option_or (spec.site_fault (scope_of place.now) line [] (values.fails values.is_printed (values.option_type (scope_of place.now) (option_map expression_of value.now))) None) (fault_of constructs (sites.option_sites (scope_of place.now) (option_map expression_of value.now))) }
{
    let own = plain_finding(place, line, is_unprinted(option_type(place, value)));
    first_finding(own, option_finding(place, value))
}

/// A notification: itself and its time.
fn notify_finding<'a>(
    place: &Place<'a>,
    line: u32,
    name: &'a [u8],
    notification: &'a Notification,
) -> Option<Finding<'a>>
    ensures { faults_of result ≡ option_or (spec.action_fault (scope_of place.now) line (tree.notify name.now (notification_of notification.now))) (fault_of constructs (sites.notification_sites (scope_of place.now) (notification_of notification.now))) }
{
    let differs = notification_differs(place, notification);
    let own = named_finding(place, line, name, Need::PlainEvent, differs);
    first_finding(own, notification_finding(place, notification))
}

/// A wait or a next trigger: itself and what it waits for.
fn wait_finding<'a>(place: &Place<'a>, line: u32, waiting: &'a Waiting) -> Option<Finding<'a>>
    ensures { faults_of result ≡ option_or (spec.site_fault (scope_of place.now) line [] (values.waiting_differs (scope_of place.now) (waiting_of waiting.now)) None) (fault_of constructs (sites.waiting_sites (scope_of place.now) (waiting_of waiting.now))) }
{
    let own = plain_finding(place, line, waiting_differs(place, waiting));
    first_finding(own, waiting_finding(place, waiting))
}

/// A payload's bytes in a memory.
fn carry_finding<'a>(
    place: &Place<'a>,
    line: u32,
    payload: &'a [u8],
    memory: &'a [u8],
) -> Option<Finding<'a>>
    ensures { faults_of result ≡ spec.action_fault (scope_of place.now) line (tree.carry payload.now memory.now) }
{
    let uses = [
        one_use(payload, Need::Payload),
        one_use(memory, Need::Memory),
    ];
    site_finding(place, line, &uses, false, None)
}

/// A statement on a quantum keeper with a time: itself and the time.
fn keeper_finding<'a>(
    place: &Place<'a>,
    line: u32,
    name: &'a [u8],
    time: &'a Expression,
) -> Option<Finding<'a>>
    ensures { faults_of result ≡ option_or (spec.site_fault (scope_of place.now) line ((name.now, need_of.Keeper) ∷ []) (values.time_differs (scope_of place.now) (Some (expression_of time.now))) None) (fault_of constructs (sites.expression_sites (scope_of place.now) (expression_of time.now))) }
{
    let own = named_finding(place, line, name, Need::Keeper, span_differs(place, time));
    first_finding(own, judge(place, Need::Readable, time).finding)
}

/// A statement with a time: itself and the time.
fn timed_finding<'a>(place: &Place<'a>, line: u32, time: &'a Expression) -> Option<Finding<'a>>
    ensures { faults_of result ≡ option_or (spec.action_fault (scope_of place.now) line (tree.qk_global (expression_of time.now))) (fault_of constructs (sites.expression_sites (scope_of place.now) (expression_of time.now))) }
{
    let own = plain_finding(place, line, span_differs(place, time));
    first_finding(own, judge(place, Need::Readable, time).finding)
}

/// The first broken rule at a statement that gives no value, and in its parts.
pub fn action_finding<'a>(place: &Place<'a>, line: u32, action: &'a Action) -> Option<Finding<'a>>
    ensures { faults_of result ≡ option_or (spec.action_fault (scope_of place.now) line (action_of action.now)) (fault_of constructs (sites.action_parts (scope_of place.now) (action_of action.now))) }
{
    match action {
        Action::Write(channel, value) => write_finding(place, line, channel, value),
        Action::Print(_, value) => print_finding(place, line, value),
        Action::Notify(name, when) => notify_finding(place, line, name.bytes(), when),
        Action::Cancel(name) => {
            named_finding(place, line, name.bytes(), Need::PlainEvent, false)
        }
        Action::Wait(waiting) | Action::NextTrigger(waiting) => {
            wait_finding(place, line, waiting)
        }
        Action::Lock(channel) => judge_channel(place, Need::Mutex, channel).finding,
        Action::SemWait(channel) | Action::Post(channel) => {
            judge_channel(place, Need::Semaphore, channel).finding
        }
        Action::Make(name, size, enables) => {
            make_finding(place, line, name.bytes(), size, enables)
        }
        Action::Acquire(name) | Action::Release(name) => {
            named_finding(place, line, name.bytes(), Need::Payload, false)
        }
        Action::Carry(payload, memory) => {
            carry_finding(place, line, payload.bytes(), memory.bytes())
        }
        Action::BTransport(socket, payload, delay) => {
            b_transport_finding(place, line, socket.bytes(), payload.bytes(), delay.bytes())
        }
        Action::QkGlobal(time) => timed_finding(place, line, time),
        Action::QkInc(name, time) | Action::QkSet(name, time) => {
            keeper_finding(place, line, name.bytes(), time)
        }
        Action::QkReset(name) | Action::QkSync(name) => {
            named_finding(place, line, name.bytes(), Need::Keeper, false)
        }
        Action::Spawn(spawn) => spawn_and_parts(place, line, spawn),
        Action::Control(_, who, _) | Action::ThrowIt(who, _, _) => who_finding(place, who),
        Action::Return(value) => return_finding(place, line, value),
        Action::Throw(_) | Action::Stop => None,
    }
}
