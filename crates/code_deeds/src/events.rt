ghost use Rattle.std.specs.Prelude.{◌≡◌, IfOk, option_map};
ghost use Rattle.model_tree.specs.Tree as tree;
ghost use Rattle.model_tree.specs.Views.{event_of, events_of, expression_of, expressions_of, notification_of, waiting_of};
ghost use Rattle.flat_design.specs.Code as code;
ghost use Rattle.code_terms.specs.CodeRules.Deeds as deeds;
ghost use Rattle.code_terms.specs.CodeRules.Terms.{term_of};
ghost use Rattle.code_terms.specs.CheckNames.Places.{scope_of};
ghost use Rattle.code_deeds.specs.Homes as spec;

use code_terms::check_names_api::Place;
use code_terms::logic_values_api::Items;
use code_terms::{event_code, option_code, static_code, term_code};
use flat_design::{Await, EventUse, Expr, Statement, StaticUse};
use model_tree::{Event, Expression, Notification, Waiting};
use std::alloc::{AllocError, Global};

/// The code of events; none where one of them has none.
pub(crate) fn events_code(
    alloc: Global,
    place: &Place<'_>,
    events: &[Event],
) -> Result<Option<Vec<EventUse>>, AllocError>
    ensures { IfOk result (λ found. option_map (λ es. code.event_terms es.items) found ≡ deeds.each (deeds.event_term (scope_of place.now)) (events_of events.now)) }
{
    let mut done = Vec::new(alloc);
    for event in events {
        match event_code(alloc, place, event)? {
            None => return Ok(None),
            Some(event) => done.push(event)?,
        }
    }
    Ok(Some(done))
}

/// The code of the events of a static sensitivity; none where one of them has none.
pub(crate) fn statics_code(
    alloc: Global,
    place: &Place<'_>,
    events: &[Event],
) -> Result<Option<Items<StaticUse>>, AllocError>
    ensures { IfOk result (λ found. found ≡ deeds.each (deeds.static_use (scope_of place.now)) (events_of events.now)) }
{
    let mut done = Items::new(alloc);
    for event in events {
        match static_code(place, event)? {
            None => return Ok(None),
            Some(event) => done.push(event)?,
        }
    }
    Ok(Some(done))
}

/// The code of expressions; none where one of them has none.
pub(crate) fn terms_code(
    alloc: Global,
    place: &Place<'_>,
    expressions: &[Expression],
) -> Result<Option<Vec<Expr>>, AllocError>
    ensures { IfOk result (λ found. option_map (λ es. spec.terms_of es.items) found ≡ deeds.each (term_of (scope_of place.now)) (expressions_of expressions.now)) }
{
    let mut done = Vec::new(alloc);
    for expression in expressions {
        match term_code(alloc, place, expression)? {
            None => return Ok(None),
            Some(term) => done.push(term)?,
        }
    }
    Ok(Some(done))
}

/// The code of a wait for one event; none where a part of it has none.
fn one_code(
    alloc: Global,
    place: &Place<'_>,
    event: &Event,
    time: &Option<Expression>,
) -> Result<Option<Await>, AllocError>
    ensures { IfOk result (λ found. option_map code.await_term found ≡ deeds.await_term (scope_of place.now) (tree.one (event_of event.now) (option_map expression_of time.now))) }
{
    match event_code(alloc, place, event)? {
        None => Ok(None),
        Some(event) => match option_code(alloc, place, time)? {
            None => Ok(None),
            Some(time) => {
                let mut events = Vec::new(alloc);
                events.push(event)?;
                Ok(Some(Await::Any(events, time)))
            }
        },
    }
}

/// The code of what a wait or a next trigger waits for; none where a part of it has none.
pub fn await_code(
    alloc: Global,
    place: &Place<'_>,
    waiting: &Waiting,
) -> Result<Option<Await>, AllocError>
    ensures { IfOk result (λ found. option_map code.await_term found ≡ deeds.await_term (scope_of place.now) (waiting_of waiting.now)) }
{
    match waiting {
        Waiting::Static => Ok(Some(Await::Static)),
        Waiting::Delta => Ok(Some(Await::Delta)),
        Waiting::For(time) => match term_code(alloc, place, time)? {
            None => Ok(None),
            Some(time) => Ok(Some(Await::For(time))),
        },
        Waiting::One(event, time) => one_code(alloc, place, event, time),
        Waiting::Any(events, time) => match events_code(alloc, place, events)? {
            None => Ok(None),
            Some(events) => match option_code(alloc, place, time)? {
                None => Ok(None),
                Some(time) => Ok(Some(Await::Any(events, time))),
            },
        },
        Waiting::All(events, time) => match events_code(alloc, place, events)? {
            None => Ok(None),
            Some(events) => match option_code(alloc, place, time)? {
                None => Ok(None),
                Some(time) => Ok(Some(Await::All(events, time))),
            },
        },
    }
}

/// The code of a notification of the event at this place.
pub fn notification_code(
    alloc: Global,
    place: &Place<'_>,
    notification: &Notification,
    event: u32,
) -> Result<Option<Statement>, AllocError>
    ensures { IfOk result (λ found. option_map code.statement_of found ≡ deeds.notification_code (scope_of place.now) (notification_of notification.now) event) }
{
    match notification {
        Notification::Immediate => Ok(Some(Statement::Notify(event))),
        Notification::Delta => Ok(Some(Statement::NotifyDelta(event))),
        Notification::After(time) => match term_code(alloc, place, time)? {
            None => Ok(None),
            Some(time) => Ok(Some(Statement::NotifyAfter(event, time))),
        },
    }
}
