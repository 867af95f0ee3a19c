//! Notifications of events, and which of two survives.
ghost use Rattle.std.specs.Prelude.{◌≡◌};
ghost use Rattle.event_core.specs.Notifications.{notified, effect_of, when_of, comes_first};

use sim_time::Time;

/// When an event is notified (IEEE 1666-2011, 5.10).
#[derive(Clone, Copy, PartialEq, Eq, Debug)]
pub enum When {
    /// At once, in the same evaluation phase.
    Immediate,
    /// In the next delta cycle.
    Delta,
    /// At this time.
    At(Time),
}

/// What a notification does to its event.
#[derive(Clone, Copy, PartialEq, Eq, Debug)]
pub enum Effect {
    /// The event fires at once, and nothing is pending.
    Fire,
    /// The notification is pending now, in place of a later one if there was one.
    Set,
    /// An earlier notification, or one for the same moment, was pending and still is.
    Kept,
}

/// What is pending for an event.
#[derive(Clone, Copy, PartialEq, Eq, Debug)]
pub enum Pending {
    /// No notification.
    Nothing,
    /// A notification in the next delta cycle.
    Delta,
    /// A notification at this time.
    At(Time),
}

#[inline(always)]
fn is_first(w: When, p: Pending) -> bool
    ensures { result ≡ comes_first w p }
{
    match (w, p) {
        (When::Immediate, _) | (_, Pending::Nothing) => true,
        (_, Pending::Delta) => false,
        (When::Delta, Pending::At(_)) => true,
        (When::At(t), Pending::At(u)) => t.0 < u.0,
    }
}

#[inline(always)]
pub(crate) fn surviving(w: When, p: Pending) -> Pending
    ensures { result ≡ notified w p }
{
    if !is_first(w, p) {
        return p;
    }
    match w {
        When::Immediate => Pending::Nothing,
        When::Delta => Pending::Delta,
        When::At(t) => Pending::At(t),
    }
}

#[inline(always)]
pub(crate) fn answer_to(w: When, p: Pending) -> Effect
    ensures { result ≡ effect_of w p }
{
    match w {
        When::Immediate => Effect::Fire,
        _ if is_first(w, p) => Effect::Set,
        _ => Effect::Kept,
    }
}

impl Pending {
    /// The pending notification, if there is one.
    #[inline(always)]
    pub fn when(self) -> Option<When>
        ensures { result ≡ when_of self }
    {
        match self {
            Pending::Nothing => None,
            Pending::Delta => Some(When::Delta),
            Pending::At(t) => Some(When::At(t)),
        }
    }
}
