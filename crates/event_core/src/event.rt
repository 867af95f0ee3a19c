//! The events that can be waited for and notified, by name.
ghost use Rattle.std.specs.Prelude.{◌≡◌, ◌↔◌, true, IsTrue};
ghost use Rattle.event_core.specs.Ev.{same_event as same};

/// An event: one of the design's by its number, or one of those that each instance has, by its serial.
#[derive(Clone, Copy, PartialEq, Eq, Debug)]
pub enum Ev {
    /// An event of the design.
    Fixed(u32),
    /// The end of the instance of this serial.
    Terminated(u32),
    /// The reset of the instance of this serial.
    Restarted(u32),
}

/// Both are the same event.
pub fn same_event(a: Ev, b: Ev) -> bool
    ensures { result ≡ same a b }
{
    match (a, b) {
        (Ev::Fixed(m), Ev::Fixed(n)) => m == n,
        (Ev::Terminated(m), Ev::Terminated(n)) => m == n,
        (Ev::Restarted(m), Ev::Restarted(n)) => m == n,
        _ => false,
    }
}

/// Two events are the same exactly where they are equal.
pub fn same_events_are_equal()
    ensures { (a b : Ev) → (same a b ≡ true) ↔ (a ≡ b) }
{}
