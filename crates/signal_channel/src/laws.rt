ghost use Rattle.std.specs.Prelude.{◌≡◌, ◌≢◌, ◌↔◌, true};
ghost use Rattle.logic_values.specs.declared.kinds.Digit.{Digit};
ghost use Rattle.signal_channel.specs.Drivers.{edges};
ghost use Rattle.signal_channel.specs.Signals.{differs};
ghost use Rattle.signal_channel.specs.declared.signal.Signal.{Signal};

/// An update changes the value of a signal exactly where it was written since the last one and the value that
/// was written last is another than the one that is read; and a resolved signal announces a change exactly where
/// its digit is another than before.
pub fn what_differs_is_not_equal()
    ensures signal { (s : Signal) → (differs s ≡ true) ↔ ((s.asked ≡ true) × (s.value ≢ s.next)) }
    ensures resolved { (old new : Digit) → ((edges old new).changed ≡ true) ↔ (old ≢ new) }
{}
