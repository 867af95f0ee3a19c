//! Laws of bindings.
ghost use Rattle.std.specs.Prelude.{◌≡◌, ℕ, Contains};
ghost use Rattle.std.specs.List.{flat_map};
ghost use Rattle.code_rules.specs.FlatDesign.declared.objects.Binding.{Binding};
ghost use Rattle.code_rules.specs.FlatDesign.declared.objects.Objects.{Objects};
ghost use Rattle.design_rules.specs.declared.bindings.BoundPort.{BoundPort};
ghost use Rattle.design_rules.specs.declared.bindings.Joined.{Joined};
ghost use Rattle.design_rules.specs.Objects.{form_at, bindings_of, bindings_to};
ghost use Rattle.design_rules.specs.Paths.{is_end, is_beginning, itself_or, ends_of, leaders_of, Reaches};
ghost use Rattle.design_rules.specs.Formed.{AreFormed};
ghost use Rattle.design_rules.specs.Bound.{bound};

/// Each channel of a port is reached by a path of bindings from it.
pub fn channels_are_reached()
    ensures { (os : Objects) (p : BoundPort) (c : ℕ) → Contains (bound os).ports p → Contains p.channels c → Reaches os p.object c }
{}

/// What a hop joins is reached by a path of bindings from its initiator.
pub fn targets_are_reached()
    ensures { (os : Objects) (h : Joined) → Contains (bound os).hops h → Reaches os h.initiator h.target }
{}

/// An initiator that leads to a socket reaches it by a path of bindings.
pub fn leaders_reach_sockets()
    ensures { (os : Objects) (i t : ℕ) → Contains (leaders_of os t) i → Reaches os i t }
{}

/// The channels of a port are those of its bindings in text order, one after another: the right end itself where it is a
/// channel, and else those of the port or the export at the right end. The same holds of sockets.
pub fn ends_follow_bindings()
    ensures { (os : Objects) → AreFormed os → (i : ℕ)
        → ends_of os i ≡ flat_map (λ (b : Binding). itself_or (ends_of os b.right) b.right (is_end (form_at os b.right))) (bindings_of os i) }
{}

/// The initiators that lead to a socket are those of the bindings to it: the left end itself where it is an initiator
/// without `pass`, and else those that lead to the left end.
pub fn leaders_follow_bindings()
    ensures { (os : Objects) → AreFormed os → (i : ℕ)
        → leaders_of os i ≡ flat_map (λ (b : Binding). itself_or (leaders_of os b.left) b.left (is_beginning (form_at os b.left))) (bindings_to os i) }
{}
