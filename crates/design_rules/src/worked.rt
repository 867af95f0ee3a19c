//! The definitions, worked out for models written by hand: what they give there is computed by the checker.
#![tactic(auto, unfolding(crate::specs::Listing::inside_within, crate::specs::Listing::binds_within, crate::specs::Paths::ends_within))]

ghost use Rattle.std.specs.Prelude.{◌≡◌, ◌∷◌, [], codes, None, Some, true, false};
ghost use Rattle.code_rules.specs.EventCore.declared.event.Ev.TheVariants as ev;
ghost use Rattle.code_rules.specs.LogicValues.declared.kinds.Value.TheVariants as value;
ghost use Rattle.code_rules.specs.ModelTree.declared.items.SignalKind.TheVariants as signal_kind;
ghost use Rattle.code_rules.specs.ModelTree.declared.items.ProcessKind.TheVariants as process_kind;
ghost use Rattle.code_rules.specs.FlatDesign.declared.value_types.ValueType.TheVariants as type;
ghost use Rattle.code_rules.specs.FlatDesign.declared.design.ChannelId.TheVariants as channel;
ghost use Rattle.code_rules.specs.FlatDesign.declared.design.Denoted.TheVariants as denoted;
ghost use Rattle.code_rules.specs.FlatDesign.declared.design.VisibleId.TheVariants as visible;
ghost use Rattle.design_rules.specs.Listing.{objects_of, list_of};
ghost use Rattle.design_rules.specs.Counting.{totals};
ghost use Rattle.design_rules.specs.Parts.{signals_of, resolved_of, fifos_of, semaphores_of, memories_of, variables_of, ports_of, hops_of, visible_of};
ghost use Rattle.design_rules.specs.Designs.{IsDesignOf};
ghost use Rattle.design_rules.specs.Written.{instances_in, processes_in, event, event_at, signal_of, instance, process_in, bool_signal, two_channels, method_events, with_sockets, of_each_kind, sensitive_to_both, seen};

/// A port stands for all its channels in a static sensitivity, in the order of its bindings; with a place for the one there,
/// and for none where that is not bound.
pub fn ports_stand_for_their_channels()
    ensures instances { instances_in (two_channels (codes "a") (codes "b") []) ≡
        instance 0 0 (signal_of 0 0 ∷ signal_of 1 3 ∷ denoted.Nothing ∷ []) ∷ instance 3 1 (denoted.Port 0 ∷ denoted.Process 0 ∷ []) ∷ [] }
    ensures all { method_events (event (codes "p") None ∷ []) ≡ process_in process_kind.Method 5 1 0 (ev.Fixed 0 ∷ ev.Fixed 3 ∷ []) ∷ [] }
    ensures edges { method_events (event (codes "p") (Some (codes "neg")) ∷ []) ≡ process_in process_kind.Method 5 1 0 (ev.Fixed 2 ∷ ev.Fixed 5 ∷ []) ∷ [] }
    ensures one { method_events (event_at (codes "p") 1 None ∷ event_at (codes "p") 0 (Some (codes "pos")) ∷ []) ≡ process_in process_kind.Method 5 1 0 (ev.Fixed 3 ∷ ev.Fixed 1 ∷ []) ∷ [] }
    ensures unbound { method_events (event_at (codes "p") 2 None ∷ []) ≡ process_in process_kind.Method 5 1 0 [] ∷ [] }
    ensures other_order { processes_in (two_channels (codes "b") (codes "a") (event (codes "p") None ∷ [])) ≡ process_in process_kind.Method 5 1 0 (ev.Fixed 3 ∷ ev.Fixed 0 ∷ []) ∷ [] }
{}

/// A socket stands for its end of the hop; the hop has the handlers of its sockets and the instances that these are in.
pub fn sockets_are_ends_of_hops()
    ensures instances { instances_in with_sockets ≡
        instance 0 0 (denoted.Nothing ∷ denoted.Nothing ∷ []) ∷ instance 1 1 (denoted.Socket 0 true ∷ denoted.Nothing ∷ denoted.Process 0 ∷ [])
        ∷ instance 4 2 (denoted.Socket 0 false ∷ denoted.Nothing ∷ []) ∷ [] }
    ensures hops { hops_of (objects_of with_sockets) ≡
        (record { initiator = 2; target = 5; initiator_home = 1; target_home = 2; backward = Some 0; blocking = None; forward = Some 2 }) ∷ [] }
    ensures processes { processes_in with_sockets ≡ process_in process_kind.Thread 3 1 1 [] ∷ [] }
{}

/// Each kind of object is numbered by its own place in object order, and events by the objects that have them. A function has a
/// body and no object.
pub fn kinds_are_numbered_apart()
    ensures instances { instances_in (of_each_kind []) ≡
        instance 0 0 (signal_of 0 0 ∷ denoted.Channel (channel.Fifo 0 3) ∷ denoted.Channel (channel.Resolved 0 5) ∷ denoted.Channel (channel.Mutex 0 8) ∷ denoted.Event 9
        ∷ denoted.Keeper 0 ∷ denoted.Channel (channel.Semaphore 0 10) ∷ denoted.Memory 0 ∷ denoted.Variable 0 ∷ signal_of 1 11 ∷ denoted.Nothing ∷ denoted.Process 1 ∷ []) ∷ [] }
    ensures signals { signals_of (list_of (of_each_kind [])) ≡
        bool_signal 1 0 ∷ (record { object = 10; kind = signal_kind.Signal; many = false; value_type = type.Int 8; initial = value.Int 8 7; events = 11 }) ∷ [] }
    ensures resolved { resolved_of (list_of (of_each_kind [])) ≡ (record { object = 3; events = 5 }) ∷ [] }
    ensures fifos { fifos_of (list_of (of_each_kind [])) ≡ (record { object = 2; value_type = type.Uint 8; size = 16; events = 3 }) ∷ [] }
    ensures semaphores { semaphores_of (list_of (of_each_kind [])) ≡ (record { object = 7; start = 3 }) ∷ [] }
    ensures memories { memories_of (list_of (of_each_kind [])) ≡ (record { object = 8; size = 64 }) ∷ [] }
    ensures variables { variables_of (list_of (of_each_kind [])) ≡ (record { object = 9; value_type = type.Time; initial = value.Moment 0 }) ∷ [] }
    ensures mutexes { (totals (list_of (of_each_kind []))).mutexes ≡ 1 }
    ensures keepers { (totals (list_of (of_each_kind []))).keepers ≡ 1 }
    ensures events { (totals (list_of (of_each_kind []))).events ≡ 14 }
    ensures visible { visible_of (list_of (of_each_kind [])) ≡
        (record { object = 1; id = visible.Signal 0 }) ∷ (record { object = 3; id = visible.Resolved 0 }) ∷ (record { object = 10; id = visible.Signal 1 }) ∷ [] }
    ensures processes { processes_in (of_each_kind (event (codes "e") None ∷ event (codes "f") (Some (codes "data_read")) ∷ event (codes "r") (Some (codes "neg"))
        ∷ event (codes "c") (Some (codes "pos")) ∷ event (codes "t") (Some (codes "reset_event")) ∷ event (codes "k") None ∷ [])) ≡
        process_in process_kind.Thread 1 0 0 [] ∷ process_in process_kind.Thread 11 0 2 (ev.Fixed 9 ∷ ev.Fixed 4 ∷ ev.Fixed 7 ∷ ev.Fixed 1 ∷ ev.Restarted 1 ∷ []) ∷ [] }
{}

/// A whole design, with its code.
pub fn a_design_is_that_of_its_tree()
    ensures { IsDesignOf sensitive_to_both seen }
{}
