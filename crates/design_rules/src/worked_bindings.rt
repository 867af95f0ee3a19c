//! The definitions, worked out for small objects written by hand: what they give there is computed by the checker.
#![tactic(auto, unfolding(crate::specs::Objects::path_up, crate::specs::Paths::ends_within, crate::specs::Paths::leaders_within))]

ghost use Rattle.std.specs.Prelude.{◌≡◌, ◌∷◌, [], codes, Some, None, true, false};
ghost use Rattle.code_rules.specs.ModelTree.declared.faults.Kind.TheVariants as kind;
ghost use Rattle.code_rules.specs.ModelTree.declared.types.BoundRule.TheVariants as rule;
ghost use Rattle.code_rules.specs.FlatDesign.declared.value_types.ValueType.TheVariants as type;
ghost use Rattle.code_rules.specs.FlatDesign.declared.objects.LeadsTo.TheVariants as leads;
ghost use Rattle.code_rules.specs.FlatDesign.declared.objects.ObjectForm.TheVariants as form;
ghost use Rattle.design_rules.specs.Fits.{fits};
ghost use Rattle.design_rules.specs.Paths.{ends_of, leaders_of};
ghost use Rattle.design_rules.specs.BindingFaults.{first_fault};
ghost use Rattle.design_rules.specs.Bound.{bound};
ghost use Rattle.design_rules.specs.WrittenBindings.{a_fault, bind, signal, buffer, fifo, clock, port, export, initiator, with_port, with_right, through_exports, port_first, port_last, two_ports, port_of_port, two_initiators, passed_on, from_inside, led_inside};

/// What reads signals fits those of its type, a clock, and what reads or writes such signals; what writes them fits no clock
/// and nothing that only reads.
pub fn signals_fit_by_type()
    ensures read { fits (leads.In type.Bool) (signal type.Bool) ≡ true }
    ensures read_other { fits (leads.In type.Bool) (signal type.Logic) ≡ false }
    ensures width { fits (leads.In (type.Int 8)) (signal (type.Int 9)) ≡ false }
    ensures sign { fits (leads.In (type.Int 8)) (signal (type.Uint 8)) ≡ false }
    ensures buffered { fits (leads.Out (type.Int 8)) (buffer (type.Int 8)) ≡ true }
    ensures clocked { fits (leads.In type.Bool) clock ≡ true }
    ensures clock_written { fits (leads.Out type.Bool) clock ≡ false }
    ensures clock_type { fits (leads.In type.Logic) clock ≡ false }
    ensures resolved { fits (leads.Out type.Logic) form.Resolved ≡ true }
    ensures resolved_type { fits (leads.In type.Bool) form.Resolved ≡ false }
    ensures reads_out { fits (leads.In type.Time) (port (leads.Out type.Time) 1 rule.One) ≡ true }
    ensures reads_in { fits (leads.In type.Time) (export (leads.In type.Time)) ≡ true }
    ensures writes_in { fits (leads.Out type.Time) (port (leads.In type.Time) 1 rule.One) ≡ false }
    ensures writes_out { fits (leads.Out type.Time) (export (leads.Out type.Time)) ≡ true }
    ensures port_type { fits (leads.In type.Time) (export (leads.Out type.Bool)) ≡ false }
{}

/// The other ports fit their channel, and the same word of the same type.
pub fn other_channels_fit_by_word()
    ensures fifo_read { fits (leads.FifoIn type.Bool) (fifo type.Bool) ≡ true }
    ensures fifo_written { fits (leads.FifoOut type.Bool) (fifo type.Bool) ≡ true }
    ensures fifo_type { fits (leads.FifoIn type.Bool) (fifo type.Logic) ≡ false }
    ensures fifo_signal { fits (leads.FifoIn type.Bool) (signal type.Bool) ≡ false }
    ensures signal_fifo { fits (leads.In type.Bool) (fifo type.Bool) ≡ false }
    ensures same_word { fits (leads.FifoIn type.Bool) (export (leads.FifoIn type.Bool)) ≡ true }
    ensures other_word { fits (leads.FifoIn type.Bool) (export (leads.FifoOut type.Bool)) ≡ false }
    ensures mutex { fits leads.Mutex form.Mutex ≡ true }
    ensures mutex_semaphore { fits leads.Mutex (form.Semaphore 1) ≡ false }
    ensures semaphore { fits leads.Semaphore (form.Semaphore 1) ≡ true }
    ensures semaphore_port { fits leads.Semaphore (port leads.Semaphore 1 rule.One) ≡ true }
    ensures semaphore_mutex { fits leads.Semaphore (export leads.Mutex) ≡ false }
{}

/// A binding whose ends differ in kind is the fault, at its line and with the path of its left end; with equal kinds there is none.
pub fn kinds_of_ends()
    ensures equal { first_fault (with_right (signal type.Bool) (port (leads.In type.Bool) 1 rule.One)) ≡ None }
    ensures differ { first_fault (with_right (signal type.Logic) (port (leads.In type.Bool) 1 rule.One)) ≡ Some (a_fault kind.KindDiffers 5 (codes "m.c.p")) }
    ensures clocked { first_fault (with_right clock (port (leads.In type.Bool) 1 rule.One)) ≡ None }
    ensures driven { first_fault (with_right clock (port (leads.Out type.Bool) 1 rule.One)) ≡ Some (a_fault kind.KindDiffers 5 (codes "m.c.p")) }
{}

/// A binding is judged before any object: the port that nothing is bound to comes second. Of two bindings the first decides.
pub fn bindings_are_judged_first()
    ensures unbound { first_fault (two_ports type.Bool type.Bool (bind 6 0 5 1 ∷ [])) ≡ Some (a_fault kind.Unbound 4 (codes "m.c.q")) }
    ensures differs { first_fault (two_ports type.Time type.Bool (bind 6 0 5 1 ∷ [])) ≡ Some (a_fault kind.KindDiffers 6 (codes "m.c.p")) }
    ensures second { first_fault (two_ports type.Bool type.Time (bind 6 0 5 1 ∷ bind 7 0 4 2 ∷ [])) ≡ Some (a_fault kind.KindDiffers 7 (codes "m.c.q")) }
    ensures first { first_fault (two_ports type.Time type.Time (bind 6 0 5 1 ∷ bind 7 0 4 2 ∷ [])) ≡ Some (a_fault kind.KindDiffers 6 (codes "m.c.p")) }
{}

/// A port that is bound to two channels has both, in the order of its bindings; one channel twice is a double binding, at the
/// line of the port, even where there are too many.
pub fn channels_of_a_port()
    ensures both { bound (with_port (port (leads.In type.Bool) 2 rule.One) (bind 5 0 4 1 ∷ bind 6 0 4 2 ∷ [])) ≡ record { ports = (record { object = 4; channels = 1 ∷ 2 ∷ [] }) ∷ []; hops = [] } }
    ensures accepted { first_fault (with_port (port (leads.In type.Bool) 2 rule.One) (bind 5 0 4 1 ∷ bind 6 0 4 2 ∷ [])) ≡ None }
    ensures order { ends_of (with_port (port (leads.In type.Bool) 2 rule.One) (bind 5 0 4 2 ∷ bind 6 0 4 1 ∷ [])) 4 ≡ 2 ∷ 1 ∷ [] }
    ensures twice { first_fault (with_port (port (leads.In type.Bool) 2 rule.One) (bind 5 0 4 1 ∷ bind 6 0 4 1 ∷ [])) ≡ Some (a_fault kind.DoubleBound 4 (codes "m.c.p")) }
    ensures apart { first_fault (with_port (port (leads.In type.Bool) 2 rule.One) (bind 5 0 4 1 ∷ bind 6 0 4 2 ∷ bind 7 0 4 1 ∷ [])) ≡ Some (a_fault kind.DoubleBound 4 (codes "m.c.p")) }
    ensures many { first_fault (with_port (port (leads.In type.Bool) 1 rule.One) (bind 5 0 4 1 ∷ bind 6 0 4 2 ∷ [])) ≡ Some (a_fault kind.TooMany 4 (codes "m.c.p")) }
{}

/// How many channels a port must have: one, none with `zero`, and as many as its size with `all_bound`.
pub fn bound_rules_of_a_port()
    ensures one { first_fault (with_port (port (leads.In type.Bool) 2 rule.One) (bind 5 0 4 1 ∷ [])) ≡ None }
    ensures none { first_fault (with_port (port (leads.In type.Bool) 2 rule.One) []) ≡ Some (a_fault kind.Unbound 4 (codes "m.c.p")) }
    ensures zero { first_fault (with_port (port (leads.In type.Bool) 2 rule.Zero) []) ≡ None }
    ensures zero_one { first_fault (with_port (port (leads.In type.Bool) 2 rule.Zero) (bind 5 0 4 1 ∷ [])) ≡ None }
    ensures zero_many { first_fault (with_port (port (leads.In type.Bool) 1 rule.Zero) (bind 5 0 4 1 ∷ bind 6 0 4 2 ∷ [])) ≡ Some (a_fault kind.TooMany 4 (codes "m.c.p")) }
    ensures all { first_fault (with_port (port (leads.In type.Bool) 2 rule.All) (bind 5 0 4 1 ∷ bind 6 0 4 2 ∷ [])) ≡ None }
    ensures all_few { first_fault (with_port (port (leads.In type.Bool) 2 rule.All) (bind 5 0 4 1 ∷ [])) ≡ Some (a_fault kind.Unbound 4 (codes "m.c.p")) }
    ensures all_none { first_fault (with_port (port (leads.In type.Bool) 2 rule.All) []) ≡ Some (a_fault kind.Unbound 4 (codes "m.c.p")) }
{}

/// A port that is bound twice through two exports has their channels, and is bound twice to one that both lead to.
pub fn two_exports_of_a_child()
    ensures apart { first_fault (through_exports 4 5) ≡ None }
    ensures channels { ends_of (through_exports 5 4) 2 ≡ 5 ∷ 4 ∷ [] }
    ensures together { first_fault (through_exports 4 4) ≡ Some (a_fault kind.DoubleBound 2 (codes "m.c.p")) }
{}

/// An export of an export leads on. One without a binding is unbound, and one with two is bound twice; a port before it
/// that leads there has no channel, or has it twice.
pub fn exports_in_a_row()
    ensures accepted { first_fault (port_first (bind 8 0 2 4 ∷ bind 6 3 4 7 ∷ bind 5 5 7 6 ∷ [])) ≡ None }
    ensures channels { bound (port_first (bind 8 0 2 4 ∷ bind 6 3 4 7 ∷ bind 5 5 7 6 ∷ [])) ≡ record { ports = (record { object = 2; channels = 6 ∷ [] }) ∷ []; hops = [] } }
    ensures unbound { first_fault (port_first (bind 8 0 2 4 ∷ bind 6 3 4 7 ∷ [])) ≡ Some (a_fault kind.Unbound 2 (codes "m.c.p")) }
    ensures twice { first_fault (port_first (bind 8 0 2 4 ∷ bind 6 3 4 7 ∷ bind 5 5 7 6 ∷ bind 7 5 7 6 ∷ [])) ≡ Some (a_fault kind.DoubleBound 2 (codes "m.c.p")) }
    ensures last { first_fault (port_last (bind 6 1 2 5 ∷ bind 5 3 5 4 ∷ bind 8 0 7 2 ∷ [])) ≡ None }
    ensures export_unbound { first_fault (port_last (bind 6 1 2 5 ∷ bind 8 0 7 2 ∷ [])) ≡ Some (a_fault kind.Unbound 5 (codes "m.d.e.y")) }
    ensures export_twice { first_fault (port_last (bind 6 1 2 5 ∷ bind 7 1 2 5 ∷ bind 5 3 5 4 ∷ bind 8 0 7 2 ∷ [])) ≡ Some (a_fault kind.DoubleBound 2 (codes "m.d.x")) }
{}

/// A port at the right end stands for its own list, at the place of its binding.
pub fn three_bindings_in_order()
    ensures accepted { first_fault (port_of_port (bind 11 3 6 4 ∷ bind 12 3 6 7 ∷ bind 13 0 4 2 ∷ bind 14 0 4 1 ∷ [])) ≡ None }
    ensures before { ends_of (port_of_port (bind 11 3 6 4 ∷ bind 12 3 6 7 ∷ bind 13 0 4 2 ∷ bind 14 0 4 1 ∷ [])) 6 ≡ 2 ∷ 1 ∷ 7 ∷ [] }
    ensures after { ends_of (port_of_port (bind 11 3 6 7 ∷ bind 12 3 6 4 ∷ bind 13 0 4 1 ∷ bind 14 0 4 2 ∷ [])) 6 ≡ 7 ∷ 1 ∷ 2 ∷ [] }
    ensures all { bound (port_of_port (bind 11 3 6 4 ∷ bind 12 3 6 7 ∷ bind 13 0 4 2 ∷ [])) ≡ record { ports = (record { object = 4; channels = 2 ∷ [] }) ∷ (record { object = 6; channels = 2 ∷ 7 ∷ [] }) ∷ []; hops = [] } }
{}

/// An initiator is bound once, and a target is led to by one initiator.
pub fn initiators_and_targets()
    ensures two { first_fault (two_initiators (bind 7 0 2 6 ∷ bind 8 0 4 6 ∷ [])) ≡ Some (a_fault kind.DoubleBound 6 (codes "m.g.t")) }
    ensures unbound { first_fault (two_initiators (bind 7 0 2 6 ∷ [])) ≡ Some (a_fault kind.Unbound 4 (codes "m.j.s")) }
    ensures twice { first_fault (two_initiators (bind 7 0 2 6 ∷ bind 8 0 2 6 ∷ [])) ≡ Some (a_fault kind.DoubleBound 2 (codes "m.i.s")) }
    ensures leaders { leaders_of (two_initiators (bind 7 0 2 6 ∷ bind 8 0 4 6 ∷ [])) 6 ≡ 2 ∷ 4 ∷ [] }
{}

/// A target with `pass` hands on; two initiators that lead to it are a fault of it. One that no initiator leads to is no fault:
/// the target behind it is unbound, since only initiators without `pass` lead.
pub fn sockets_that_pass()
    ensures two { first_fault (passed_on initiator (bind 10 0 2 6 ∷ bind 11 0 4 6 ∷ bind 12 5 6 8 ∷ [])) ≡ Some (a_fault kind.DoubleBound 6 (codes "m.d.t")) }
    ensures one { first_fault (passed_on (signal type.Bool) (bind 10 0 2 6 ∷ bind 12 5 6 8 ∷ [])) ≡ None }
    ensures hop { bound (passed_on (signal type.Bool) (bind 10 0 2 6 ∷ bind 12 5 6 8 ∷ [])) ≡ record { ports = []; hops = (record { initiator = 2; target = 8 }) ∷ [] } }
    ensures unbound { first_fault (passed_on (signal type.Bool) (bind 10 0 2 6 ∷ [])) ≡ Some (a_fault kind.Unbound 6 (codes "m.d.t")) }
    ensures twice { first_fault (passed_on (signal type.Bool) (bind 10 0 2 6 ∷ bind 12 5 6 8 ∷ bind 13 5 6 8 ∷ [])) ≡ Some (a_fault kind.DoubleBound 6 (codes "m.d.t")) }
    ensures nobody { first_fault (led_inside (bind 10 1 2 4 ∷ bind 11 1 6 4 ∷ [])) ≡ None }
    ensures nobody_hop { bound (led_inside (bind 10 1 2 4 ∷ bind 11 1 6 4 ∷ [])) ≡ record { ports = []; hops = (record { initiator = 6; target = 4 }) ∷ [] } }
    ensures nobody_behind { first_fault (led_inside (bind 10 1 2 4 ∷ [])) ≡ Some (a_fault kind.Unbound 4 (codes "m.d.e.u")) }
    ensures inside { first_fault (from_inside initiator (bind 10 0 2 6 ∷ bind 11 1 4 2 ∷ [])) ≡ None }
    ensures inside_hop { bound (from_inside initiator (bind 10 0 2 6 ∷ bind 11 1 4 2 ∷ [])) ≡ record { ports = []; hops = (record { initiator = 4; target = 6 }) ∷ [] } }
    ensures led_by_none { first_fault (from_inside (signal type.Bool) (bind 10 0 2 6 ∷ [])) ≡ Some (a_fault kind.Unbound 6 (codes "m.g.t")) }
{}
