//! Texts written by hand, and what the definition says of them, computed by the checker.
ghost use Rattle.std.specs.Prelude.{◌≡◌, codes, [], Ok, Err, Some, None};
ghost use Rattle.traffic_file.specs.declared.stops.BusKind.TheVariants as kind;
ghost use Rattle.traffic_file.specs.declared.stops.BusStop.TheVariants as stop;
ghost use Rattle.traffic_file.specs.TextLines.declared.actions.BusAction.TheVariants as action;
ghost use Rattle.traffic_file.specs.TextLines.declared.forms.LineForm.TheVariants as line;
ghost use Rattle.traffic_file.specs.BusText.{bus_of, judged, target_fault, initiator_fault};
ghost use Rattle.worked_models.specs.TrafficTexts as worked;

/// Each line is in the bus, in the order of the file.
pub fn lines_are_read()
    ensures two_memories { bus_of worked.two_memories ≡ Ok worked.two_memories_bus }
    ensures with_grants { bus_of worked.with_grants ≡ Ok worked.with_grants_bus }
    ensures reserved_words { bus_of worked.reserved_words ≡ Ok worked.reserved_words_bus }
    ensures empty { bus_of [] ≡ Ok worked.empty_bus }
{}

/// A line that has none of the forms decides before each fault.
pub fn forms_come_before_faults()
    ensures last { bus_of (codes "target x 0 4 1\ntarget x 9 4 1\nfoo") ≡ Err (stop.Syntax 3) }
    ensures blank_before_comment { bus_of (codes " # x") ≡ Err (stop.Syntax 1) }
    ensures low_above_high { bus_of (codes "target x 0 4 1\ninitiator a\ninvalidate 1 5 4") ≡ Err (stop.Syntax 3) }
    ensures no_size { bus_of (codes "target x 0 0 1") ≡ Err (stop.Syntax 1) }
    ensures late { bus_of (codes "initiator a\nat 0x10000000000 a read 0 1") ≡ Err (stop.Syntax 2) }
    ensures half_a_byte { bus_of (codes "initiator a\nat 0 a write 0 123") ≡ Err (stop.Syntax 2) }
{}

/// The first line with a fault decides, and at it the first of its faults.
pub fn faults_have_their_order()
    ensures overlap { bus_of (codes "target x 0 16 1\ntarget y 8 4 1") ≡ Err (stop.Refused kind.Overlap 2 (codes "y")) }
    ensures same_name { bus_of (codes "target x 0 4 1\ninitiator x") ≡ Err (stop.Refused kind.DoubleName 2 (codes "x")) }
    ensures second_delay { bus_of (codes "delay 1\ndelay 2") ≡ Err (stop.Refused kind.DoubleName 2 (codes "delay")) }
    ensures unknown { bus_of (codes "initiator a\nat 0 b read 0 1") ≡ Err (stop.Refused kind.UnknownName 2 (codes "b")) }
    ensures later { bus_of (codes "target x 0 4 1\nat 0 a read 0 1\ninitiator a") ≡ Err (stop.Refused kind.UnknownName 2 (codes "a")) }
    ensures past_the_last { bus_of (codes "target x 0xfffffffffffffffd 4 1") ≡ Err (stop.Refused kind.TooMany 1 (codes "x")) }
    ensures much { bus_of (codes "target x 0 67108864 1\ntarget y 0x10000000 1 1") ≡ Err (stop.Refused kind.TooMany 2 (codes "y")) }
    ensures too_many_before_overlap { bus_of (codes "target x 0 67108864 1\ntarget y 8 1 1") ≡ Err (stop.Refused kind.TooMany 2 (codes "y")) }
    ensures double_before_too_many { bus_of (codes "target x 0 67108864 1\ntarget x 8 1 1") ≡ Err (stop.Refused kind.DoubleName 2 (codes "x")) }
{}

/// There are at most 256 targets, 256 initiators, and 4,096 accesses and invalidations together.
pub fn limits_are_counted()
    ensures last_target { target_fault (worked.with_names 255 256) (codes "y") 0 1 ≡ None }
    ensures one_target_more { target_fault (worked.with_names 256 0) (codes "y") 0 1 ≡ Some kind.TooMany }
    ensures last_initiator { initiator_fault (worked.with_names 256 255) (codes "b") ≡ None }
    ensures one_initiator_more { initiator_fault (worked.with_names 0 256) (codes "b") ≡ Some kind.TooMany }
    ensures last_line { judged (worked.with_lines 4000 95) 4099 (line.Invalidate 1 0 1) ≡ Ok (worked.with_lines 4000 96) }
    ensures one_invalidation_more { judged (worked.with_lines 4096 0) 4099 (line.Invalidate 1 0 1) ≡ Err (stop.Refused kind.TooMany 4099 (codes "invalidate")) }
    ensures one_access_more { judged (worked.with_lines 0 4096) 4099 (line.Access 0 (codes "a") 0 (action.Get 1)) ≡ Err (stop.Refused kind.TooMany 4099 (codes "a")) }
    ensures unknown_comes_first { judged (worked.with_lines 0 4096) 4099 (line.Access 0 (codes "b") 0 (action.Get 1)) ≡ Err (stop.Refused kind.UnknownName 4099 (codes "b")) }
{}
