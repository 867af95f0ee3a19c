//! The run of accepted texts.
ghost use Rattle.std.specs.Prelude.{◌≡◌, ◌≤◌, ◌^◌, IfSome, None};
ghost use Rattle.session.specs.SimIo.Cause.{Rose, RoseIf};
ghost use Rattle.session.specs.SimIo.Keeps.{WriteKeeps};
ghost use Rattle.session.specs.SimIo.Contents.{Grew};
ghost use Rattle.command_line.specs.SimModel.Configuration.{start};
ghost use Rattle.command_line.specs.SimModel.declared.plain.Stop.{Stop};
ghost use Rattle.session.specs.Course.{Ran};
ghost use Rattle.session.specs.Outputs.{AreNames, OneRose, Took, outer_of};
ghost use Rattle.run_input.specs.Acceptance.{CanRun};
ghost use Rattle.tlmsim.specs.Requests as spec;
ghost use Rattle.tlmsim.specs.Orderly.{HadNoEnd, Orderly};

use command_line::Order;
use command_line::sim_model_api::Rule;
use flat_design::Design;
use laws_runs::{
    a_freed_payload_comes_first, all_guards_stand_below_an_end, calls_unwind_what_is_entered,
    faults_of_the_protocol_are_exact, histories_are_lawful, no_earlier_end,
    nothing_names_what_has_ended, protocol_faults_come_with_entries, runs_are_clean,
    unwind_blocks_run_once, unwinding_ends_before_the_caller_goes_on,
    what_has_ended_never_runs_again,
};
use run_input::script_text_api::Script;
use session::sim_io_api::{Shelf, Sink, SoundShelf};
use session::{Outcome, Plan, run_session};
use std::alloc::Global;

/// The rule of choices that is an order.
pub(crate) fn rule_of(order: Order) -> Rule
    ensures { result ≡ spec.rule_of order }
{
    match order {
        Order::First => Rule::First,
        Order::Last => Rule::Last,
        Order::Seed(seed) => Rule::Seed(seed),
    }
}

/// Runs a session that has no files: over a shelf without files, whose calls never fail. What it writes goes to `out`.
fn run_alone<O: Sink>(
    alloc: Global,
    design: Design,
    script: &Script,
    plan: Plan,
    out: &mut O,
) -> Outcome
    requires runs { CanRun design }
    requires budget { plan.budget ≤ 2 ^ 26 }
    requires untraced { plan.vcd ≡ None }
    requires unlisted { plan.choices ≡ None }
    ensures ran { Ran (start design script.now) plan result.choices result.steps result.stop (λ t. Grew (O.holds out.old) (O.holds out.new) t.report) }
    ensures cause { RoseIf (O.faults out.old) (O.faults out.new) (result.stop ≡ Stop.WriteFault) }
{
    let mut silent = SoundShelf::new(Vec::new(alloc));
    run_session(alloc, design, script.as_slice(), plan, &mut silent, out)
}

/// Runs a session over the shelf where it has files, and else without it.
fn run_planned<S: Shelf, O: Sink>(
    alloc: Global,
    design: Design,
    script: &Script,
    plan: Plan,
    shelf: &mut S,
    out: &mut O,
) -> Outcome
    requires runs { CanRun design }
    requires budget { plan.budget ≤ 2 ^ 26 }
    requires created { IfSome plan.vcd (S.created shelf.old) }
    requires listed { IfSome plan.choices (S.created shelf.old) }
    ensures ran { Ran (start design script.now) plan result.choices result.steps result.stop (Took (AreNames S.stands shelf.old plan.vcd plan.choices)
        (outer_of S.files O.holds shelf.old out.old) (outer_of S.files O.holds shelf.new out.new)) }
    ensures kept { WriteKeeps S.files S.reads S.reading S.created S.stands shelf.old shelf.new }
    ensures cause { OneRose (O.faults out.old) (O.faults out.new) (S.writes shelf.old) (S.writes shelf.new) (result.stop ≡ Stop.WriteFault) }
    ensures alone { plan.vcd ≡ None → plan.choices ≡ None → result.stop ≡ Stop.WriteFault → Rose (O.faults out.old) (O.faults out.new) }
{
    match (plan.vcd, plan.choices) {
        (None, None) => run_alone(alloc, design, script, plan, out),
        (Some(_), None) | (None, Some(_)) | (Some(_), Some(_)) => run_session(
            alloc,
            design,
            script.as_slice(),
            plan,
            shelf,
            out,
        ),
    }
}

/// Runs the session of accepted texts as the plan has it: its rule picks each process that is taken (IEEE 1666-2011,
/// 4.2.1.2), and the report goes to `out`. Where the plan has no files, the shelf has no part in it.
pub(crate) fn run<S: Shelf, O: Sink>(
    alloc: Global,
    design: Design,
    script: &Script,
    plan: Plan,
    shelf: &mut S,
    out: &mut O,
) -> Outcome
    requires runs { CanRun design }
    requires budget { plan.budget ≤ 2 ^ 26 }
    requires created { IfSome plan.vcd (S.created shelf.old) }
    requires listed { IfSome plan.choices (S.created shelf.old) }
    ensures orderly { Orderly design script.now }
    ensures ran { Ran (start design script.now) plan result.choices result.steps result.stop (Took (AreNames S.stands shelf.old plan.vcd plan.choices)
        (outer_of S.files O.holds shelf.old out.old) (outer_of S.files O.holds shelf.new out.new)) }
    ensures no_end_before { HadNoEnd (start design script.now) plan result.choices result.steps }
    ensures kept { WriteKeeps S.files S.reads S.reading S.created S.stands shelf.old shelf.new }
    ensures cause { OneRose (O.faults out.old) (O.faults out.new) (S.writes shelf.old) (S.writes shelf.new) (result.stop ≡ Stop.WriteFault) }
    ensures alone { plan.vcd ≡ None → plan.choices ≡ None → result.stop ≡ Stop.WriteFault → Rose (O.faults out.old) (O.faults out.new) }
{
    no_earlier_end();
    runs_are_clean();
    what_has_ended_never_runs_again();
    nothing_names_what_has_ended();
    calls_unwind_what_is_entered();
    all_guards_stand_below_an_end();
    unwind_blocks_run_once();
    unwinding_ends_before_the_caller_goes_on();
    histories_are_lawful();
    faults_of_the_protocol_are_exact();
    a_freed_payload_comes_first();
    protocol_faults_come_with_entries();
    run_planned(alloc, design, script, plan, shelf, out)
}
