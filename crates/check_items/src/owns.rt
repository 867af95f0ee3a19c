ghost use Rattle.std.specs.Prelude.{◌≡◌, Some, false};
ghost use Rattle.model_tree.specs.Tree as tree;
ghost use Rattle.check_statements.specs.ModelRules.Operators as operators;
ghost use Rattle.check_statements.specs.ModelRules.Passes.{constructs, fault_of};
ghost use Rattle.check_statements.specs.ModelRules.Sites as sites;
ghost use Rattle.check_statements.specs.ModelRules.Values as values;
ghost use Rattle.check_statements.specs.CheckNames.Places.{scope_of};
ghost use Rattle.check_statements.specs.CheckExpressions.Findings.{faults_of, told};
ghost use Rattle.check_items.specs.Whole.{item_fault};
ghost use Rattle.check_statements.specs.CheckActions.Uses.{site_fault};
ghost use Rattle.check_statements.specs.ModelRules.Calls as calls;
ghost use Rattle.check_statements.specs.ModelRules.Names as names;
ghost use Rattle.model_tree.specs.declared.faults.Kind.TheVariants as kind;
ghost use Rattle.model_tree.specs.declared.items.InitiatorRole.TheVariants as initiator_role;
ghost use Rattle.model_tree.specs.declared.items.TargetRole.TheVariants as target_role;

use super::bindings::{bind_finding, end_finding};
use super::constants::{
    constant_finding, constant_type, initial_type, is_clock, is_fifo_size, is_late_clock,
    is_port_size, is_start,
};
use super::handlers::{blocking_handler, nonblocking_handler};
use check_statements::check_actions_api::{Used, misfits, site_finding};
use check_statements::check_expressions_api::{Finding, first_finding, is_integer, told_if};
use check_statements::check_names_api::{Place, port_size, signal_type, variable_type};
use check_statements::model_rules_api::{ExpressionType, Need};
use check_statements::{type_finding, variable_type_finding};
use model_tree::{
    ClockItem, Constant, End, InitiatorRole, Interface, Kind, Name, PortSize, SignalItem,
    SignalType, TargetRole, VarType,
};

/// A signal or a buffer: itself, its type and its first value.
pub fn signal_finding<'a>(
    place: &Place<'a>,
    line: u32,
    signal: &'a SignalItem,
) -> Option<Finding<'a>>
    ensures { faults_of result ≡ item_fault (scope_of place.now) (tree.signal line signal.now) }
{
    let differs = misfits(signal_type(signal.value_type), initial_type(signal.initial));
    let own = told_if(differs, Kind::TypeDiffers, line, place.around);
    let parts = first_finding(
        type_finding(place, signal.value_type),
        constant_finding(place, signal.initial),
    );
    first_finding(own, parts)
}

/// A clock.
#[tactic(auto, using(crate::proofs::ItemLemmas::clock_is))]
pub fn clock_finding<'a>(place: &Place<'a>, line: u32, clock: &'a ClockItem) -> Option<Finding<'a>>
    ensures { faults_of result ≡ item_fault (scope_of place.now) (tree.clock line clock.now) }
{
    if is_late_clock(clock) {
        return told_if(true, Kind::LiteralRange, line, place.around);
    }
    told_if(!is_clock(clock), Kind::BadClock, line, clock.name.bytes())
}

/// A fifo: itself and its type.
pub fn fifo_finding<'a>(
    place: &Place<'a>,
    line: u32,
    t: SignalType,
    name: &'a Name,
    size: Option<u64>,
) -> Option<Finding<'a>>
    ensures { faults_of result ≡ item_fault (scope_of place.now) (tree.fifo line t name.now size) }
{
    let own = told_if(!is_fifo_size(size), Kind::FifoSize, line, name.bytes());
    first_finding(own, type_finding(place, t))
}

/// Whether a type that is known is no integer.
fn is_no_integer(e: Option<ExpressionType>) -> bool
    ensures { result ≡ values.fails operators.is_integer e }
{
    match e {
        None => false,
        Some(e) => !is_integer(e),
    }
}

/// A semaphore: itself and its first value.
pub fn semaphore_finding<'a>(
    place: &Place<'a>,
    line: u32,
    name: &'a Name,
    constant: Constant,
) -> Option<Finding<'a>>
    ensures { faults_of result ≡ item_fault (scope_of place.now) (tree.semaphore line name.now constant) }
{
    let differs = is_no_integer(constant_type(constant.form));
    let types = told_if(differs, Kind::TypeDiffers, line, place.around);
    let range = told_if(
        !is_start(constant.form),
        Kind::SemaphoreRange,
        line,
        name.bytes(),
    );
    first_finding(
        first_finding(types, range),
        constant_finding(place, Some(constant)),
    )
}

/// A variable: itself, its type and its first value.
pub fn variable_finding<'a>(
    place: &Place<'a>,
    line: u32,
    var_type: VarType,
    name: &'a Name,
    constant: Option<Constant>,
) -> Option<Finding<'a>>
    ensures { faults_of result ≡ item_fault (scope_of place.now) (tree.variable line var_type name.now constant) }
{
    let differs = misfits(variable_type(var_type), initial_type(constant));
    let own = told_if(differs, Kind::TypeDiffers, line, place.around);
    let parts = first_finding(
        variable_type_finding(place, var_type),
        constant_finding(place, constant),
    );
    first_finding(own, parts)
}

/// The type of what a port or an export leads to.
pub fn interface_finding<'a>(place: &Place<'a>, interface: Interface) -> Option<Finding<'a>>
    ensures { faults_of result ≡ fault_of constructs (sites.interface_sites (scope_of place.now) interface) }
{
    match interface {
        Interface::In(t) | Interface::Out(t) | Interface::FifoIn(t) | Interface::FifoOut(t) => {
            type_finding(place, t)
        }
        Interface::Mutex | Interface::Semaphore => None,
    }
}

/// A port: itself and its type.
pub fn port_finding<'a>(
    place: &Place<'a>,
    line: u32,
    interface: Interface,
    name: &'a Name,
    size: Option<PortSize>,
) -> Option<Finding<'a>>
    ensures { faults_of result ≡ item_fault (scope_of place.now) (tree.port line interface name.now size) }
{
    let own = told_if(
        !is_port_size(port_size(size)),
        Kind::PortSize,
        line,
        name.bytes(),
    );
    first_finding(own, interface_finding(place, interface))
}

/// An initiator socket that keeps calls, with its handler.
fn own_initiator_finding<'a>(
    place: &Place<'a>,
    line: u32,
    backward: &'a Option<Name>,
) -> Option<Finding<'a>>
    ensures { faults_of result ≡ site_fault (scope_of place.now) line (names.initiator_uses (initiator_role.Own backward.now)) false (told kind.BadHandler line (calls.initiator_handler (scope_of place.now) (initiator_role.Own backward.now))) }
{
    let extra = nonblocking_handler(place, line, backward);
    match backward {
        None => site_finding(place, line, &[], false, extra),
        Some(backward) => {
            let uses = [Used {
                name: backward.bytes(),
                need: Need::Function,
            }];
            site_finding(place, line, &uses, false, extra)
        }
    }
}

/// An initiator socket.
#[tactic(auto, using(crate::proofs::ItemLemmas::initiator_is))]
pub fn initiator_finding<'a>(
    place: &Place<'a>,
    line: u32,
    name: &'a Name,
    role: &'a InitiatorRole,
) -> Option<Finding<'a>>
    ensures { faults_of result ≡ item_fault (scope_of place.now) (tree.initiator line name.now role.now) }
{
    match role {
        InitiatorRole::Pass => None,
        InitiatorRole::Own(backward) => own_initiator_finding(place, line, backward),
    }
}

/// The findings of the handlers of a target socket.
fn target_handlers<'a>(
    place: &Place<'a>,
    line: u32,
    blocking: &'a Option<Name>,
    forward: &'a Option<Name>,
) -> Option<Finding<'a>>
    ensures { faults_of result ≡ told kind.BadHandler line (calls.target_handler (scope_of place.now) (target_role.Own blocking.now forward.now)) }
{
    first_finding(
        blocking_handler(place, line, blocking),
        nonblocking_handler(place, line, forward),
    )
}

/// A target socket that keeps calls, with its handlers.
fn own_target_finding<'a>(
    place: &Place<'a>,
    line: u32,
    blocking: &'a Option<Name>,
    forward: &'a Option<Name>,
) -> Option<Finding<'a>>
    ensures { faults_of result ≡ site_fault (scope_of place.now) line (names.target_uses (target_role.Own blocking.now forward.now)) false (told kind.BadHandler line (calls.target_handler (scope_of place.now) (target_role.Own blocking.now forward.now))) }
{
    let extra = target_handlers(place, line, blocking, forward);
    match (blocking, forward) {
        (None, None) => site_finding(place, line, &[], false, extra),
        (Some(blocking), None) => {
            let uses = [Used {
                name: blocking.bytes(),
                need: Need::Function,
            }];
            site_finding(place, line, &uses, false, extra)
        }
        (None, Some(forward)) => {
            let uses = [Used {
                name: forward.bytes(),
                need: Need::Function,
            }];
            site_finding(place, line, &uses, false, extra)
        }
        (Some(blocking), Some(forward)) => {
            let uses = [
                Used {
                    name: blocking.bytes(),
                    need: Need::Function,
                },
                Used {
                    name: forward.bytes(),
                    need: Need::Function,
                },
            ];
            site_finding(place, line, &uses, false, extra)
        }
    }
}

/// A target socket.
#[tactic(auto, using(crate::proofs::ItemLemmas::target_is))]
pub fn target_finding<'a>(
    place: &Place<'a>,
    line: u32,
    name: &'a Name,
    role: &'a TargetRole,
) -> Option<Finding<'a>>
    ensures { faults_of result ≡ item_fault (scope_of place.now) (tree.target line name.now role.now) }
{
    match role {
        TargetRole::Pass => None,
        TargetRole::Own(blocking, forward) => own_target_finding(place, line, blocking, forward),
    }
}

/// An instance of a module.
pub fn instance_finding<'a>(
    place: &Place<'a>,
    line: u32,
    kind: &'a Name,
    name: &'a Name,
) -> Option<Finding<'a>>
    ensures { faults_of result ≡ item_fault (scope_of place.now) (tree.instance line kind.now name.now) }
{
    let _name = name;
    told_if(
        !place.model.is_module(kind.bytes()),
        Kind::UnknownName,
        line,
        kind.bytes(),
    )
}

/// A binding: itself and its ends.
pub fn binding_finding<'a>(
    place: &Place<'a>,
    line: u32,
    left: &'a End,
    right: &'a End,
) -> Option<Finding<'a>>
    ensures { faults_of result ≡ item_fault (scope_of place.now) (tree.bind line left.now right.now) }
{
    let own = bind_finding(place, line, left, right);
    first_finding(
        own,
        first_finding(end_finding(place, left), end_finding(place, right)),
    )
}
