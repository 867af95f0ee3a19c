ghost use Rattle.std.specs.Prelude.{◌≡◌, false};
ghost use Rattle.model_tree.specs.Tree as tree;
ghost use Rattle.check_statements.specs.ModelRules.Targets as targets;
ghost use Rattle.check_statements.specs.ModelRules.Items as items;
ghost use Rattle.check_statements.specs.ModelRules.Passes.{constructs, fault_of};
ghost use Rattle.check_statements.specs.ModelRules.Sites as sites;
ghost use Rattle.check_statements.specs.ModelRules.Values as values;
ghost use Rattle.check_statements.specs.CheckNames.Places.{scope_of};
ghost use Rattle.check_statements.specs.CheckExpressions.Findings.{faults_of};

use check_statements::check_expressions_api::{Finding, is_time_literal, told_if};
use check_statements::check_names_api::Place;
use check_statements::model_rules_api::ExpressionType;
use check_statements::sim_time_api::picoseconds_of;
use model_tree::{ClockItem, Constant, ConstantForm, Kind, Span};

/// Whether a constant is a time past 2^64 - 1 picoseconds.
fn is_late_constant(form: ConstantForm) -> bool
    ensures { result ≡ values.late_constant form }
{
    match form {
        ConstantForm::Time(n, unit) => !is_time_literal(n, unit),
        ConstantForm::Number(_)
        | ConstantForm::Negative(_)
        | ConstantForm::Logic(_)
        | ConstantForm::Truth(_) => false,
    }
}

/// The first broken rule at a constant, where one is written.
pub fn constant_finding<'a>(place: &Place<'a>, constant: Option<Constant>) -> Option<Finding<'a>>
    ensures { faults_of result ≡ fault_of constructs (sites.constant_sites (scope_of place.now) constant) }
{
    match constant {
        None => None,
        Some(constant) => told_if(
            is_late_constant(constant.form),
            Kind::LiteralRange,
            constant.line,
            place.around,
        ),
    }
}

/// The type of a logic literal of this width.
fn digits_type(width: u8) -> ExpressionType
    ensures { result ≡ targets.digits_type width }
{
    if width == 1 {
        ExpressionType::Logic
    } else {
        ExpressionType::Vector(width)
    }
}

/// The type of a constant; none where it is a time out of range.
pub fn constant_type(form: ConstantForm) -> Option<ExpressionType>
    ensures { result ≡ targets.constant_type form }
{
    match form {
        ConstantForm::Number(_) | ConstantForm::Negative(_) => Some(ExpressionType::Free),
        ConstantForm::Time(n, unit) => {
            if is_time_literal(n, unit) {
                Some(ExpressionType::Time)
            } else {
                None
            }
        }
        ConstantForm::Logic(v) => Some(digits_type(v.width)),
        ConstantForm::Truth(_) => Some(ExpressionType::Bool),
    }
}

/// The type of a first value, where one is written and its type is known.
pub fn initial_type(constant: Option<Constant>) -> Option<ExpressionType>
    ensures { result ≡ values.initial_type constant }
{
    match constant {
        None => None,
        Some(constant) => constant_type(constant.form),
    }
}

/// Whether a semaphore may start with this value: 0 to 2,147,483,647.
pub fn is_start(form: ConstantForm) -> bool
    ensures { result ≡ items.is_start form }
{
    match form {
        ConstantForm::Number(n) => n <= 2_147_483_647,
        ConstantForm::Negative(n) => n == 0,
        ConstantForm::Time(_, _) | ConstantForm::Logic(_) | ConstantForm::Truth(_) => true,
    }
}

/// Whether a fifo may have this size: 1 to 65,536, where one is written.
pub fn is_fifo_size(size: Option<u64>) -> bool
    ensures { result ≡ items.is_fifo_size size }
{
    match size {
        None => true,
        Some(size) => 1 <= size && size <= 65_536,
    }
}

/// Whether a port may have this size: 1 to 64.
pub fn is_port_size(size: u64) -> bool
    ensures { result ≡ items.is_port_size size }
{
    1 <= size && size <= 64
}

fn is_late(span: Span) -> bool
    ensures { result ≡ values.is_late span }
{
    !is_time_literal(span.count, span.unit)
}

fn is_late_if(span: Option<Span>) -> bool
    ensures { result ≡ values.is_late_if span }
{
    match span {
        None => false,
        Some(span) => is_late(span),
    }
}

/// Whether one of the times of a clock is past 2^64 - 1 picoseconds.
pub fn is_late_clock(clock: &ClockItem) -> bool
    ensures { result ≡ values.late_item (tree.clock 1 clock.now) }
{
    is_late(clock.period) || is_late(clock.high) || is_late_if(clock.start)
}

/// Whether a clock is high for more than no time, and for less than its period.
pub fn is_clock(clock: &ClockItem) -> bool
    ensures { values.is_late clock.now.period ≡ false → values.is_late clock.now.high ≡ false → result ≡ items.is_clock clock.now }
{
    let period = picoseconds_of(clock.period.count, clock.period.unit);
    let high = picoseconds_of(clock.high.count, clock.high.unit);
    match (period, high) {
        (Some(period), Some(high)) => 0 < high.0 && high.0 < period.0,
        _ => false,
    }
}
