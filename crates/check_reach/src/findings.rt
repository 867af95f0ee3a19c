//! What is found at a statement, by what it does and where it stands.
ghost use Rattle.std.specs.Prelude.{◌≡◌, ◌||◌, option_map};
ghost use Rattle.model_tree.specs.Views.{statement_of};
ghost use Rattle.check_expressions.specs.ModelRules.Names.{first};
ghost use Rattle.check_expressions.specs.ModelRules.Reach as reach;
ghost use Rattle.check_expressions.specs.CheckNames.ModuleNames.{items_of};
ghost use Rattle.check_expressions.specs.Findings.{faults_of};
ghost use Rattle.check_reach.specs.Flat.{placed_of, placed_list, seen, seen_list};
ghost use Rattle.check_reach.specs.Sets.{AreSets, marked_at, number_of};
ghost use Rattle.check_reach.specs.Findings as spec;

use super::begun::called;
use super::bodies::FlatBody;
use super::deeds::blocks_itself;
use super::placed::PlacedStatement;
use super::sets::Sets;
use check_expressions::check_names_api::ModuleNames;
use check_expressions::{Finding, first_finding, told_if};
use model_tree::{Action, Kind, Operation, Statement};

/// What a statement does.
#[derive(Clone, Copy)]
pub struct Deed {
    /// It blocks.
    pub blocks: bool,
    /// It sets a next trigger.
    pub triggers: bool,
    /// It throws.
    pub throws: bool,
    /// It spawns.
    pub spawns: bool,
    /// It is a transport call.
    pub transports: bool,
}

/// Where the statements of a body stand.
#[derive(Clone, Copy)]
pub struct Standing {
    /// In a method, or reached from one.
    pub in_method: bool,
    /// In a thread, or reached from one or from a handler.
    pub in_thread: bool,
    /// Reached from a handler of non-blocking calls.
    pub in_nonblocking: bool,
    /// Reached from an unwind block.
    pub in_unwinding: bool,
}

/// Whether a name with this number is in a set.
fn is_in(marks: &[bool], number: Option<usize>) -> bool
    ensures { result ≡ marked_at marks.now number }
{
    match number {
        None => false,
        Some(number) => match marks.get(number) {
            Some(marked) => *marked,
            None => true,
        },
    }
}

/// Whether a name is that of a function which blocks, where there is one.
fn calls_blocking(names: &ModuleNames<'_>, sets: &Sets, name: Option<&[u8]>) -> bool
    requires sets { AreSets (items_of names.now) sets.now }
    ensures { result ≡ spec.is_blocking_name (items_of names.now) (option_map (λ n. n.now) name.entry) }
{
    match name {
        None => false,
        Some(name) => is_in(sets.blocking.as_slice(), names.place(name)),
    }
}

/// Whether a statement blocks.
fn is_blocking(names: &ModuleNames<'_>, sets: &Sets, statement: &Statement) -> bool
    requires sets { AreSets (items_of names.now) sets.now }
    ensures { result ≡ reach.is_blocking (items_of names.now) (statement_of statement.now) }
{
    blocks_itself(names, statement) || calls_blocking(names, sets, called(statement))
}

fn triggers(statement: &Statement) -> bool
    ensures { result ≡ reach.acts reach.is_next_trigger (statement_of statement.now) }
{
    matches!(statement, Statement::Act(_, Action::NextTrigger(_)))
}

fn throws(statement: &Statement) -> bool
    ensures { result ≡ reach.acts reach.is_throw (statement_of statement.now) }
{
    matches!(statement, Statement::Act(_, Action::Throw(_)))
}

fn spawns(statement: &Statement) -> bool
    ensures { result ≡ reach.acts reach.is_spawn (statement_of statement.now) }
{
    matches!(statement, Statement::Act(_, Action::Spawn(_)))
}

fn transports(statement: &Statement) -> bool
    ensures { result ≡ reach.transports (statement_of statement.now) }
{
    matches!(
        statement,
        Statement::Act(_, Action::BTransport(_, _, _))
            | Statement::Operate(_, _, _, Operation::NbTransport(_, _, _, _))
    )
}

fn statement_line(statement: &Statement) -> u32
    ensures { result ≡ spec.statement_line (statement_of statement.now) }
{
    match statement {
        Statement::Var(line, _, _, _)
        | Statement::Assign(line, _, _)
        | Statement::Operate(line, _, _, _)
        | Statement::Act(line, _)
        | Statement::If(line, _, _, _)
        | Statement::While(line, _, _)
        | Statement::Guard(line, _, _)
        | Statement::Try(line, _, _) => *line,
    }
}

/// What a statement does.
fn deed_of(names: &ModuleNames<'_>, sets: &Sets, statement: &Statement) -> Deed
    requires sets { AreSets (items_of names.now) sets.now }
    ensures { result ≡ spec.deed_of (items_of names.now) (statement_of statement.now) }
{
    Deed {
        blocks: is_blocking(names, sets, statement),
        triggers: triggers(statement),
        throws: throws(statement),
        spawns: spawns(statement),
        transports: transports(statement),
    }
}

/// Where the statements of the body of a name stand.
fn standing_of(names: &ModuleNames<'_>, sets: &Sets, around: &[u8]) -> Standing
    requires sets { AreSets (items_of names.now) sets.now }
    ensures { result ≡ spec.standing_of (items_of names.now) around.now }
{
    let number = names.place(around);
    Standing {
        in_method: is_in(sets.methods.as_slice(), number)
            || is_in(sets.from_methods.as_slice(), number),
        in_thread: is_in(sets.threads.as_slice(), number)
            || is_in(sets.from_threads.as_slice(), number),
        in_nonblocking: is_in(sets.from_nonblocking.as_slice(), number),
        in_unwinding: is_in(sets.from_unwinding.as_slice(), number),
    }
}

/// The first broken rule of those on unwind blocks, at a statement that stands in one or is reached from one.
fn unwinding_finding<'a>(
    line: u32,
    around: &'a [u8],
    deed: Deed,
    unwinds: bool,
) -> Option<Finding<'a>>
    ensures { faults_of result ≡ spec.unwinding_fault line around.now deed unwinds }
{
    let wait = told_if(deed.blocks && unwinds, Kind::WaitInUnwind, line, around);
    let throw = told_if(deed.throws && unwinds, Kind::ThrowInUnwind, line, around);
    let spawn = told_if(deed.spawns && unwinds, Kind::SpawnInUnwind, line, around);
    let transport = told_if(
        deed.transports && unwinds,
        Kind::TransportInUnwind,
        line,
        around,
    );
    first_finding(wait, first_finding(throw, first_finding(spawn, transport)))
}

/// The first broken rule at a statement, by what it does and where it stands.
fn deed_finding<'a>(
    line: u32,
    around: &'a [u8],
    deed: Deed,
    standing: Standing,
    unwinds: bool,
) -> Option<Finding<'a>>
    ensures { faults_of result ≡ spec.deed_fault line around.now deed standing unwinds }
{
    let wait = told_if(
        deed.blocks && standing.in_method,
        Kind::WaitInMethod,
        line,
        around,
    );
    let trigger = told_if(
        deed.triggers && standing.in_thread,
        Kind::TriggerInThread,
        line,
        around,
    );
    let blocking = told_if(
        deed.blocks && standing.in_nonblocking,
        Kind::BlockingInNonblocking,
        line,
        around,
    );
    let unwinding = unwinding_finding(line, around, deed, unwinds);
    first_finding(
        wait,
        first_finding(trigger, first_finding(blocking, unwinding)),
    )
}

/// Whether a statement stands in an unwind block, or is reached from one.
fn unwinds(placed: PlacedStatement<'_>, standing: Standing) -> bool
    ensures { result ≡ (placed.entry.unwinding || standing.in_unwinding) }
{
    placed.unwinding || standing.in_unwinding
}

/// The first broken rule at a statement of a body.
fn statement_finding<'a>(
    names: &ModuleNames<'_>,
    sets: &Sets,
    around: &'a [u8],
    standing: Standing,
    placed: PlacedStatement<'_>,
) -> Option<Finding<'a>>
    requires sets { AreSets (items_of names.now) sets.now }
    requires standing { standing ≡ spec.standing_of (items_of names.now) around.now }
    ensures { faults_of result ≡ spec.placed_fault (items_of names.now) around.now (placed_of placed.entry) }
{
    deed_finding(
        statement_line(placed.statement),
        around,
        deed_of(names, sets, placed.statement),
        standing,
        unwinds(placed, standing),
    )
}

/// The first broken rule at statements of a body.
fn statements_finding<'a>(
    names: &ModuleNames<'_>,
    sets: &Sets,
    around: &'a [u8],
    standing: Standing,
    statements: &[PlacedStatement<'_>],
) -> Option<Finding<'a>>
    requires sets { AreSets (items_of names.now) sets.now }
    requires standing { standing ≡ spec.standing_of (items_of names.now) around.now }
    ensures { faults_of result ≡ first (spec.placed_fault (items_of names.now) around.now) (placed_list statements.now) }
{
    for placed in statements {
        if let Some(finding) = statement_finding(names, sets, around, standing, *placed) {
            return Some(finding);
        }
    }
    None
}

/// The first broken rule in a body.
fn body_finding<'a>(
    names: &ModuleNames<'_>,
    sets: &Sets,
    body: &FlatBody<'a>,
) -> Option<Finding<'a>>
    requires sets { AreSets (items_of names.now) sets.now }
    ensures { faults_of result ≡ spec.flat_fault (items_of names.now) (seen body.now) }
{
    let standing = standing_of(names, sets, body.name);
    statements_finding(names, sets, body.name, standing, body.statements.as_slice())
}

/// The first broken rule in bodies.
pub(crate) fn bodies_finding<'a>(
    names: &ModuleNames<'_>,
    sets: &Sets,
    bodies: &[FlatBody<'a>],
) -> Option<Finding<'a>>
    requires sets { AreSets (items_of names.now) sets.now }
    ensures { faults_of result ≡ first (spec.flat_fault (items_of names.now)) (seen_list bodies.now) }
{
    for body in bodies {
        if let Some(finding) = body_finding(names, sets, body) {
            return Some(finding);
        }
    }
    None
}
