ghost use Rattle.std.specs.Prelude.{◌≡◌, None, Some, option_and_then, option_map};
ghost use Rattle.std.specs.Option.{option_or};
ghost use Rattle.model_tree.specs.declared.faults.Kind.TheVariants as kind;
ghost use Rattle.model_tree.specs.Tree as tree;
ghost use Rattle.check_statements.specs.ModelRules.Items as items;
ghost use Rattle.check_statements.specs.ModelRules.Names as names;
ghost use Rattle.check_statements.specs.ModelRules.Passes.{constructs, fault_at};
ghost use Rattle.check_statements.specs.ModelRules.Sites as sites;
ghost use Rattle.check_statements.specs.CheckNames.Places.{scope_of};
ghost use Rattle.check_statements.specs.CheckExpressions.Findings.{faults_of, told};

use check_statements::check_expressions_api::{Finding, first_finding, is_port, told_if};
use check_statements::check_names_api::Place;
use check_statements::model_rules_api::{EndMeaning, LeftEnd, Meaning};
use model_tree::{End, Kind, Name};

/// What an object of the module itself stands for, as an end of a binding.
fn own_end(meaning: Option<Meaning>) -> EndMeaning
    ensures { result ≡ items.own_if meaning }
{
    match meaning {
        None => EndMeaning::Unknown,
        Some(meaning) => EndMeaning::Own(meaning),
    }
}

/// What an object of a child stands for, as an end of a binding.
fn child_end(meaning: Option<Meaning>) -> EndMeaning
    ensures { result ≡ items.of_child_if meaning }
{
    match meaning {
        None => EndMeaning::Unknown,
        Some(meaning) => EndMeaning::OfChild(meaning),
    }
}

/// What a name of a child's module stands for.
fn child_meaning(place: &Place<'_>, child: &[u8], member: &[u8]) -> Option<Meaning>
    ensures { result ≡ option_and_then (λ m. names.declared_in m member.now) (names.child_module (scope_of place.now) child.now) }
{
    match place.child(child) {
        None => None,
        Some(names) => names.meaning(member),
    }
}

/// What an end of a binding stands for.
fn reached(place: &Place<'_>, end: &End) -> EndMeaning
    ensures { result ≡ items.reached (scope_of place.now) end.now.name end.now.member }
{
    match &end.member {
        None => own_end(place.meaning(end.name.bytes())),
        Some(member) => { child_end(child_meaning(place, end.name.bytes(), member.bytes())) }
    }
}

fn left_own(meaning: Meaning) -> LeftEnd
    ensures { result ≡ items.left_own meaning }
{
    match meaning {
        Meaning::Export => LeftEnd::Export,
        Meaning::Target(true) => LeftEnd::PassTarget,
        _ => LeftEnd::NoForm,
    }
}

fn left_child(meaning: Meaning) -> LeftEnd
    ensures { result ≡ items.left_child meaning }
{
    match meaning {
        Meaning::In(_, _)
        | Meaning::Out(_, _)
        | Meaning::FifoIn(_, _)
        | Meaning::FifoOut(_, _)
        | Meaning::MutexPort(_)
        | Meaning::SemaphorePort(_) => LeftEnd::PortOfChild,
        Meaning::Initiator(_) => LeftEnd::InitiatorOfChild,
        _ => LeftEnd::NoForm,
    }
}

/// Which form of a left end something has.
fn left_of(end: EndMeaning) -> LeftEnd
    ensures { result ≡ items.left_of end }
{
    match end {
        EndMeaning::Unknown => LeftEnd::Unknown,
        EndMeaning::Own(meaning) => left_own(meaning),
        EndMeaning::OfChild(meaning) => left_child(meaning),
    }
}

fn is_own_channel(end: EndMeaning) -> bool
    ensures { result ≡ items.is_own_channel end }
{
    matches!(
        end,
        EndMeaning::Own(
            Meaning::Signal(_)
                | Meaning::Resolved
                | Meaning::Clock
                | Meaning::Fifo(_)
                | Meaning::Mutex
                | Meaning::Semaphore
        )
    )
}

fn is_own_port(end: EndMeaning) -> bool
    ensures { result ≡ items.is_own_port end }
{
    match end {
        EndMeaning::Own(meaning) => is_port(meaning),
        EndMeaning::Unknown | EndMeaning::OfChild(_) => false,
    }
}

fn is_export_of_child(end: EndMeaning) -> bool
    ensures { result ≡ items.is_export_of_child end }
{
    matches!(end, EndMeaning::OfChild(Meaning::Export))
}

fn is_own_pass_initiator(end: EndMeaning) -> bool
    ensures { result ≡ items.is_own_pass_initiator end }
{
    matches!(end, EndMeaning::Own(Meaning::Initiator(true)))
}

fn is_target_of_child(end: EndMeaning) -> bool
    ensures { result ≡ items.is_target_of_child end }
{
    matches!(end, EndMeaning::OfChild(Meaning::Target(_)))
}

/// Whether a left end of this form may be bound to something that is known.
fn leads(left: LeftEnd, right: EndMeaning) -> bool
    ensures { result ≡ items.leads left right }
{
    match left {
        LeftEnd::Unknown | LeftEnd::NoForm => true,
        LeftEnd::PortOfChild => {
            is_own_channel(right) || is_own_port(right) || is_export_of_child(right)
        }
        LeftEnd::Export => is_own_channel(right) || is_export_of_child(right),
        LeftEnd::InitiatorOfChild => is_own_pass_initiator(right) || is_target_of_child(right),
        LeftEnd::PassTarget => is_target_of_child(right),
    }
}

fn leads_if_known(left: LeftEnd, right: EndMeaning) -> bool
    ensures { result ≡ items.leads_if_known left right }
{
    match right {
        EndMeaning::Unknown => true,
        EndMeaning::Own(_) | EndMeaning::OfChild(_) => leads(left, right),
    }
}

/// The last name of an end.
fn last_name(end: &End) -> &[u8]
    ensures { result.now ≡ items.last_name end.now.name end.now.member }
{
    match &end.member {
        None => end.name.bytes(),
        Some(member) => member.bytes(),
    }
}

/// A binding: itself.
pub fn bind_finding<'a>(
    place: &Place<'a>,
    line: u32,
    left: &'a End,
    right: &'a End,
) -> Option<Finding<'a>>
    ensures { faults_of result ≡ told kind.BadBinding line (items.binding_in_item (scope_of place.now) (tree.bind line left.now right.now)) }
{
    let form = left_of(reached(place, left));
    let bound = reached(place, right);
    match form {
        LeftEnd::NoForm => told_if(true, Kind::BadBinding, line, last_name(left)),
        _ => told_if(
            !leads_if_known(form, bound),
            Kind::BadBinding,
            line,
            last_name(right),
        ),
    }
}

/// Whether the module of a child is known and lacks a name.
fn lacks(place: &Place<'_>, child: &[u8], member: &[u8]) -> bool
    ensures { result ≡ names.lacks member.now (names.child_module (scope_of place.now) child.now) }
{
    match place.child(child) {
        None => false,
        Some(names) => names.meaning(member).is_none(),
    }
}

/// A name of an end that is not known.
fn unknown_end<'a>(place: &Place<'a>, end: &'a End) -> Option<Finding<'a>>
    ensures { faults_of result ≡ told kind.UnknownName end.now.line (names.unknown_end (scope_of place.now) end.now.name end.now.member) }
{
    let name = end.name.bytes();
    if !place.is_known(name) {
        return told_if(true, Kind::UnknownName, end.line, name);
    }
    match &end.member {
        None => None,
        Some(member) => told_if(
            lacks(place, name, member.bytes()),
            Kind::UnknownName,
            end.line,
            member.bytes(),
        ),
    }
}

/// Whether a name is known and stands for no instance.
fn is_no_instance(meaning: Option<Meaning>) -> bool
    ensures { result ≡ names.is_no_instance meaning }
{
    match meaning {
        None | Some(Meaning::Instance) => false,
        Some(_) => true,
    }
}

/// A name of an end that has a member and is no instance.
fn wrong_end<'a>(place: &Place<'a>, end: &'a End) -> Option<Finding<'a>>
    ensures { faults_of result ≡ told kind.WrongKind end.now.line (names.wrong_end (scope_of place.now) end.now.name end.now.member) }
{
    let name = end.name.bytes();
    let is_wrong = end.member.is_some() && is_no_instance(place.meaning(name));
    told_if(is_wrong, Kind::WrongKind, end.line, name)
}

/// The first broken rule at an end of a binding.
pub fn end_finding<'a>(place: &Place<'a>, end: &'a End) -> Option<Finding<'a>>
    ensures { faults_of result ≡ fault_at constructs (sites.site (scope_of place.now) end.now.line (sites.of_end end.now)) }
{
    first_finding(unknown_end(place, end), wrong_end(place, end))
}
