ghost use Rattle.std.specs.Prelude.{◌≡◌, option_map};
ghost use Rattle.std.specs.Option.{option_copied};
ghost use Rattle.model_rules.specs.ModelTree.Views.{item_of};
ghost use Rattle.model_rules.specs.Meanings as spec;

use super::types::{
    hands_on, plain_meaning, port_meaning, port_size, signal_type, takes_over, variable_type,
};
use model_rules::Meaning;
use model_rules::model_tree_api::Item;

/// The name that an item declares; a binding declares none.
pub fn item_name(item: &Item) -> Option<&[u8]>
    ensures { option_copied result ≡ spec.declared_name (item_of item.now) }
{
    match item {
        Item::Signal(_, signal) => Some(signal.name.bytes()),
        Item::Resolved(_, name)
        | Item::Fifo(_, _, name, _)
        | Item::Plain(_, _, name)
        | Item::Semaphore(_, name, _)
        | Item::Memory(_, name, _)
        | Item::Variable(_, _, name, _)
        | Item::Port(_, _, name, _)
        | Item::Export(_, _, name)
        | Item::Initiator(_, name, _)
        | Item::Target(_, name, _)
        | Item::Instance(_, _, name) => Some(name.bytes()),
        Item::Clock(_, clock) => Some(clock.name.bytes()),
        Item::Bind(_, _, _) => None,
        Item::Function(_, function) => Some(function.name.bytes()),
        Item::Process(_, process) => Some(process.name.bytes()),
    }
}

/// What the name that an item declares stands for; a binding declares none.
pub fn item_meaning(item: &Item) -> Option<Meaning>
    ensures { result ≡ option_map (λ d. d.meaning) (spec.declaration (item_of item.now)) }
{
    match item {
        Item::Signal(_, signal) => Some(Meaning::Signal(signal_type(signal.value_type))),
        Item::Resolved(_, _) => Some(Meaning::Resolved),
        Item::Clock(_, _) => Some(Meaning::Clock),
        Item::Fifo(_, t, _, _) => Some(Meaning::Fifo(signal_type(*t))),
        Item::Plain(_, kind, _) => Some(plain_meaning(*kind)),
        Item::Semaphore(_, _, _) => Some(Meaning::Semaphore),
        Item::Memory(_, _, _) => Some(Meaning::Memory),
        Item::Variable(_, t, _, _) => Some(Meaning::Variable(variable_type(*t))),
        Item::Port(_, interface, _, size) => Some(port_meaning(*interface, port_size(*size))),
        Item::Export(_, _, _) => Some(Meaning::Export),
        Item::Initiator(_, _, role) => Some(Meaning::Initiator(hands_on(role))),
        Item::Target(_, _, role) => Some(Meaning::Target(takes_over(role))),
        Item::Instance(_, _, _) => Some(Meaning::Instance),
        Item::Bind(_, _, _) => None,
        Item::Function(_, _) => Some(Meaning::Function),
        Item::Process(_, _) => Some(Meaning::Process),
    }
}
