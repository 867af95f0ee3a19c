//! What expressions, channels, events and arguments use by names.
ghost use Rattle.std.specs.Prelude.{◌≡◌, ◌∷◌, [], ◌++◌, OnOk, map, option_map};
ghost use Rattle.std.specs.List.{flat_map};
ghost use Rattle.flat_design.specs.Code.{term_of, channel_term, event_term, await_term, argument_term, destination_term};
ghost use Rattle.order_free.specs.Uses as spec;

use crate::Deed;
use flat_design::{
    Argument, Await, ChannelUse, Destination, EventMember, EventUse, Expr, Member, NameUse, Store,
};
use std::alloc::AllocError;

/// Puts one more behind the others.
pub(crate) fn add(deed: Deed, deeds: &mut Vec<Deed>) -> Result<(), AllocError>
    ensures { OnOk result (deeds.new.items ≡ deeds.old.items ++ deed ∷ []) }
{
    deeds.push(deed)?;
    Ok(())
}

pub(crate) fn add_name(name: NameUse, deeds: &mut Vec<Deed>) -> Result<(), AllocError>
    ensures { OnOk result (deeds.new.items ≡ deeds.old.items ++ spec.deeds_of_name name) }
{
    match name {
        NameUse::Local(_) => Ok(()),
        NameUse::Declared(n) => add(Deed::Keeps(n), deeds),
    }
}

fn add_member(member: Member, deeds: &mut Vec<Deed>) -> Result<(), AllocError>
    ensures { OnOk result (deeds.new.items ≡ deeds.old.items ++ spec.deeds_of_member member) }
{
    match member {
        Member::Available | Member::Free | Member::Valid | Member::Terminated => {
            add(Deed::Watches, deeds)
        }
        Member::Value => add(Deed::Unfit, deeds),
        Member::Changed
        | Member::Live
        | Member::Field(_)
        | Member::Length
        | Member::EnableLength
        | Member::Local
        | Member::Next
        | Member::NeedSync => Ok(()),
    }
}

pub(crate) fn add_term(e: &Expr, deeds: &mut Vec<Deed>) -> Result<(), AllocError>
    ensures { OnOk result (deeds.new.items ≡ deeds.old.items ++ spec.deeds_of_term (term_of e.now)) }
{
    match e {
        Expr::Literal(_) => Ok(()),
        Expr::Now => Ok(()),
        Expr::Myself => Ok(()),
        Expr::Name(name) => add_name(*name, deeds),
        Expr::Placed(_, place) => add_term(place, deeds),
        Expr::Member(name, member) => {
            add_name(*name, deeds)?;
            add_member(*member, deeds)
        }
        Expr::PlacedMember(_, place, member) => {
            add_term(place, deeds)?;
            add_member(*member, deeds)
        }
        Expr::Element(name, index) => {
            add(Deed::Keeps(*name), deeds)?;
            add_term(index, deeds)
        }
        Expr::PayloadByte(name, _, index) => {
            add_name(*name, deeds)?;
            add_term(index, deeds)
        }
        Expr::Digit(_, of, index) => {
            add_term(of, deeds)?;
            add_term(index, deeds)
        }
        Expr::Digits(_, of, _, _) => add_term(of, deeds),
        Expr::Unary(_, _, operand) => add_term(operand, deeds),
        Expr::Binary(_, _, left, right) => {
            add_term(left, deeds)?;
            add_term(right, deeds)
        }
        Expr::Convert(_, _, operand) => add_term(operand, deeds),
        Expr::Concat(upper, lower) => {
            add_term(upper, deeds)?;
            add_term(lower, deeds)
        }
    }
}

pub(crate) fn add_written(e: &Option<Expr>, deeds: &mut Vec<Deed>) -> Result<(), AllocError>
    ensures { OnOk result (deeds.new.items ≡ deeds.old.items ++ spec.deeds_of_written (option_map term_of e.now)) }
{
    match e {
        None => Ok(()),
        Some(e) => add_term(e, deeds),
    }
}

pub(crate) fn add_store(x: Option<Store>, deeds: &mut Vec<Deed>) -> Result<(), AllocError>
    ensures { OnOk result (deeds.new.items ≡ deeds.old.items ++ spec.deeds_of_store x) }
{
    match x {
        None => Ok(()),
        Some(x) => add_name(x.name, deeds),
    }
}

pub(crate) fn add_read(channel: &ChannelUse, deeds: &mut Vec<Deed>) -> Result<(), AllocError>
    ensures { OnOk result (deeds.new.items ≡ deeds.old.items ++ spec.deeds_of_read (channel_term channel.now)) }
{
    add(Deed::Reads(channel.name), deeds)?;
    add_written(&channel.place, deeds)
}

pub(crate) fn add_write(channel: &ChannelUse, deeds: &mut Vec<Deed>) -> Result<(), AllocError>
    ensures { OnOk result (deeds.new.items ≡ deeds.old.items ++ spec.deeds_of_write (channel_term channel.now)) }
{
    add(Deed::Writes(channel.name), deeds)?;
    add_written(&channel.place, deeds)
}

fn add_event_member(event: EventMember, deeds: &mut Vec<Deed>) -> Result<(), AllocError>
    ensures { OnOk result (deeds.new.items ≡ deeds.old.items ++ spec.deeds_of_event_member event) }
{
    match event {
        EventMember::Terminated | EventMember::Reset => add(Deed::Watches, deeds),
        EventMember::Own
        | EventMember::Posedge
        | EventMember::Negedge
        | EventMember::DataWritten
        | EventMember::DataRead => Ok(()),
    }
}

fn add_event(event: &EventUse, deeds: &mut Vec<Deed>) -> Result<(), AllocError>
    ensures { OnOk result (deeds.new.items ≡ deeds.old.items ++ spec.deeds_of_event (event_term event.now)) }
{
    add_name(event.name, deeds)?;
    add_written(&event.place, deeds)?;
    add_event_member(event.event, deeds)
}

fn add_events(events: &[EventUse], deeds: &mut Vec<Deed>) -> Result<(), AllocError>
    ensures { OnOk result (deeds.new.items ≡ deeds.old.items ++ flat_map spec.deeds_of_event (map event_term events.now)) }
{
    for event in events {
        add_event(event, deeds)?;
    }
    Ok(())
}

pub(crate) fn add_await(wait: &Await, deeds: &mut Vec<Deed>) -> Result<(), AllocError>
    ensures { OnOk result (deeds.new.items ≡ deeds.old.items ++ spec.deeds_of_await (await_term wait.now)) }
{
    match wait {
        Await::Static => Ok(()),
        Await::Delta => Ok(()),
        Await::For(e) => add_term(e, deeds),
        Await::Any(events, time) => {
            add_events(events.as_slice(), deeds)?;
            add_written(time, deeds)
        }
        Await::All(events, time) => {
            add_events(events.as_slice(), deeds)?;
            add_written(time, deeds)
        }
    }
}

fn add_argument(argument: &Argument, deeds: &mut Vec<Deed>) -> Result<(), AllocError>
    ensures { OnOk result (deeds.new.items ≡ deeds.old.items ++ spec.deeds_of_argument (argument_term argument.now)) }
{
    match argument {
        Argument::Value(e) => add_term(e, deeds),
        Argument::Inout(name) => add_name(*name, deeds),
    }
}

pub(crate) fn add_arguments(arguments: &[Argument], deeds: &mut Vec<Deed>) -> Result<(), AllocError>
    ensures { OnOk result (deeds.new.items ≡ deeds.old.items ++ flat_map spec.deeds_of_argument (map argument_term arguments.now)) }
{
    for argument in arguments {
        add_argument(argument, deeds)?;
    }
    Ok(())
}

pub(crate) fn add_destination(to: &Destination, deeds: &mut Vec<Deed>) -> Result<(), AllocError>
    ensures { OnOk result (deeds.new.items ≡ deeds.old.items ++ spec.deeds_of_destination (destination_term to.now)) }
{
    match to {
        Destination::Name(x) => add_name(x.name, deeds),
        Destination::Field(_, _) => add(Deed::Unfit, deeds),
        Destination::Element(name, index) => {
            add(Deed::Keeps(*name), deeds)?;
            add_term(index, deeds)
        }
        Destination::PayloadByte(_, _, index) => {
            add(Deed::Unfit, deeds)?;
            add_term(index, deeds)
        }
    }
}
