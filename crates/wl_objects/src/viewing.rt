//! Which events are shown.

ghost use Rattle.std.specs.Prelude.{◌≡◌, ◌≤◌, nat_le, if◌then◌else◌, length, IsTrue, IfOk, OnErr};
ghost use Rattle.wl_wire.specs.Wire.{object_of};
ghost use Rattle.wl_objects.specs.Registry.{has_version, event_in, registry_event, with_version};
ghost use Rattle.wl_objects.specs.Registry.{view_global, view_remove, view_event};

use crate::hidden::HiddenGlobals;
use crate::registry_event::{RegistryEvent, event_of};
use crate::tracker::Tracker;
use std::alloc::AllocError;
use wl_tables::{Interface, signature};
use wl_wire::{Message, scan};

/// What an event tells, if its object is a registry.
pub(crate) fn event_in(objects: &Tracker, m: &Message) -> RegistryEvent
    ensures { result ≡ event_in objects.now m.now }
{
    if objects.is_registry(m.object()) {
        registry_event(m)
    } else {
        RegistryEvent::Other
    }
}

/// What a registry's event tells, if its arguments are good.
fn registry_event(m: &Message) -> RegistryEvent
    ensures { result ≡ registry_event m.now }
{
    match signature(Interface::WlRegistry, true, m.opcode()) {
        Some(row) => match scan(&row, m) {
            Ok(args) => event_of(m.opcode(), args.as_slice()),
            Err(_) => RegistryEvent::Other,
        },
        None => RegistryEvent::Other,
    }
}

/// What is shown of an event. Its last word is a version where it has one.
pub(crate) fn view_event(
    hidden: &mut HiddenGlobals,
    m: Message,
    event: RegistryEvent,
) -> Result<Option<Message>, AllocError>
    requires { IsTrue (has_version event) → 12 ≤ length m }
    ensures ok { IfOk result (λ it. view_event hidden.old m event
        ≡ record { shown = it; hidden = hidden.new }) }
    ensures err { OnErr result (hidden.new ≡ hidden.old) }
{
    match event {
        RegistryEvent::Global(name, version, most) => view_global(hidden, m, name, version, most),
        RegistryEvent::Remove(name) => Ok(view_remove(hidden, m, name)),
        RegistryEvent::Other => Ok(Some(m)),
    }
}

/// Shows or hides a global.
fn view_global(
    hidden: &mut HiddenGlobals,
    m: Message,
    name: u32,
    version: u32,
    most: Option<u32>,
) -> Result<Option<Message>, AllocError>
    requires { 12 ≤ length m }
    ensures ok { IfOk result (λ it. view_global hidden.old (object_of m, name) m version most
        ≡ record { shown = it; hidden = hidden.new }) }
    ensures err { OnErr result (hidden.new ≡ hidden.old) }
{
    let registry = m.object();
    match most {
        Some(most) => {
            let shown = lowered(m, version, most)?;
            hidden.show(registry, name);
            Ok(Some(shown))
        }
        None => {
            hidden.hide(registry, name)?;
            Ok(None)
        }
    }
}

/// The message with a version that is at most the greatest one.
fn lowered(m: Message, version: u32, most: u32) -> Result<Message, AllocError>
    requires { 12 ≤ length m }
    ensures { IfOk result (λ it. it ≡ (if nat_le version most then m else with_version m most)) }
{
    if version <= most {
        Ok(m)
    } else {
        with_version(m, most)
    }
}

/// The message with another version as its last word; all other bytes stay.
#[tactic(auto, unfolding(wl_wire::specs::Building::word_bytes))]
fn with_version(m: Message, version: u32) -> Result<Message, AllocError>
    requires { 12 ≤ length m }
    ensures { IfOk result (λ it. it ≡ with_version m version) }
{
    let mut bytes = m.into_bytes();
    bytes.truncate(bytes.len() - 4);
    bytes.append(&version.to_le_bytes())?;
    Ok(Message::from_whole(bytes))
}

/// Tells that a global is gone, if it was shown.
fn view_remove(hidden: &mut HiddenGlobals, m: Message, name: u32) -> Option<Message>
    ensures { view_remove hidden.old (object_of m, name) m
        ≡ record { shown = result; hidden = hidden.new } }
{
    let registry = m.object();
    if hidden.contains(registry, name) {
        hidden.show(registry, name);
        None
    } else {
        Some(m)
    }
}
