//! What the table of messages is made of.

ghost use Rattle.std.specs.Prelude.{◌≡◌};
ghost use Rattle.wl_tables.specs.Rows.{row_of};
ghost use Rattle.wl_tables.specs.Messages.{slot_of, made_by, carried_by};

use crate::interface::Interface;
use wl_wire::{ArgKind, Slot};
use wp_outside::HandleKind;

/// The place of one argument.
#[derive(Clone, Copy)]
pub(crate) enum Place {
    /// An argument that the interface says no more of.
    Plain(ArgKind),
    /// A string or an object that may be null.
    OrNull(ArgKind),
    /// A new object of this interface.
    New(Interface),
    /// A handle of this kind.
    Carried(HandleKind),
}

/// One message: its name and its arguments.
#[derive(Clone, Copy)]
pub(crate) enum Row {
    /// One that leaves its object as it is.
    Message(&'static str, &'static [Place]),
    /// One that destroys its object.
    Destructor(&'static str, &'static [Place]),
}

pub(crate) const INT: Place = Place::Plain(ArgKind::Int);

pub(crate) const UINT: Place = Place::Plain(ArgKind::Uint);

pub(crate) const FIXED: Place = Place::Plain(ArgKind::Fixed);

pub(crate) const STRING: Place = Place::Plain(ArgKind::Str);

pub(crate) const STRING_OR_NULL: Place = Place::OrNull(ArgKind::Str);

pub(crate) const OBJECT: Place = Place::Plain(ArgKind::Object);

pub(crate) const OBJECT_OR_NULL: Place = Place::OrNull(ArgKind::Object);

pub(crate) const ARRAY: Place = Place::Plain(ArgKind::Array);
/// The untyped new object of `wl_registry.bind`.
pub(crate) const BOUND: Place = Place::Plain(ArgKind::Bind);

pub(crate) const FILE: Place = Place::Carried(HandleKind::File);

pub(crate) const PIPE_END: Place = Place::Carried(HandleKind::PipeWrite);

impl Row {
    /// The message's name.
    pub(crate) fn name(&self) -> &'static str
        ensures { result.now ≡ (row_of self.now).name }
    {
        match *self {
            Row::Message(name, _) | Row::Destructor(name, _) => name,
        }
    }

    /// The places of the arguments.
    pub(crate) fn places(&self) -> &'static [Place]
        ensures { result.now ≡ (row_of self.now).places }
    {
        match *self {
            Row::Message(_, places) | Row::Destructor(_, places) => places,
        }
    }

    /// Whether the message destroys its object.
    pub(crate) fn destroys(&self) -> bool
        ensures { result ≡ (row_of self.now).destroys }
    {
        match *self {
            Row::Message(_, _) => false,
            Row::Destructor(_, _) => true,
        }
    }
}

impl Place {
    /// The interface of the new object.
    pub(crate) fn made(&self) -> Option<Interface>
        ensures { result ≡ made_by self.now }
    {
        match *self {
            Place::New(interface) => Some(interface),
            _ => None,
        }
    }

    /// The kind of the handle.
    pub(crate) fn carried(&self) -> Option<HandleKind>
        ensures { result ≡ carried_by self.now }
    {
        match *self {
            Place::Carried(kind) => Some(kind),
            _ => None,
        }
    }

    /// What a signature says of the place.
    pub(crate) fn slot(&self) -> Slot
        ensures { result ≡ slot_of self.now }
    {
        match *self {
            Place::Plain(kind) => Slot { kind, null: false },
            Place::OrNull(kind) => Slot { kind, null: true },
            Place::New(_) => Slot {
                kind: ArgKind::NewId,
                null: false,
            },
            Place::Carried(_) => Slot {
                kind: ArgKind::Handle,
                null: false,
            },
        }
    }
}
