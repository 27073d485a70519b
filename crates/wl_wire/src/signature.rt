//! What arguments a message has.

ghost use Rattle.std.specs.Prelude.{◌≡◌, ◌<◌, ◌≤◌, length, slice_get, Some};
ghost use Rattle.wl_wire.specs.SignatureForm.{no_slots, with_slot};

use std::marker::Model;

/// The kinds of arguments of the wire format, with the untyped new object of `wl_registry.bind` as
/// a kind of its own.
#[derive(Clone, Copy, Debug, PartialEq, Eq)]
pub enum ArgKind {
    /// A signed 32-bit number.
    Int,
    /// An unsigned 32-bit number.
    Uint,
    /// A signed number in 1/256.
    Fixed,
    /// A string, which its length counts with its NUL.
    Str,
    /// The id of an object, 0 for null.
    Object,
    /// The id of a new object.
    NewId,
    /// A new object with its interface and version: a string, an unsigned number and an id.
    Bind,
    /// An array of bytes.
    Array,
    /// A file descriptor, which takes no bytes and travels beside them.
    Handle,
}

/// The place of one argument.
#[derive(Clone, Copy, Debug, PartialEq, Eq)]
pub struct Slot {
    /// What stands there.
    pub kind: ArgKind,
    /// Whether a string or an object may be null there.
    pub null: bool,
}

/// The places of a message's arguments, eight at most, and whether the message destroys its object.
#[derive(Clone, Copy, Debug, PartialEq, Eq)]
pub struct Signature {
    slots: [Slot; 8],
    len: usize,
    destroys: bool,
}

impl Model for Signature {
    ghost use Rattle.wl_wire.specs.SignatureForm.{SignatureForm};

    ghost Value = { SignatureForm };

    ghost use Rattle.wl_wire.specs.SignatureFields.{form_of, fields_of, IsFilled, fields-form};

    ghost view = { form_of };

    ghost invariant = { IsFilled };

    ghost inverse = { fields_of };

    ghost inverse_ok = { fields-form };
}

/// What stands in the places that a signature doesn't use.
const UNUSED: Slot = Slot {
    kind: ArgKind::Int,
    null: false,
};

impl Signature {
    /// A signature with no arguments yet.
    pub fn new(destroys: bool) -> Signature
        ensures { result ≡ no_slots destroys }
    {
        Signature {
            slots: [UNUSED; 8],
            len: 0,
            destroys,
        }
    }

    /// The signature with one more argument at the end.
    pub fn with(self, slot: Slot) -> Signature
        requires { length self.slots < 8 }
        ensures { result ≡ with_slot self slot }
    {
        let mut longer = self;
        longer.slots[longer.len] = slot;
        longer.len += 1;
        longer
    }

    /// How many arguments there are.
    pub fn len(&self) -> usize
        ensures count { result ≡ length self.now.slots }
        ensures few { result ≤ 8 }
    {
        self.len
    }

    /// The place of an argument, counted from 0.
    pub fn slot(&self, i: usize) -> Slot
        requires { i < length self.now.slots }
        ensures { slice_get self.now.slots i ≡ Some result }
    {
        let used = self.slots.split_at(self.len).0;
        used[i]
    }

    /// Whether the message destroys its object.
    pub fn destroys(&self) -> bool
        ensures { result ≡ self.now.destroys }
    {
        self.destroys
    }
}
