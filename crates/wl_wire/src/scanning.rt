//! Reads the arguments of a message by its signature, without memory.

ghost use Rattle.std.specs.Prelude.{◌≡◌, ◌↔◌, ◌≤◌, length, drop, map, [], None, Some, IsTrue, MatchResult};
ghost use Rattle.wl_wire.specs.ArgFaults.{args_fault};
ghost use Rattle.wl_wire.specs.ArgValues.{args_in};

use crate::arg_sizes::arg_size;
use crate::arg_views::{ArgView, arg_view};
use crate::faults::WireFault;
use crate::message::Message;
use crate::signature::Signature;
use std::marker::Model;

/// The arguments of a message where they stand, eight at most, which contracts see as the list of
/// these arguments.
#[derive(Debug, Drop)]
pub struct ArgViews<'a> {
    views: [ArgView<'a>; 8],
    count: usize,
}

impl<'a> Model for ArgViews<'a> {
    ghost use Rattle.std.specs.Prelude.{◌≤◌, List, map, take};
    ghost use Rattle.wl_wire.specs.declared.arguments.Arg.{Arg};
    ghost use Rattle.wl_wire.specs.ArgSights.{seen_arg};

    ghost Value = { List Arg };

    ghost view = { λ them. map seen_arg (take them.count them.views) };

    ghost invariant = { λ them. them.count ≤ 8 };
}

impl<'a> ArgViews<'a> {
    ghost use Rattle.wl_wire.specs.ArgSights.{seen_arg};

    /// The arguments as a slice.
    pub fn as_slice(&self) -> &[ArgView<'a>]
        ensures { map seen_arg result.now ≡ self.now }
    {
        self.views.split_at(self.count).0
    }

    /// How many arguments there are.
    pub fn len(&self) -> usize
        ensures { result ≡ length self.now }
    {
        self.as_slice().len()
    }

    /// Whether there is no argument.
    pub fn is_empty(&self) -> bool
        ensures { IsTrue result ↔ (self.now ≡ []) }
    {
        self.as_slice().is_empty()
    }
}

/// The arguments of a message where they stand, by its signature: one for each place, in order.
/// Takes no memory.
///
/// # Errors
/// The fault of the first argument at fault: `ArgShort`, `StringNoNul` or `NullNotAllowed`;
/// `ArgLong` where all are good and bytes are left.
pub fn scan<'a>(sig: &Signature, m: &'a Message) -> Result<ArgViews<'a>, WireFault>
    ensures { MatchResult result
        (λ views. (args_fault sig.now.slots (drop 8 m.now) ≡ None)
        × (views ≡ args_in sig.now.slots (drop 8 m.now)))
        (λ fault. args_fault sig.now.slots (drop 8 m.now) ≡ Some fault) }
{
    let mut views = [ArgView::Handle; 8];
    let mut rest = m.bytes().split_at(8).1;
    'slots: for i in 0..sig.len() {
        let slot = sig.slot(i);
        let size = arg_size(slot, rest)?;
        views[i] = arg_view(slot, rest, size);
        rest = rest.split_at(size).1;
    }
    if rest.is_empty() {
        Ok(ArgViews {
            views,
            count: sig.len(),
        })
    } else {
        Err(WireFault::ArgLong)
    }
}
