//! Reads the arguments of a message by its signature.

ghost use Rattle.std.specs.Prelude.{◌≡◌, [], drop, IfOk, IsOk};
ghost use Rattle.wl_wire.specs.Arguments.{Spells};
ghost use Rattle.wl_wire.specs.ArgFaults.{args_fault, Decodes};
ghost use Rattle.wl_wire.specs.ArgValues.{args_in};

use crate::faults::MessageFault;
use crate::lists::ArgList;
use crate::message::Message;
use crate::scanning::{ArgViews, scan};
use crate::signature::Signature;
use std::alloc::{AllocError, Global};

/// Copies of arguments.
fn copies(alloc: Global, views: &ArgViews) -> Result<ArgList, AllocError>
    ensures value { IfOk result (λ list. list ≡ views.now) }
    ensures none { views.now ≡ [] → IsOk result }
{
    if views.is_empty() {
        return Ok(ArgList::new(alloc));
    }
    let mut list = ArgList::with_capacity(alloc, views.len())?;
    'views: for view in views.as_slice() {
        list.push(view.to_arg(alloc)?)?;
    }
    Ok(list)
}

impl ArgViews<'_> {
    /// Copies of the arguments. Takes no memory where there are none.
    ///
    /// # Errors
    /// Only where memory runs out.
    pub fn to_list(&self, alloc: Global) -> Result<ArgList, AllocError>
        ensures value { IfOk result (λ list. list ≡ self.now) }
        ensures none { self.now ≡ [] → IsOk result }
    {
        copies(alloc, self)
    }
}

/// The arguments of a message, by its signature: one for each place, in order.
///
/// # Errors
/// The fault of the first argument at fault: `ArgShort`, `StringNoNul` or `NullNotAllowed`;
/// `ArgLong` where all are good and bytes are left; `Memory` where memory runs out, which is wanted
/// only where there is no fault and the message has an argument.
pub fn args(alloc: Global, sig: &Signature, m: &Message) -> Result<ArgList, MessageFault>
    ensures found { IfOk result (λ list. Spells sig.now.slots (drop 8 m.now) list) }
    ensures value { IfOk result (λ list. list ≡ args_in sig.now.slots (drop 8 m.now)) }
    ensures exact { Decodes sig.now.slots result (args_fault sig.now.slots (drop 8 m.now)) }
{
    let views = scan(sig, m)?;
    Ok(copies(alloc, &views)?)
}
