//! What each peer owns.

ghost use Rattle.std.specs.Prelude.{◌≡◌, ◌≤◌, None, OnOk, is_some};
ghost use Rattle.std.specs.List.{list_all};
ghost use Rattle.script_lang.specs.Names.{nothing, thing_of, fault_of, after, file_fault};
ghost use Rattle.script_lang.specs.Names.{grow_fault, fill_fault, shut_fault, can_grow, grown};
ghost use Rattle.script_lang.specs.Names.{with_thing, unless};
ghost use Rattle.script_lang.specs.declared.causes.ScriptCause.TheVariants.{Name};
ghost use Rattle.script_lang.specs.declared.limits.TheConstants.{MOST_OWNED};

use crate::causes::ScriptCause;
use crate::limits::MOST_OWNED;
use crate::steps::StepKind;
use crate::things::Thing;
use std::alloc::{AllocError, Global};
use std::collections::BTreeMap;
use std::marker::Model;

/// The files and pipes of one peer, by their numbers, and the sum of the sizes of its files.
#[derive(Drop)]
pub struct PeerNames {
    things: BTreeMap<i32, Thing>,
    total: u32,
}

impl Model for PeerNames {
    ghost use Rattle.std.specs.Prelude.{◌≤◌};
    ghost use Rattle.script_lang.specs.Names.{Owned};
    ghost use Rattle.script_lang.specs.declared.limits.TheConstants.{MOST_OWNED};

    ghost Value = { Owned };

    ghost view = { λ names. record { things = names.things.entries; total = names.total } };

    ghost invariant = { λ names. names.total ≤ MOST_OWNED };
}

impl PeerNames {
    /// The names of a peer that owns nothing. Takes no memory.
    pub fn new(alloc: Global) -> PeerNames
        ensures { result ≡ nothing }
    {
        PeerNames {
            things: BTreeMap::new(alloc),
            total: 0,
        }
    }

    /// The file or pipe of a number.
    #[tactic(auto, unfolding(crate::specs::Names::thing_of))]
    fn thing(&self, number: i32) -> Option<Thing>
        ensures { result ≡ thing_of self.now number }
    {
        self.things.get(&number).copied()
    }

    /// Why a line can't name what it names, where it can't.
    pub fn fault(&self, what: &StepKind) -> Option<ScriptCause>
        ensures { result ≡ fault_of self.now what.now }
    {
        match what {
            StepKind::File { number, size, .. } => self.file_fault(*size, self.thing(*number)),
            StepKind::Grow { number, size, .. } => self.grow_fault(*size, self.thing(*number)),
            StepKind::Fill {
                number,
                first,
                count,
                ..
            } => fill_fault(u64::from(*first) + u64::from(*count), self.thing(*number)),
            StepKind::Pipe { number, .. } => unless(self.thing(*number).is_none()),
            StepKind::Give { number, .. } => unless(self.thing(*number).is_some()),
            StepKind::Shut { number, .. } => shut_fault(self.thing(*number)),
            StepKind::Say { message, .. } => unless(self.owns_all(message.handles.as_slice())),
            _ => None,
        }
    }

    fn file_fault(&self, size: u32, found: Option<Thing>) -> Option<ScriptCause>
        ensures { result ≡ file_fault self.now size found }
    {
        if u64::from(self.total) + u64::from(size) > u64::from(MOST_OWNED) {
            return Some(ScriptCause::Number);
        }
        unless(found.is_none())
    }

    fn grow_fault(&self, size: u32, found: Option<Thing>) -> Option<ScriptCause>
        ensures { result ≡ grow_fault self.now size found }
    {
        match found {
            Some(
                Thing::File {
                    size: old,
                    segments,
                },
            ) => {
                if self.can_grow(old, segments, size) {
                    None
                } else {
                    Some(ScriptCause::Number)
                }
            }
            _ => Some(ScriptCause::Name),
        }
    }

    /// Whether a file of this size and so many segments can grow to a size.
    fn can_grow(&self, old: u32, segments: u32, size: u32) -> bool
        ensures { result ≡ can_grow self.now old segments size }
    {
        let others = u64::from(self.total.saturating_sub(old));
        old < size && segments < 64 && others + u64::from(size) <= u64::from(MOST_OWNED)
    }

    /// Whether all numbers are the peer's own.
    fn owns_all(&self, numbers: &[i32]) -> bool
        ensures { result ≡ list_all (λ number. is_some (thing_of self.now number)) numbers.now }
    {
        for number in numbers {
            if self.thing(*number).is_none() {
                return false;
            }
        }
        true
    }

    /// Keeps what a line makes, which may name what it names.
    ///
    /// # Errors
    /// Only where memory runs out.
    pub fn keep(&mut self, what: &StepKind) -> Result<(), AllocError>
        requires { fault_of self.old what.now ≡ None }
        ensures { OnOk result (self.new ≡ after self.old what.now) }
    {
        match what {
            StepKind::File { number, size, .. } => {
                let thing = Thing::File {
                    size: *size,
                    segments: 1,
                };
                self.put(*number, thing, self.total + *size)
            }
            StepKind::Grow { number, size, .. } => self.grow(*number, *size),
            StepKind::Pipe { number, .. } => self.put(*number, Thing::Pipe, self.total),
            _ => Ok(()),
        }
    }

    /// Keeps that a file has one more segment.
    fn grow(&mut self, number: i32, size: u32) -> Result<(), AllocError>
        requires { grow_fault self.old size (thing_of self.old number) ≡ None }
        ensures { OnOk result (self.new ≡ grown self.old number size (thing_of self.old number)) }
    {
        match self.thing(number) {
            Some(
                Thing::File {
                    size: old,
                    segments,
                },
            ) => {
                let thing = Thing::File {
                    size,
                    segments: segments + 1,
                };
                self.put(number, thing, self.total.saturating_sub(old) + size)
            }
            _ => Ok(()),
        }
    }

    /// Keeps what a number stands for from here on, and the new sum of sizes.
    fn put(&mut self, number: i32, thing: Thing, total: u32) -> Result<(), AllocError>
        requires { total ≤ MOST_OWNED }
        ensures { OnOk result (self.new ≡ with_thing self.old number thing total) }
    {
        let _ = self.things.insert(number, thing)?;
        self.total = total;
        Ok(())
    }
}

/// Why words up to this one can't be written, where they can't.
fn fill_fault(end: u64, found: Option<Thing>) -> Option<ScriptCause>
    ensures { result ≡ fill_fault end found }
{
    match found {
        Some(Thing::File { size, .. }) => unless(end <= u64::from(size / 8)),
        _ => Some(ScriptCause::Name),
    }
}

/// Why the reading end can't be closed, where it can't.
fn shut_fault(found: Option<Thing>) -> Option<ScriptCause>
    ensures { result ≡ shut_fault found }
{
    match found {
        Some(Thing::Pipe) => None,
        _ => Some(ScriptCause::Name),
    }
}

/// That a name is wrong, unless it holds.
fn unless(holds: bool) -> Option<ScriptCause>
    ensures { result ≡ unless holds Name None }
{
    if holds { None } else { Some(ScriptCause::Name) }
}
