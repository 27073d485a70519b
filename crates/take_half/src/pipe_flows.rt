//! What came of pipes.

ghost use Rattle.std.specs.Prelude.{◌≡◌, [], None, OnOk, OnErr, option_map};
ghost use Rattle.std.specs.Ordering.{int_cmp};
ghost use Rattle.std.specs.BTreeMap.{is_at};
ghost use Rattle.std.specs.Map.{lookup};
ghost use Rattle.half_model.specs.Meaning.{no_flow};
ghost use Rattle.half_model.specs.PeerState.{rid_in, flow_with, with_flow};

use std::alloc::{AllocError, Global};
use std::collections::BTreeMap;
use std::marker::Model;
use wl_wire::Bytes;
use wp_outside::PipeItem;

/// What came of one pipe.
#[derive(Drop)]
pub struct PipeFlow {
    bytes: Bytes,
    // Whether its writer, and whether its reader, closed it.
    ended: bool,
    shut: bool,
}

impl Model for PipeFlow {
    ghost use Rattle.half_model.specs.Meaning.{Flow};

    ghost Value = { Flow };

    ghost view = { λ flow. record { bytes = flow.bytes; ended = flow.ended; shut = flow.shut } };
}

impl PipeFlow {
    /// The bytes that were written to it, up to its end.
    pub fn bytes(&self) -> &[u8]
        ensures { result.now ≡ self.now.bytes }
    {
        self.bytes.as_slice()
    }

    /// Whether its writer closed it.
    pub fn has_ended(&self) -> bool
        ensures { result ≡ self.now.ended }
    {
        self.ended
    }

    /// Whether its reader closed it.
    pub fn is_shut(&self) -> bool
        ensures { result ≡ self.now.shut }
    {
        self.shut
    }

    // A pipe to which nothing has happened.
    fn new(alloc: Global) -> PipeFlow
        ensures { result ≡ no_flow }
    {
        PipeFlow {
            bytes: Bytes::new(alloc),
            ended: false,
            shut: false,
        }
    }

    // One more thing happens to the pipe. What comes behind its end is none of its bytes.
    fn take(&mut self, item: PipeItem) -> Result<(), AllocError>
        ensures ok { OnOk result (self.new ≡ flow_with item self.old) }
        ensures err { OnErr result (self.new ≡ self.old) }
    {
        match item {
            PipeItem::Bytes { pipe: _, bytes } => {
                if self.ended {
                    return Ok(());
                }
                self.bytes.append(bytes.as_slice())
            }
            PipeItem::End { pipe: _ } => {
                self.ended = true;
                Ok(())
            }
            PipeItem::Shut { pipe: _ } => {
                self.shut = true;
                Ok(())
            }
        }
    }
}

/// What came of the pipes, by their rids.
#[derive(Drop)]
pub(crate) struct PipeFlows {
    flows: BTreeMap<i32, PipeFlow>,
    alloc: Global,
}

impl Model for PipeFlows {
    ghost use Rattle.std.specs.Prelude.{List, ℤ};
    ghost use Rattle.half_model.specs.Meaning.{Flow};

    ghost Value = { List (ℤ × Flow) };

    ghost view = { λ flows. flows.flows.entries };
}

impl PipeFlows {
    /// No pipe. Takes no memory.
    pub(crate) fn new(alloc: Global) -> PipeFlows
        ensures { result ≡ [] }
    {
        PipeFlows {
            flows: BTreeMap::new(alloc),
            alloc,
        }
    }

    /// What came of a pipe; None exactly where nothing did.
    pub(crate) fn get(&self, rid: i32) -> Option<&PipeFlow>
        ensures { option_map (λ flow. flow.now) result ≡ lookup (is_at (int_cmp rid)) self.now }
    {
        self.flows.get(&rid)
    }

    /// One more thing happens to a pipe.
    pub(crate) fn take(&mut self, item: PipeItem) -> Result<(), AllocError>
        ensures ok { OnOk result (self.new ≡ with_flow item self.old) }
        ensures err { OnErr result (self.new ≡ self.old) }
    {
        let rid = rid_of(&item);
        match self.flows.get_mut(&rid) {
            Some(flow) => flow.take(item),
            None => self.begin(rid, item),
        }
    }

    // The first thing happens to a pipe.
    fn begin(&mut self, rid: i32, item: PipeItem) -> Result<(), AllocError>
        requires none { lookup (is_at (int_cmp rid)) self.old ≡ None }
        requires named { rid ≡ rid_in item }
        ensures ok { OnOk result (self.new ≡ with_flow item self.old) }
        ensures err { OnErr result (self.new ≡ self.old) }
    {
        let mut flow = PipeFlow::new(self.alloc);
        flow.take(item)?;
        self.flows.insert(rid, flow)?;
        Ok(())
    }
}

// The rid of the pipe.
fn rid_of(item: &PipeItem) -> i32
    ensures { result ≡ rid_in item.now }
{
    match item {
        PipeItem::Bytes { pipe, bytes: _ } => *pipe,
        PipeItem::End { pipe } => *pipe,
        PipeItem::Shut { pipe } => *pipe,
    }
}
