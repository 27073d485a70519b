//! What came of pipes.

ghost use Rattle.std.specs.Prelude.{◌≡◌, [], None, OnOk};
ghost use Rattle.std.specs.BTreeMap.{insert_entry, is_at};
ghost use Rattle.std.specs.Map.{lookup};
ghost use Rattle.std.specs.Ordering.{int_cmp};
ghost use Rattle.half_model.specs.Meaning.{no_flow};
ghost use Rattle.pair_report.specs.Meant.{on_flow, with_piece, with_end, with_pipe};

use std::alloc::{AllocError, Global};
use std::collections::BTreeMap;
use std::marker::Model;
use wl_wire::Bytes;

/// What came of one pipe from its writing end.
#[derive(Drop)]
pub(crate) struct PipeGiven {
    bytes: Bytes,
    ended: bool,
}

impl Model for PipeGiven {
    ghost use Rattle.std.specs.Prelude.{false};
    ghost use Rattle.half_model.specs.Meaning.{Flow};

    ghost Value = { Flow };

    ghost view = { λ it. record { bytes = it.bytes; ended = it.ended; shut = false } };
}

impl PipeGiven {
    // A pipe of which nothing came.
    fn new(alloc: Global) -> PipeGiven
        ensures { result ≡ no_flow }
    {
        PipeGiven {
            bytes: Bytes::new(alloc),
            ended: false,
        }
    }

    /// Its bytes.
    pub(crate) fn bytes(&self) -> &[u8]
        ensures { result.now ≡ self.now.bytes }
    {
        self.bytes.as_slice()
    }

    /// Whether its writer closed it.
    pub(crate) fn has_ended(&self) -> bool
        ensures { result ≡ self.now.ended }
    {
        self.ended
    }

    // More bytes come.
    fn add(&mut self, piece: &[u8]) -> Result<(), AllocError>
        ensures { OnOk result (self.new ≡ with_piece piece.now self.old) }
    {
        self.bytes.append(piece)
    }

    // The end comes.
    fn end(&mut self)
        ensures { self.new ≡ with_end self.old }
    {
        self.ended = true;
    }
}

/// What came of pipes, by their rids.
#[derive(Drop)]
pub(crate) struct FlowMap {
    flows: BTreeMap<i32, PipeGiven>,
    alloc: Global,
}

impl Model for FlowMap {
    ghost use Rattle.pair_report.specs.Meant.{Flows};

    ghost Value = { Flows };

    ghost view = { λ it. it.flows.entries };
}

impl FlowMap {
    /// No pipe. Takes no memory.
    pub(crate) fn new(alloc: Global) -> FlowMap
        ensures { result ≡ [] }
    {
        FlowMap {
            flows: BTreeMap::new(alloc),
            alloc,
        }
    }

    /// The pipes by their rids.
    pub(crate) fn as_map(&self) -> &BTreeMap<i32, PipeGiven>
        ensures { result.now.entries ≡ self.now }
    {
        &self.flows
    }

    /// More bytes of a pipe come.
    pub(crate) fn add(&mut self, rid: i32, piece: &[u8]) -> Result<(), AllocError>
        ensures { OnOk result (self.new ≡ on_flow rid (with_piece piece.now) self.old) }
    {
        match self.flows.get_mut(&rid) {
            Some(flow) => flow.add(piece),
            None => self.begin_with(rid, piece),
        }
    }

    /// The end of a pipe comes.
    pub(crate) fn end(&mut self, rid: i32) -> Result<(), AllocError>
        ensures { OnOk result (self.new ≡ on_flow rid with_end self.old) }
    {
        match self.flows.get_mut(&rid) {
            Some(flow) => {
                flow.end();
                Ok(())
            }
            None => self.begin_ended(rid),
        }
    }

    /// A pipe is there, if none was.
    pub(crate) fn begin(&mut self, rid: i32) -> Result<(), AllocError>
        ensures { OnOk result (self.new ≡ with_pipe rid self.old) }
    {
        match self.flows.get(&rid) {
            Some(_) => Ok(()),
            None => self.put(rid, PipeGiven::new(self.alloc)),
        }
    }

    // The first bytes of a pipe come.
    fn begin_with(&mut self, rid: i32, piece: &[u8]) -> Result<(), AllocError>
        requires { lookup (is_at (int_cmp rid)) self.old ≡ None }
        ensures { OnOk result (self.new ≡ on_flow rid (with_piece piece.now) self.old) }
    {
        let mut flow = PipeGiven::new(self.alloc);
        flow.add(piece)?;
        self.put(rid, flow)
    }

    // The end of a pipe comes first.
    fn begin_ended(&mut self, rid: i32) -> Result<(), AllocError>
        requires { lookup (is_at (int_cmp rid)) self.old ≡ None }
        ensures { OnOk result (self.new ≡ on_flow rid with_end self.old) }
    {
        let mut flow = PipeGiven::new(self.alloc);
        flow.end();
        self.put(rid, flow)
    }

    // A pipe with what came of it.
    fn put(&mut self, rid: i32, flow: PipeGiven) -> Result<(), AllocError>
        ensures { OnOk result (self.new ≡ insert_entry int_cmp self.old rid flow) }
    {
        self.flows.insert(rid, flow)?;
        Ok(())
    }
}
