//! What frames mean that a side accepted.

ghost use Rattle.std.specs.Prelude.{◌≡◌, ◌++◌, OnOk};
ghost use Rattle.wl_wire.specs.Wire.{cut};
ghost use Rattle.pipe_relay.specs.Pipes.{with_rid};
ghost use Rattle.pair_report.specs.Meant.{no_meaning, with_frame};

use crate::flows::FlowMap;
use crate::mirrors::MirrorMap;
use std::alloc::{AllocError, Global};
use std::collections::BTreeSet;
use std::marker::Model;
use transfer_frames::Frame;
use wl_wire::{Bytes, HandleNumbers, MessageList, cut_messages};

/// What frames mean, taken in one after another.
#[derive(Drop)]
pub(crate) struct Meaning {
    pub(crate) messages: MessageList,
    /// The rids that the messages take.
    pub(crate) rids: HandleNumbers,
    pub(crate) mirrors: MirrorMap,
    /// The pipes that were opened.
    pub(crate) opened: BTreeSet<i32>,
    /// What came of pipes.
    pub(crate) flows: FlowMap,
    alloc: Global,
}

impl Model for Meaning {
    ghost use Rattle.pair_report.specs.Meant.{Meant};

    ghost Value = { Meant };

    ghost view = { λ it. record {
      messages = it.messages;
      rids = it.rids;
      mirrors = it.mirrors;
      opened = it.opened.keys;
      flows = it.flows;
    } };
}

impl Meaning {
    /// That of no frame. Takes no memory.
    pub(crate) fn new(alloc: Global) -> Meaning
        ensures { result ≡ no_meaning }
    {
        Meaning {
            messages: MessageList::new(alloc),
            rids: HandleNumbers::new(alloc),
            mirrors: MirrorMap::new(alloc),
            opened: BTreeSet::new(alloc),
            flows: FlowMap::new(alloc),
            alloc,
        }
    }

    /// Takes one more frame in.
    pub(crate) fn take(&mut self, frame: Frame) -> Result<(), AllocError>
        ensures { OnOk result (self.new ≡ with_frame frame self.old) }
    {
        match frame {
            Frame::Protocol { messages } => self.take_messages(&messages),
            Frame::Inject { rids } => self.rids.append(rids.as_slice()),
            Frame::OpenFile { rid, size } => self.mirrors.open(rid, size),
            Frame::ExtendFile { rid, size } => self.mirrors.extend(rid, size),
            Frame::Fill {
                rid,
                start,
                bytes,
                ..
            } => self.mirrors.fill(rid, start, bytes.as_slice()),
            Frame::OpenPipe { rid } => self.take_pipe(rid),
            Frame::PipeTransfer { rid, bytes } => self.flows.add(rid, bytes.as_slice()),
            Frame::PipeShutW { rid } => self.flows.end(rid),
            Frame::PipeShutR { .. } => Ok(()),
            Frame::Ack { .. } => Ok(()),
            Frame::Restart { .. } => Ok(()),
            Frame::Close { .. } => Ok(()),
        }
    }

    // The messages of a frame.
    fn take_messages(&mut self, bytes: &Bytes) -> Result<(), AllocError>
        ensures { OnOk result (self.new
            ≡ record self.old { messages = self.old.messages ++ cut bytes.now }) }
    {
        let mut messages = cut_messages(self.alloc, bytes.as_slice())?;
        self.messages.append_list(&mut messages)
    }

    // A pipe is opened.
    fn take_pipe(&mut self, rid: i32) -> Result<(), AllocError>
        ensures { OnOk result (self.new
            ≡ record self.old { opened = with_rid rid self.old.opened }) }
    {
        self.opened.insert(rid)?;
        Ok(())
    }
}
