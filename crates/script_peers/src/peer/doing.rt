//! What a peer does in the lines of its own.

ghost use Rattle.std.specs.Prelude.{◌≡◌, ◌++◌, ◌∷◌, [], OnOk, true};
ghost use Rattle.half_model.specs.declared.items.PeerIn.TheVariants as items;
ghost use Rattle.pool_words.specs.Views.{PoolId};
ghost use Rattle.script_peers.specs.Owning.{kind_of, grown, filled};
ghost use Rattle.script_peers.specs.Peers.{with_items, did};
ghost use Rattle.script_peers.specs.Putting.{note_if, handle_items, said, pipe_piece};
ghost use Rattle.script_peers.specs.Putting.{with_file, with_pipe, with_changed};
ghost use Rattle.script_peers.specs.Wires.{piece_of, MayStand};

use super::ScriptPeer;
use crate::notable::wants_note;
use crate::own_file::is_size;
use half_model::PeerIn;
use handle_table::Handle;
use script_lang::StepKind;
use std::alloc::AllocError;
use wl_text::TextMessage;
use wl_wire::Bytes;
use wp_outside::{HandleKind, PipeItem, Side};

/// The most bytes that are written to a pipe at once.
const MOST_PIPED: usize = 65_536;

impl ScriptPeer {
    /// Does a line of its own doing.
    pub(super) fn does(&mut self, what: &StepKind) -> Result<(), AllocError>
        ensures { OnOk result ((pool : PoolId) × (self.new ≡ did pool what.now self.old)) }
    {
        match what {
            StepKind::Hex { peer: _, bytes } => self.put_bytes(bytes.as_slice()),
            StepKind::Say { peer, message } => self.say(*peer, message),
            StepKind::File {
                peer: _,
                number,
                size,
            } => self.make_file(*number, *size),
            StepKind::Grow {
                peer: _,
                number,
                size,
            } => self.grow_file(*number, *size),
            StepKind::Fill {
                peer: _,
                number,
                first,
                count,
                value,
            } => self.fill_file(*number, *first, *count, *value),
            StepKind::Pipe { peer: _, number } => self.make_pipe(*number),
            StepKind::Give { peer: _, number } => self.put_handle(*number),
            StepKind::Put {
                peer: _,
                pipe,
                bytes,
            } => self.write_pipe(*pipe, bytes.as_slice()),
            StepKind::End { peer: _, pipe } => self.put_pipe(PipeItem::End { pipe: *pipe }),
            StepKind::Shut { peer: _, number } => self.put_pipe(PipeItem::Shut { pipe: *number }),
            _ => Ok(()),
        }
    }

    /// What a number stands for.
    fn kind_of(&self, number: i32) -> Option<HandleKind>
        ensures { result ≡ kind_of number self.now.own }
    {
        if self.files.place(number).is_some() {
            Some(HandleKind::File)
        } else if self.pipes.contains(&number) {
            Some(HandleKind::PipeWrite)
        } else {
            None
        }
    }

    fn make_file(&mut self, number: i32, size: u32) -> Result<(), AllocError>
        ensures { OnOk result ((pool : PoolId)
            × (self.new ≡ record self.old { own = with_file pool number size self.old.own })) }
    {
        if self.kind_of(number).is_none() && is_size(size) {
            self.files.make(number, size)?;
        }
        Ok(())
    }

    fn grow_file(&mut self, number: i32, size: u32) -> Result<(), AllocError>
        ensures { OnOk result ((pool : PoolId) × (self.new
            ≡ record self.old { own = with_changed number (grown pool size) self.old.own })) }
    {
        self.files.grow(number, size)
    }

    fn fill_file(
        &mut self,
        number: i32,
        first: u32,
        count: u32,
        value: u64,
    ) -> Result<(), AllocError>
        ensures { OnOk result (self.new ≡ record self.old {
          own = with_changed number (filled first count value) self.old.own;
        }) }
    {
        self.files.fill(number, first, count, value)
    }

    fn make_pipe(&mut self, number: i32) -> Result<(), AllocError>
        ensures { OnOk result (self.new
            ≡ record self.old { own = with_pipe number self.old.own }) }
    {
        if self.kind_of(number).is_none() {
            self.pipes.insert(number)?;
        }
        Ok(())
    }

    /// Puts bytes on the wire as one piece.
    fn put_bytes(&mut self, bytes: &[u8]) -> Result<(), AllocError>
        ensures { OnOk result (self.new ≡ with_items (piece_of bytes.now) self.old) }
    {
        if bytes.is_empty() {
            return Ok(());
        }
        let piece = Bytes::from_slice(self.alloc, bytes)?;
        self.wire.put(PeerIn::Bytes(piece))
    }

    /// Puts a message on the wire: a note before a commit or a keymap, then its handles, then its
    /// bytes.
    fn say(&mut self, peer: Side, text: &TextMessage) -> Result<(), AllocError>
        ensures { OnOk result (self.new
            ≡ with_items (said peer self.old.own text.now) self.old) }
    {
        let wanted = wants_note(peer, text.interface, text.message.opcode());
        self.put_note_if(wanted)?;
        self.put_handles(text.handles.as_slice())?;
        self.put_bytes(text.message.bytes())
    }

    /// Puts a note of all files on the wire, where one is wanted.
    fn put_note_if(&mut self, wanted: bool) -> Result<(), AllocError>
        ensures { OnOk result (self.new ≡ with_items (note_if wanted self.old.own) self.old) }
    {
        if !wanted {
            return Ok(());
        }
        let note = self.files.note()?;
        self.wire.put(PeerIn::Note(note))
    }

    /// Puts the handles of numbers on the wire.
    fn put_handles(&mut self, numbers: &[i32]) -> Result<(), AllocError>
        ensures { OnOk result (self.new
            ≡ with_items (handle_items self.old.own numbers.now) self.old) }
    {
        for number in numbers {
            self.put_handle(*number)?;
        }
        Ok(())
    }

    /// Puts the handle of a number on the wire, if it stands for a file or a pipe.
    fn put_handle(&mut self, number: i32) -> Result<(), AllocError>
        ensures { OnOk result (self.new
            ≡ with_items (handle_items self.old.own (number ∷ [])) self.old) }
    {
        match self.kind_of(number) {
            Some(kind) => self.wire.put(PeerIn::Handle(Handle { number, kind })),
            None => Ok(()),
        }
    }

    /// Writes bytes to a pipe, as one piece.
    fn write_pipe(&mut self, pipe: i32, bytes: &[u8]) -> Result<(), AllocError>
        ensures { OnOk result (self.new ≡ with_items (pipe_piece pipe bytes.now) self.old) }
    {
        if bytes.is_empty() || MOST_PIPED < bytes.len() {
            return Ok(());
        }
        let bytes = Bytes::from_slice(self.alloc, bytes)?;
        self.put_pipe(PipeItem::Bytes { pipe, bytes })
    }

    /// Puts on the wire what it does to a pipe.
    fn put_pipe(&mut self, item: PipeItem) -> Result<(), AllocError>
        requires { MayStand (items.Pipe item) }
        ensures { OnOk result (self.new ≡ with_items (items.Pipe item ∷ []) self.old) }
    {
        self.wire.put(PeerIn::Pipe(item))
    }
}
