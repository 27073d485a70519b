//! The frames of the other side, type by type.

ghost use Rattle.std.specs.Prelude.{◌≡◌, ◌||◌, true, is_some, is_none};
ghost use Rattle.std.specs.List.{list_any};
ghost use Rattle.transfer_frames.specs.declared.frame.Frame.TheVariants as frames;
ghost use Rattle.pipe_relay.specs.Pipes.{PipesState, is_of_pipe};
ghost use Rattle.wl_objects.specs.Registry.{ObjectsState};
ghost use Rattle.handle_table.specs.Table.{Table, kind_of_rid};
ghost use Rattle.half_model.specs.Sides.{is_own};
ghost use Rattle.take_half.specs.TakeState.{tables_of};
ghost use Rattle.take_half.specs.Accepting.{Accepts};

use super::TakeHalf;
use half_model::{PeerOut, TakeFault, is_own, other_side};
use handle_table::Handles;
use mirror_pools::MirrorFault;
use pipe_relay::{PipeFault, Pipes};
use transfer_frames::{Frame, FrameCause};
use wl_objects::Objects;
use wl_tables::Way;
use wl_wire::{Bytes, HandleNumbers, cut_messages};
use wp_outside::{HandleKind, Side};

impl TakeHalf {
    // PROTOCOL: its messages pass tracking, and each has the rid that it carries.
    pub(super) fn hear_messages(
        &mut self,
        messages: Bytes,
        objects: &mut Objects,
        handles: &Handles,
    ) -> Result<(), TakeFault>
        requires side { handles.now.side ≡ self.old.side }
        ensures exact { (pipes : PipesState) → Accepts result (frames.Protocol messages)
            (tables_of objects.old handles.now pipes)
            (tables_of objects.new handles.now pipes) self.old self.new }
        ensures same { self.new.side ≡ self.old.side }
    {
        let list = cut_messages(self.alloc, messages.as_slice())?;
        let way = Way::of_peer(other_side(self.side));
        self.passing.begin();
        self.passing.pass_all(way, list, objects, handles)?;
        if !self.passing.none_waits() {
            return Err(TakeFault::Frame(FrameCause::RidCount));
        }
        self.passing.give_to(&mut self.items)?;
        Ok(())
    }

    // INJECT: rids that were opened wait for their messages.
    pub(super) fn hear_rids(
        &mut self,
        rids: &HandleNumbers,
        handles: &Handles,
    ) -> Result<(), TakeFault>
        ensures exact { (objects : ObjectsState) (pipes : PipesState) →
            Accepts result (frames.Inject rids.now)
            (tables_of objects handles.now pipes)
            (tables_of objects handles.now pipes) self.old self.new }
        ensures same { self.new.side ≡ self.old.side }
    {
        if any_unknown(rids.as_slice(), handles) {
            return Err(TakeFault::Frame(FrameCause::RidUnknown));
        }
        self.passing.wait_for(rids.as_slice())?;
        Ok(())
    }

    // OPEN_FILE: a file of the other peer.
    pub(super) fn open_file(
        &mut self,
        rid: i32,
        size: u32,
        handles: &mut Handles,
    ) -> Result<(), TakeFault>
        requires side { handles.old.side ≡ self.old.side }
        ensures exact { (objects : ObjectsState) (pipes : PipesState) →
            Accepts result (frames.OpenFile rid size)
            (tables_of objects handles.old pipes)
            (tables_of objects handles.new pipes) self.old self.new }
        ensures same { self.new.side ≡ self.old.side }
        ensures table { handles.new.side ≡ handles.old.side }
    {
        if is_taken(self.side, rid, handles) {
            return Err(TakeFault::Frame(FrameCause::RidInUse));
        }
        match self.sizes.open(rid, size) {
            Ok(()) => {
                handles.took(rid, HandleKind::File)?;
                self.items.push_back(PeerOut::Opened { rid, size })?;
                Ok(())
            }
            Err(MirrorFault::Frame(cause)) => Err(TakeFault::Frame(cause)),
            Err(MirrorFault::Memory) => Err(TakeFault::Memory),
        }
    }

    // EXTEND_FILE: a file has grown.
    pub(super) fn grow_file(&mut self, rid: i32, size: u32) -> Result<(), TakeFault>
        ensures exact { (objects : ObjectsState) (handles : Table) (pipes : PipesState) →
            Accepts result (frames.ExtendFile rid size)
            (tables_of objects handles pipes)
            (tables_of objects handles pipes) self.old self.new }
        ensures same { self.new.side ≡ self.old.side }
    {
        match self.sizes.extend(rid, size) {
            Ok(()) => {
                self.items.push_back(PeerOut::Grown { rid, size })?;
                Ok(())
            }
            Err(MirrorFault::Frame(cause)) => Err(TakeFault::Frame(cause)),
            Err(MirrorFault::Memory) => Err(TakeFault::Memory),
        }
    }

    // FILL: new bytes of a file, which move as they are.
    pub(super) fn fill_file(
        &mut self,
        rid: i32,
        start: u32,
        end: u32,
        bytes: Bytes,
    ) -> Result<(), TakeFault>
        ensures exact { (objects : ObjectsState) (handles : Table) (pipes : PipesState) →
            Accepts result (frames.Fill rid start end bytes)
            (tables_of objects handles pipes)
            (tables_of objects handles pipes) self.old self.new }
        ensures same { self.new.side ≡ self.old.side }
    {
        match self.sizes.fill(rid, start, end) {
            Ok(()) => {
                self.items.push_back(PeerOut::Filled { rid, start, bytes })?;
                Ok(())
            }
            Err(cause) => Err(TakeFault::Frame(cause)),
        }
    }

    // OPEN_PIPE: the write end of a pipe of the other peer.
    pub(super) fn open_pipe(
        &mut self,
        rid: i32,
        handles: &mut Handles,
        pipes: &mut Pipes,
    ) -> Result<(), TakeFault>
        requires side { handles.old.side ≡ self.old.side }
        ensures exact { (objects : ObjectsState) → Accepts result (frames.OpenPipe rid)
            (tables_of objects handles.old pipes.old)
            (tables_of objects handles.new pipes.new) self.old self.new }
        ensures same { self.new ≡ self.old }
        ensures table { handles.new.side ≡ handles.old.side }
    {
        if is_taken(self.side, rid, handles) {
            return Err(TakeFault::Frame(FrameCause::RidInUse));
        }
        handles.took(rid, HandleKind::PipeWrite)?;
        pipes.open_other(rid)?;
        Ok(())
    }

    // A frame of a pipe.
    pub(super) fn hear_pipe(&mut self, frame: &Frame, pipes: &mut Pipes) -> Result<(), TakeFault>
        requires { is_of_pipe frame.now ≡ true }
        ensures exact { (objects : ObjectsState) (handles : Table) →
            Accepts result frame.now
            (tables_of objects handles pipes.old)
            (tables_of objects handles pipes.new) self.old self.new }
        ensures same { self.new.side ≡ self.old.side }
    {
        match pipes.from_link(frame) {
            Ok(Some(item)) => {
                self.items.push_back(PeerOut::Pipe(item))?;
                Ok(())
            }
            Ok(None) => Ok(()),
            Err(PipeFault::Unknown) => Err(TakeFault::Frame(FrameCause::PipeUnknown)),
            Err(PipeFault::Shut) => Err(TakeFault::Frame(FrameCause::PipeShut)),
            Err(PipeFault::Memory) => Err(TakeFault::Memory),
        }
    }
}

// Whether a rid may not be opened by the other side: it is open, or this side's own.
fn is_taken(side: Side, rid: i32, handles: &Handles) -> bool
    requires { handles.now.side ≡ side }
    ensures { result ≡ (is_some (kind_of_rid handles.now rid) || is_own handles.now.side rid) }
{
    handles.kind_of(rid).is_some() || is_own(side, rid)
}

// Whether the other side did not open one of these rids.
fn any_unknown(rids: &[i32], handles: &Handles) -> bool
    ensures { result ≡ list_any (λ rid. is_none (kind_of_rid handles.now rid)) rids.now }
{
    for rid in rids {
        if handles.kind_of(*rid).is_none() {
            return true;
        }
    }
    false
}
