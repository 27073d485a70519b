//! Notes of a proxy that come into the records of its side.

ghost use Rattle.std.specs.Prelude.{◌≡◌, [], ◌∷◌, ◌++◌, replicate, OnOk, OnErr};
ghost use Rattle.std.specs.List.{AllByRecursion};
ghost use Rattle.transfer_frames.specs.Grammar.{IsFrame};
ghost use Rattle.half_model.specs.declared.notes.Noted.TheVariants as notes;
ghost use Rattle.trail_records.specs.Noting.{Adds, IsNote, noted, note_weight};

use super::Book;
use crate::order::WayList;
use crate::unrecorded::Unrecorded;
use crate::weighing::{with_bytes, with_frames, with_items};
use half_model::{CopyList, FrameList, Noted, other_side};
use std::alloc::AllocError;
use wl_tables::Way;
use wl_wire::{Message, MessageList};

impl Book {
    /// Adds what a proxy noted.
    ///
    /// # Errors
    /// `TooHeavy`, or want of memory.
    pub fn note(&mut self, note: Noted) -> Result<(), Unrecorded>
        requires closed { self.old.trail.lines.room ≡ 0 }
        requires frames { IsNote note }
        ensures { Adds (note_weight note) (noted note) result self.old self.new }
    {
        match note {
            Noted::Taken(message) => self.note_taken(message),
            Noted::Received { messages } => self.note_received(messages),
            Noted::Group { frames, copies } => self.note_group(frames, copies),
        }
    }

    // A message of the own peer was taken.
    fn note_taken(&mut self, message: Message) -> Result<(), Unrecorded>
        requires { self.old.trail.lines.room ≡ 0 }
        ensures { Adds (note_weight (notes.Taken message)) (noted (notes.Taken message))
            result self.old self.new }
    {
        let weight = with_bytes(self.weight, message.bytes().len())?;
        let way = Way::of_peer(self.trail.side);
        push_taken(&mut self.order, &mut self.trail.taken, way, message)?;
        self.weight = weight;
        Ok(())
    }

    // So many messages of the other side came.
    fn note_received(&mut self, messages: u32) -> Result<(), Unrecorded>
        requires { self.old.trail.lines.room ≡ 0 }
        ensures { Adds (note_weight (notes.Received messages)) (noted (notes.Received messages))
            result self.old self.new }
    {
        let way = Way::of_peer(other_side(self.trail.side));
        push_ways(&mut self.order, way, messages)?;
        Ok(())
    }

    // Frames were made.
    fn note_group(&mut self, frames: FrameList, copies: CopyList) -> Result<(), Unrecorded>
        requires closed { self.old.trail.lines.room ≡ 0 }
        requires frames { AllByRecursion IsFrame frames }
        ensures { Adds (note_weight (notes.Group frames copies)) (noted (notes.Group frames copies))
            result self.old self.new }
    {
        let weight = with_frames(self.weight, frames.as_slice())?;
        let weight = with_items(weight, copies.len())?;
        push_group(&mut self.trail.made, &mut self.trail.copies, frames, copies)?;
        self.weight = weight;
        Ok(())
    }
}

// What follows adds to two lists, or to one more than once. Only want of memory is an error, and then
// the lists are as before.

fn push_taken(
    order: &mut WayList,
    taken: &mut MessageList,
    way: Way,
    message: Message,
) -> Result<(), AllocError>
    ensures order { OnOk result (order.new ≡ order.old ++ way ∷ []) }
    ensures taken { OnOk result (taken.new ≡ taken.old ++ message ∷ []) }
    ensures same_order { OnErr result (order.new ≡ order.old) }
    ensures same_taken { OnErr result (taken.new ≡ taken.old) }
{
    let passed = order.len();
    order.push(way)?;
    match taken.push(message) {
        Ok(()) => Ok(()),
        Err(error) => {
            order.truncate(passed);
            Err(error)
        }
    }
}

fn push_group(
    made: &mut FrameList,
    copied: &mut CopyList,
    frames: FrameList,
    copies: CopyList,
) -> Result<(), AllocError>
    ensures made { OnOk result (made.new ≡ made.old ++ frames) }
    ensures copied { OnOk result (copied.new ≡ copied.old ++ copies) }
    ensures same_made { OnErr result (made.new ≡ made.old) }
    ensures same_copied { OnErr result (copied.new ≡ copied.old) }
{
    let mut frames = frames;
    let mut copies = copies;
    let count = made.len();
    made.append_list(&mut frames)?;
    match copied.append_list(&mut copies) {
        Ok(()) => Ok(()),
        Err(error) => {
            made.truncate(count);
            Err(error)
        }
    }
}

fn push_ways(order: &mut WayList, way: Way, count: u32) -> Result<(), AllocError>
    ensures ok { OnOk result (order.new ≡ order.old ++ replicate count way) }
    ensures err { OnErr result (order.new ≡ order.old) }
{
    let passed = order.len();
    for i in 0..count {
        match order.push(way) {
            Ok(()) => {}
            Err(error) => {
                order.truncate(passed);
                return Err(error);
            }
        }
    }
    Ok(())
}
