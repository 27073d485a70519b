//! The copies that a message waits for, made of the pieces of its filled blocks.

ghost use Rattle.std.specs.Prelude.{◌≡◌, ◌+◌, ◌≤◌, ◌++◌, length, IfOk, OnOk};
ghost use Rattle.half_model.specs.Filling.{parts_of, parts_of_piece, parts_from};
ghost use Rattle.half_model.specs.Filling.{part_in};
ghost use Rattle.half_model.specs.Jobs.{jobs_of, job_of};
ghost use Rattle.message_plans.specs.Blocks.{IsInFile, AreInFile};
ghost use Rattle.owed_groups.specs.JobSteps.{eyes_words, one_job};

use crate::copies::Copies;
use crate::slot::Slot;
use crate::stage::Stage;
use block_intervals::Run;
use copy_workers::WordList;
use half_model::SentFile;
use pool_words::Eye;
use std::alloc::{AllocError, Global};

/// The copies of the words of these pieces of a file, numbered from `next` on, each with an eye of
/// its segment's own.
///
/// # Errors
/// Only where memory runs out, or numbers of copies do, of which there are 2^64.
pub(crate) fn jobs_of(
    alloc: Global,
    next: u64,
    eyes: &mut [Eye],
    file: SentFile,
    pieces: &[Run],
) -> Result<Copies, AllocError>
    requires { AreInFile pieces.now }
    ensures { IfOk result (λ copies. copies
        ≡ jobs_of next eyes.old (parts_of file.number (eyes_words eyes.old) pieces.now)) }
{
    let slots = slots_of(alloc, next, eyes, file, pieces)?;
    Ok(Copies::from_slots(slots, next))
}

// The copies of the words of these pieces.
fn slots_of(
    alloc: Global,
    next: u64,
    eyes: &mut [Eye],
    file: SentFile,
    pieces: &[Run],
) -> Result<Vec<Slot>, AllocError>
    requires { AreInFile pieces.now }
    ensures { IfOk result (λ slots. slots.items
        ≡ jobs_of next eyes.old (parts_of file.number (eyes_words eyes.old) pieces.now)) }
{
    let mut slots = Vec::new(alloc);
    for piece in pieces {
        add_piece(&mut slots, next, eyes, file, *piece)?;
    }
    Ok(slots)
}

// Puts the copies of a piece's words behind others.
fn add_piece(
    slots: &mut Vec<Slot>,
    next: u64,
    eyes: &mut [Eye],
    file: SentFile,
    piece: Run,
) -> Result<(), AllocError>
    requires { IsInFile piece }
    ensures slots { OnOk result (slots.new.items ≡ slots.old.items
        ++ jobs_of (next + length slots.old.items) eyes.old
        (parts_of_piece file.number (eyes_words eyes.old) piece)) }
    ensures eyes { eyes.new ≡ eyes.old }
{
    add_words(slots, next, eyes, file, 8 * piece.first, 8 * piece.end)
}

// Puts the copies of the words from `first` on and before `end` behind others.
fn add_words(
    slots: &mut Vec<Slot>,
    next: u64,
    eyes: &mut [Eye],
    file: SentFile,
    first: u32,
    end: u32,
) -> Result<(), AllocError>
    ensures slots { OnOk result (slots.new.items ≡ slots.old.items
        ++ jobs_of (next + length slots.old.items) eyes.old
        (parts_from file.number 0 (eyes_words eyes.old) first end)) }
    ensures eyes { eyes.new ≡ eyes.old }
{
    let mut from = first;
    let mut until = end;
    for segment in 0..eyes.len() {
        let words = eyes[segment].words();
        add_part(slots, next, &mut eyes[segment], file, segment, from, until)?;
        from = from.saturating_sub(words);
        until = until.saturating_sub(words);
    }
    Ok(())
}

// Puts the copy of a segment's words from `first` on and before `end` behind others, if there are
// such words.
fn add_part(
    slots: &mut Vec<Slot>,
    next: u64,
    eye: &mut Eye,
    file: SentFile,
    segment: usize,
    first: u32,
    end: u32,
) -> Result<(), AllocError>
    ensures slots { OnOk result (slots.new.items ≡ slots.old.items
        ++ one_job (next + length slots.old.items) eye.old
        (part_in file.number segment eye.old.words first end)) }
    ensures same { eye.new ≡ eye.old }
{
    let until = eye.words().min(end);
    if first >= until {
        return Ok(());
    }
    let Ok(segment) = u32::try_from(segment) else {
        return Err(AllocError);
    };
    let Some(id) = next.checked_add(slots.len() as u64) else {
        return Err(AllocError);
    };
    let slot = waiting(
        *slots.allocator(),
        eye,
        id,
        file,
        segment,
        first,
        until - first,
    )?;
    slots.push(slot)?;
    Ok(())
}

// A copy of some words of a segment, with an eye of its own.
fn waiting(
    alloc: Global,
    eye: &mut Eye,
    id: u64,
    file: SentFile,
    segment: u32,
    first: u32,
    count: u32,
) -> Result<Slot, AllocError>
    requires { first + count ≤ eye.old.words }
    ensures slot { IfOk result (λ slot. slot ≡ job_of id (record {
      file = file.number;
      segment = segment;
      first = first;
      count = count;
    }) eye.old) }
    ensures same { eye.new ≡ eye.old }
{
    let words = vec![in alloc; 0; count as usize]?;
    let low = eye.low();
    let pool = eye.number();
    let eye = eye.split()?;
    Ok(Slot {
        id,
        file: file.number,
        segment,
        first,
        count,
        low,
        pool,
        stage: Stage::Waits {
            eye,
            words: WordList::from_vec(words),
        },
    })
}
