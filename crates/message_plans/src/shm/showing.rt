//! Which blocks of which file a message fills.

ghost use Rattle.std.specs.Prelude.{◌≡◌, ◌≤◌, IfOk, OnOk, OnErr, option_map, option_and_then};
ghost use Rattle.block_intervals.specs.Sets.{Rises, EndsBy};
ghost use Rattle.mirror_pools.specs.Sizes.{MOST_FILES};
ghost use Rattle.half_model.specs.Shm.{current, attached_id, buffer_at};
ghost use Rattle.half_model.specs.Showing.{standing, shown_by, filled_by, filled_whole, whole};
ghost use Rattle.half_model.specs.Showing.{no_filling, no_file, on_surface};
ghost use Rattle.surface_damage.specs.DueBytes.{Stands, told_of};
ghost use Rattle.surface_damage.specs.Steps.{with_commit, find};
ghost use Rattle.message_plans.specs.Blocks.{MOST_BLOCK};
ghost use Rattle.message_plans.specs.Making.{made_of};

use super::Shm;
use crate::filling::FilledBlocks;
use crate::made::MadeBuffer;
use block_intervals::Run;
use half_model::{Role, SentFile};
use plain_lists::PlainList;
use shm_pools::fits;
use std::alloc::{AllocError, Global};
use surface_damage::Standing;
use wl_objects::Objects;

// Nothing is filled, of no file.
const NO_FILE: SentFile = SentFile { rid: 0, number: 0 };

impl Shm {
    /// How a buffer stands when its surface is committed: it fits in the told size of its file, or
    /// counts as none.
    fn standing(&self, made: Option<MadeBuffer>) -> Standing
        ensures exact { result ≡ standing self.now.told (option_map made_of made) }
        ensures stands { Stands result }
        ensures few { told_of result ≤ MOST_FILES }
    {
        match made {
            Some(made) => {
                let told = self.told.at(made.file);
                if fits(&made.shape, told) {
                    Standing::Fits {
                        buffer: made.shape,
                        told,
                    }
                } else {
                    Standing::Nothing
                }
            }
            None => Standing::Nothing,
        }
    }

    // The id that was attached last to the surface of an id, or 0.
    fn attached_id(&self, surface: u32) -> u32
        ensures { result ≡ attached_id surface self.now }
    {
        match self.role_at(surface) {
            Some(Role::Surface { buffer }) => buffer,
            _ => 0,
        }
    }

    // The buffer that a surface shows at a commit, if it lives.
    fn current(&self, objects: &Objects, surface: u32) -> Option<MadeBuffer>
        ensures { option_map made_of result ≡ current objects.now.tracked surface self.now }
    {
        let key = self.surfaces.current(surface)?;
        let made = self.buffer_at(objects, self.attached_id(surface))?;
        if made.key.0 == key.0 {
            Some(made)
        } else {
            None
        }
    }

    /// Commits a surface, and answers the blocks to fill.
    ///
    /// # Errors
    /// Only where memory runs out.
    pub(crate) fn commit(
        &mut self,
        alloc: Global,
        objects: &Objects,
        surface: u32,
    ) -> Result<FilledBlocks, AllocError>
        ensures filling { IfOk result (λ it. it ≡ filled_by self.old.told
            (current objects.now.tracked surface self.old) (find surface self.old.surfaces)) }
        ensures ok { OnOk result (self.new ≡ on_surface surface (with_commit (standing self.old.told
            (current objects.now.tracked surface self.old))) self.old) }
    {
        let made = self.current(objects, surface);
        let standing = self.standing(made);
        let due = self.surfaces.commit(surface, &standing)?;
        let runs = PlainList::from_slice(alloc, due.blocks.runs())?;
        Ok(FilledBlocks {
            file: shown_by(made),
            runs,
        })
    }

    /// All blocks of a file, as a keymap fills them.
    ///
    /// # Errors
    /// Only where memory runs out.
    pub(crate) fn whole(
        &self,
        alloc: Global,
        file: Option<SentFile>,
    ) -> Result<FilledBlocks, AllocError>
        ensures { IfOk result (λ it. it ≡ filled_whole self.now.told file) }
    {
        match file {
            Some(file) => {
                let runs = whole(alloc, self.told.at(file))?;
                Ok(FilledBlocks { file, runs })
            }
            None => Ok(nothing(alloc)),
        }
    }
}

/// No block, of no file. Takes no memory.
pub(crate) fn nothing(alloc: Global) -> FilledBlocks
    ensures { result ≡ no_filling }
{
    FilledBlocks {
        file: NO_FILE,
        runs: PlainList::new(alloc),
    }
}

// The file of a buffer.
fn shown_by(made: Option<MadeBuffer>) -> SentFile
    ensures { result ≡ shown_by (option_map made_of made) }
{
    match made {
        Some(made) => made.file,
        None => NO_FILE,
    }
}

// All blocks of a size.
fn whole(alloc: Global, size: u32) -> Result<PlainList<Run>, AllocError>
    requires { size ≤ MOST_FILES }
    ensures runs { IfOk result (λ runs. runs ≡ whole size) }
    ensures rises { IfOk result Rises }
    ensures ends { IfOk result (EndsBy MOST_BLOCK) }
{
    let mut runs = PlainList::new(alloc);
    let count = (size + 63) / 64;
    if count > 0 {
        runs.push(Run {
            first: 0,
            end: count,
        })?;
    }
    Ok(runs)
}
