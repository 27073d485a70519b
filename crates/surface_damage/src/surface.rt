//! One surface: its requests, and the blocks that a commit fills.

ghost use Rattle.std.specs.Prelude.{◌≡◌, ℕ, ◌+◌, ◌<◌, ◌||◌, [], ◌∷◌, length, take, IsTrue};
ghost use Rattle.std.specs.Prelude.{IfOk, OnOk, OnErr, IfSome};
ghost use Rattle.shm_pools.specs.Buffers.{has_pixels, fits_in};
ghost use Rattle.block_intervals.specs.Sets.{has, Rises};
ghost use Rattle.surface_damage.specs.Images.{in_pixels, image_of, holds};
ghost use Rattle.surface_damage.specs.Views.{IsShown, some_covers};
ghost use Rattle.surface_damage.specs.DueBytes.{geometry_of, commits_since, damage_since, backlog};
ghost use Rattle.surface_damage.specs.DueBytes.{pixel_is_due, byte_is_due, is_due, Stands};
ghost use Rattle.surface_damage.specs.Filled.{filled_at, few};
ghost use Rattle.surface_damage.specs.Sound.{IsSoundSurface};
ghost use Rattle.surface_damage.specs.Steps.{fresh, with_attached, with_damage, with_scale};
ghost use Rattle.surface_damage.specs.Steps.{with_transform, content_of, with_commit};

use crate::commits::{add_commits, all_have, newest_with};
use crate::history::{BufferKey, Commit, Geometry, Shown};
use crate::image::{Image, add_bytes};
use crate::rect::Damage;
use crate::standing::Standing;
use crate::sweep::add_areas;
use crate::transform::{Transform, read_scale, read_transform};
use crate::view::View;
use block_intervals::Blocks;
use shm_pools::Buffer;
use std::alloc::{AllocError, Global};
use std::marker::Model;
use std::mem;

// A set of more runs than this is carried as one run over all.
const MOST_RUNS: usize = 1024;

// How many commits before the one that comes next are remembered.
const BACKLOG: usize = 7;

#[derive(Drop)]
pub(crate) struct Surface {
    attached: Option<BufferKey>,
    scale: u32,
    transform: Transform,
    pending: Vec<Damage>,
    commits: Vec<Commit>,
}

impl Model for Surface {
    ghost use Rattle.std.specs.Prelude.{◌<◌, ◌≤◌, length};
    ghost use Rattle.surface_damage.specs.DueBytes.{backlog};
    ghost use Rattle.surface_damage.specs.History.{SurfaceState};

    ghost Value = { SurfaceState };

    ghost view = { λ s. record {
      attached = s.attached;
      scale = s.scale;
      transform = s.transform;
      pending = s.pending.items;
      commits = s.commits.items;
    } };

    ghost invariant = { λ s. (0 < s.scale) × (length s.commits.items ≤ backlog) };
}

impl Surface {
    pub(crate) fn new(alloc: Global) -> Surface
        ensures { result ≡ fresh }
    {
        Surface {
            attached: None,
            scale: 1,
            transform: Transform::Normal,
            pending: Vec::new(alloc),
            commits: Vec::new(alloc),
        }
    }

    pub(crate) fn attached(&self) -> Option<BufferKey>
        ensures { result ≡ self.now.attached }
    {
        self.attached
    }

    pub(crate) fn attach(&mut self, buffer: Option<BufferKey>)
        ensures { self.new ≡ with_attached buffer self.old }
    {
        self.attached = buffer;
    }

    pub(crate) fn damage(&mut self, damage: Damage) -> Result<(), AllocError>
        ensures ok { OnOk result (self.new ≡ with_damage damage self.old) }
        ensures err { OnErr result (self.new ≡ self.old) }
    {
        self.pending.push(damage)?;
        Ok(())
    }

    pub(crate) fn set_scale(&mut self, scale: i32)
        ensures { self.new ≡ with_scale scale self.old }
    {
        self.scale = read_scale(scale);
    }

    pub(crate) fn set_transform(&mut self, transform: i32)
        ensures { self.new ≡ with_transform transform self.old }
    {
        self.transform = read_transform(transform);
    }

    // The blocks that the commit fills, which becomes the newest one. Want of memory changes
    // nothing.
    pub(crate) fn commit(&mut self, standing: &Standing) -> Result<Blocks, AllocError>
        requires { Stands standing.now }
        ensures blocks { IfOk result (λ blocks. blocks ≡ filled_at self.old standing.now) }
        ensures ok { OnOk result (self.new ≡ with_commit standing.now self.old) }
        ensures err { OnErr result (self.new ≡ self.old) }
    {
        let blocks = self.filled_blocks(standing)?;
        let content = self.content(standing);
        self.remember(content)?;
        Ok(blocks)
    }

    // What is pending becomes the newest commit, with this content.
    fn remember(&mut self, content: Option<Shown>) -> Result<(), AllocError>
        ensures ok { OnOk result (self.new ≡ record self.old {
          pending = [];
          commits =
              take backlog (record { content = content; damage = self.old.pending }
              ∷ self.old.commits);
        }) }
        ensures err { OnErr result (self.new ≡ self.old) }
    {
        let nothing = Vec::new(*self.pending.allocator());
        let damage = mem::replace(&mut self.pending, nothing);
        match self.commits.insert(0, Commit { content, damage }) {
            Ok(()) => {
                self.commits.truncate(BACKLOG);
                Ok(())
            }
            Err(failed) => {
                self.pending = failed.value.damage;
                Err(AllocError)
            }
        }
    }

    // What the commit that comes next shows.
    fn content(&self, standing: &Standing) -> Option<Shown>
        ensures { result ≡ content_of self.now standing.now }
    {
        match *standing {
            Standing::Nothing => None,
            Standing::Fits { buffer, told: _ } => match self.attached {
                Some(key) => Some(Shown {
                    buffer: key,
                    geometry: self.geometry(&buffer),
                }),
                None => None,
            },
        }
    }

    fn geometry(&self, buffer: &Buffer) -> Geometry
        ensures { result ≡ geometry_of self.now buffer.now }
    {
        Geometry {
            scale: self.scale,
            transform: self.transform,
            width: buffer.width,
            height: buffer.height,
        }
    }

    // The blocks that hold a due byte; where these make too many runs, all from the first to the
    // last.
    fn filled_blocks(&self, standing: &Standing) -> Result<Blocks, AllocError>
        requires { Stands standing.now }
        ensures { IfOk result (λ blocks. blocks ≡ filled_at self.now standing.now) }
    {
        let mut blocks = self.due_blocks(standing)?;
        keep_few(&mut blocks);
        Ok(blocks)
    }

    // The blocks that hold a due byte.
    fn due_blocks(&self, standing: &Standing) -> Result<Blocks, AllocError>
        requires { Stands standing.now }
        ensures { IfOk result (λ blocks. (block : ℕ)
            → has block blocks ≡ holds (is_due self.now standing.now) block) }
    {
        let mut blocks = Blocks::new(*self.pending.allocator());
        match *standing {
            Standing::Nothing => Ok(blocks),
            Standing::Fits { buffer, told } => match self.attached {
                Some(key) => {
                    self.add_due(&mut blocks, &buffer, told, key)?;
                    Ok(blocks)
                }
                None => Ok(blocks),
            },
        }
    }

    // Adds the blocks of a buffer that fits which hold a due byte.
    fn add_due(
        &self,
        blocks: &mut Blocks,
        buffer: &Buffer,
        told: u32,
        key: BufferKey,
    ) -> Result<(), AllocError>
        requires { IsTrue (fits_in buffer.now told) }
        ensures { OnOk result ((block : ℕ) → has block blocks.new ≡ (has block blocks.old
            || holds (byte_is_due self.now key buffer.now told) block)) }
    {
        if is_four_byte(buffer.format) {
            self.add_image(blocks, buffer, told, key)
        } else {
            add_bytes(blocks, Image::of(buffer).offset, u64::from(told))
        }
    }

    // Adds the blocks of the due pixels of a buffer that fits and has pixels.
    fn add_image(
        &self,
        blocks: &mut Blocks,
        buffer: &Buffer,
        told: u32,
        key: BufferKey,
    ) -> Result<(), AllocError>
        requires fits { IsTrue (fits_in buffer.now told) }
        requires pixels { IsTrue (has_pixels buffer.now.format) }
        ensures { OnOk result ((block : ℕ) → has block blocks.new ≡ (has block blocks.old
            || holds (in_pixels (image_of buffer.now)
            (pixel_is_due self.now key buffer.now)) block)) }
    {
        let view = self.view(buffer, told);
        match self.commits_since(key, self.geometry(buffer)) {
            None => view.add_whole(blocks),
            Some(back) => self.add_since(blocks, view, back),
        }
    }

    // The image of a buffer that fits, as this surface shows it.
    fn view(&self, buffer: &Buffer, told: u32) -> View
        requires fits { IsTrue (fits_in buffer.now told) }
        requires pixels { IsTrue (has_pixels buffer.now.format) }
        ensures view { result ≡ record {
          image = image_of buffer.now;
          told = told;
          scale = self.now.scale;
          transform = self.now.transform;
        } }
        ensures shown { IsShown result }
    {
        View {
            image: Image::of(buffer),
            told,
            scale: self.scale,
            transform: self.transform,
        }
    }

    // How many commits there were since the last one with this buffer, where the damage since then
    // is enough.
    fn commits_since(&self, key: BufferKey, geometry: Geometry) -> Option<usize>
        ensures since { result ≡ commits_since self.now key geometry }
        ensures within { IfSome result (λ back. back < length self.now.commits) }
    {
        match newest_with(&self.commits, key) {
            Some(back) => {
                if all_have(&self.commits[..back + 1], geometry) {
                    Some(back)
                } else {
                    None
                }
            }
            None => None,
        }
    }

    // Adds the blocks of what is damaged since `back` commits ago.
    fn add_since(&self, blocks: &mut Blocks, view: View, back: usize) -> Result<(), AllocError>
        requires shown { IsShown view }
        requires within { back < length self.now.commits }
        ensures { OnOk result ((block : ℕ) → has block blocks.new ≡ (has block blocks.old
            || holds (in_pixels view.image
            (some_covers view (damage_since self.now back))) block)) }
    {
        let alloc = *self.pending.allocator();
        let mut areas = Vec::new(alloc);
        view.add_damage(&mut areas, &self.pending)?;
        add_commits(&mut areas, view, &self.commits[..back])?;
        add_areas(alloc, blocks, view.image, areas, view.told)
    }
}

// Fills the gaps of a set of too many runs.
fn keep_few(blocks: &mut Blocks)
    ensures few { blocks.new ≡ few blocks.old }
    ensures rose { Rises blocks.old }
{
    if blocks.len() > MOST_RUNS {
        blocks.hull();
    }
}

// Whether a pixel of the format has four bytes.
fn is_four_byte(format: u32) -> bool
    ensures { result ≡ has_pixels format }
{
    format == 0 || format == 1
}
