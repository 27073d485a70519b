//! An image as a surface shows it, and the areas of what is damaged of it.

ghost use Rattle.std.specs.Prelude.{◌≡◌, ℕ, ◌<◌, ◌||◌, true, OnOk, IfOk};
ghost use Rattle.std.specs.List.{All};
ghost use Rattle.block_intervals.specs.Sets.{has};
ghost use Rattle.surface_damage.specs.Areas.{holds_pixel, some_holds, IsPart, IsWithin};
ghost use Rattle.surface_damage.specs.Images.{in_pixels, holds};
ghost use Rattle.surface_damage.specs.Views.{IsShown, some_covers};

use crate::area::Area;
use crate::image::Image;
use crate::interval::Interval;
use crate::rect::Damage;
use crate::transform::Transform;
use block_intervals::{Blocks, Run};
use std::alloc::AllocError;

// An image in the first `told` bytes of its file, shown with a scale and a transform.
#[derive(Clone, Copy)]
pub(crate) struct View {
    pub(crate) image: Image,
    pub(crate) told: u32,
    pub(crate) scale: u32,
    pub(crate) transform: Transform,
}

impl View {
    // Adds the blocks of all pixels.
    pub(crate) fn add_whole(self, blocks: &mut Blocks) -> Result<(), AllocError>
        requires { IsShown self }
        ensures { OnOk result ((block : ℕ) → has block blocks.new ≡ (has block blocks.old
            || holds (in_pixels self.image (λ bx by. true)) block)) }
    {
        let rows = Interval {
            first: 0,
            end: self.image.height,
        };
        let columns = Run {
            first: 0,
            end: self.image.width as u32,
        };
        self.image.add_rows(blocks, rows, &[columns], self.told)
    }

    // Adds the areas that the damage covers, where they have a pixel.
    pub(crate) fn add_damage(
        self,
        areas: &mut Vec<Area>,
        damages: &[Damage],
    ) -> Result<(), AllocError>
        requires shown { IsShown self }
        requires parts { All (IsPart self.image) areas.old.items }
        ensures pixels { OnOk result ((bx by : ℕ) → bx < self.image.width → by < self.image.height
            → some_holds areas.new.items bx by
            ≡ (some_holds areas.old.items bx by || some_covers self damages.now bx by)) }
        ensures parts { All (IsPart self.image) areas.new.items }
    {
        for damage in damages {
            add_area(areas, Area::damaged(self, *damage), self.image)?;
        }
        Ok(())
    }
}

// Adds the area, if it has a pixel.
fn add_area(areas: &mut Vec<Area>, area: Area, image: Image) -> Result<(), AllocError>
    requires within { IsWithin area image.width image.height }
    requires parts { All (IsPart image) areas.old.items }
    ensures pixels { OnOk result ((bx by : ℕ) → some_holds areas.new.items bx by
        ≡ (some_holds areas.old.items bx by || holds_pixel area bx by)) }
    ensures parts { All (IsPart image) areas.new.items }
{
    if area.has_pixels() {
        areas.push(area)?;
        return Ok(());
    }
    Ok(())
}
