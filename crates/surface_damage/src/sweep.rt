//! The blocks of many areas of an image, found from its top to its bottom.
//!
//! Areas are taken up in the order of their first rows. Rows that lie in the same areas make a
//! band: the columns of its areas are merged once, and each of its rows adds these columns from
//! left to right. So blocks are added in ascending order alone, each in constant time, and what
//! areas have in common is added once.

ghost use Rattle.std.specs.Prelude.{◌≡◌, ℕ, ◌+◌, ◌^◌, ◌<◌, ◌≤◌, ◌||◌, nat_lt, IfOk, OnOk};
ghost use Rattle.std.specs.List.{All, filter};
ghost use Rattle.std.specs.List.Sorted.{IsNonDecreasingBy};
ghost use Rattle.block_intervals.specs.Sets.{has, EndsBy};
ghost use Rattle.surface_damage.specs.Areas.{some_holds, some_column, IsPart};
ghost use Rattle.surface_damage.specs.Images.{LiesIn, in_pixels, holds};
ghost use Rattle.surface_damage.specs.Sweeps.{AreActive, AreWaiting, HaveSame};

use crate::area::Area;
use crate::image::Image;
use crate::interval::Interval;
use block_intervals::Blocks;
use std::alloc::{AllocError, Global};

// Adds the blocks of the areas.
pub(crate) fn add_areas(
    alloc: Global,
    blocks: &mut Blocks,
    image: Image,
    mut areas: Vec<Area>,
    told: u32,
) -> Result<(), AllocError>
    requires lies { LiesIn image told }
    requires parts { All (IsPart image) areas.items }
    ensures { OnOk result ((block : ℕ) → has block blocks.new ≡ (has block blocks.old
        || holds (in_pixels image (some_holds areas.items)) block)) }
{
    areas.sort_unstable_by_key(|area: &Area| area.rows.first);
    sweep(alloc, blocks, image, &areas, told)
}

// Adds the blocks of the areas, which come in the order of their first rows.
fn sweep(
    alloc: Global,
    blocks: &mut Blocks,
    image: Image,
    areas: &[Area],
    told: u32,
) -> Result<(), AllocError>
    requires lies { LiesIn image told }
    requires parts { All (IsPart image) areas.now }
    requires order { IsNonDecreasingBy (λ area. area.rows.first) areas.now }
    ensures { OnOk result ((block : ℕ) → has block blocks.new ≡ (has block blocks.old
        || holds (in_pixels image (some_holds areas.now)) block)) }
{
    let mut active = Vec::new(alloc);
    let mut waiting = areas;
    let mut row = 0;
    while row < image.height {
        drop_ended(&mut active, row);
        waiting = take_up(&mut active, waiting, image, row)?;
        let band = Interval {
            first: row,
            end: band_end(&active, waiting, image.height),
        };
        let columns = columns_of(alloc, &active, image)?;
        image.add_rows(blocks, band, columns.runs(), told)?;
        row = band.end;
    }
    Ok(())
}

// Drops the areas that end above this row, or at it.
fn drop_ended(areas: &mut Vec<Area>, row: u64)
    ensures { areas.new.items ≡ filter (λ area. nat_lt row area.rows.end) areas.old.items }
{
    areas.retain(|area: &Area| row < area.rows.end);
}

// Makes the areas active that begin at this row, and answers those that still wait. The active ones
// stand in the order of their first columns.
fn take_up<'a>(
    active: &mut Vec<Area>,
    waiting: &'a [Area],
    image: Image,
    row: u64,
) -> Result<&'a [Area], AllocError>
    requires active { AreActive image row active.old.items }
    requires waiting { AreWaiting image row waiting.now }
    ensures active { IfOk result (λ left. AreActive image row active.new.items) }
    ensures waiting { IfOk result (λ left. AreWaiting image (row + 1) left.now) }
    ensures same { IfOk result (λ left.
        HaveSame active.new.items left.now active.old.items waiting.now) }
{
    let mut left = waiting;
    while let [area, later @ ..] = left {
        if row < area.rows.first {
            break;
        }
        let place = active.partition_point(|other| other.columns.first <= area.columns.first);
        active.insert(place, *area)?;
        left = later;
    }
    Ok(left)
}

// The row behind a band: no active area ends above it, and none that waits begins above it.
fn band_end(active: &[Area], waiting: &[Area], height: u64) -> u64
    requires { IsNonDecreasingBy (λ area. area.rows.first) waiting.now }
    ensures height { result ≤ height }
    ensures active { All (λ area. result ≤ area.rows.end) active.now }
    ensures waiting { All (λ area. result ≤ area.rows.first) waiting.now }
    ensures least { (row : ℕ) → row < height → All (λ area. row < area.rows.end) active.now
        → All (λ area. row < area.rows.first) waiting.now → row < result }
{
    let mut end = height;
    if let [next, ..] = waiting {
        end = end.min(next.rows.first);
    }
    for area in active {
        end = end.min(area.rows.end);
    }
    end
}

// The columns of all areas.
fn columns_of(alloc: Global, areas: &[Area], image: Image) -> Result<Blocks, AllocError>
    requires small { image.width < 2 ^ 32 }
    requires parts { All (IsPart image) areas.now }
    ensures has { IfOk result (λ columns. (bx : ℕ) → has bx columns ≡ some_column areas.now bx) }
    ensures within { IfOk result (λ columns. EndsBy image.width columns) }
{
    let mut columns = Blocks::new(alloc);
    for area in areas {
        columns.add(area.columns.first as u32, area.columns.end as u32)?;
    }
    Ok(columns)
}
