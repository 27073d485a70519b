//! What a list of commits, the newest first, says of damage.

ghost use Rattle.std.specs.Prelude.{◌≡◌, ℕ, ◌<◌, ◌||◌, position, length, OnOk, IfSome};
ghost use Rattle.std.specs.List.{All, flat_map};
ghost use Rattle.surface_damage.specs.Areas.{some_holds, IsPart};
ghost use Rattle.surface_damage.specs.DueBytes.{all_had};
ghost use Rattle.surface_damage.specs.History.{shows};
ghost use Rattle.surface_damage.specs.Views.{IsShown, some_covers};

use crate::area::Area;
use crate::history::{BufferKey, Commit, Geometry};
use crate::view::View;
use std::alloc::AllocError;

// Adds the areas that the damage of these commits covers.
pub(crate) fn add_commits(
    areas: &mut Vec<Area>,
    view: View,
    commits: &[Commit],
) -> Result<(), AllocError>
    requires shown { IsShown view }
    requires parts { All (IsPart view.image) areas.old.items }
    ensures pixels { OnOk result ((bx by : ℕ) → bx < view.image.width → by < view.image.height
        → some_holds areas.new.items bx by ≡ (some_holds areas.old.items bx by
        || some_covers view (flat_map (λ c. c.damage) commits.now) bx by)) }
    ensures parts { All (IsPart view.image) areas.new.items }
{
    for commit in commits {
        view.add_damage(areas, commit.damage())?;
    }
    Ok(())
}

// The place of the newest commit that showed the buffer.
pub(crate) fn newest_with(commits: &[Commit], key: BufferKey) -> Option<usize>
    ensures place { result ≡ position (λ c. shows key c.content) commits.now }
    ensures within { IfSome result (λ place. place < length commits.now) }
{
    commits.iter().position(|commit| commit.shows(key))
}

// Whether all these commits had the geometry.
pub(crate) fn all_have(commits: &[Commit], geometry: Geometry) -> bool
    ensures { result ≡ all_had geometry commits.now }
{
    commits.iter().all(|commit| commit.has_geometry(geometry))
}
