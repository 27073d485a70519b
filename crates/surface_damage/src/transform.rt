//! How a buffer lies on its surface.

ghost use Rattle.std.specs.Prelude.{◌≡◌, ◌≤◌};
ghost use Rattle.surface_damage.specs.Pixels.{scale_of, transform_of};

/// How a buffer is turned and flipped on its surface (`wl_output.transform`).
#[derive(Clone, Copy, Debug, PartialEq, Eq, Drop)]
pub enum Transform {
    Normal,
    Turned90,
    Turned180,
    Turned270,
    Flipped,
    FlippedTurned90,
    FlippedTurned180,
    FlippedTurned270,
}

// The transform of a request; another number than 0 to 7 counts as 0.
pub(crate) fn read_transform(number: i32) -> Transform
    ensures { result ≡ transform_of number }
{
    match number {
        1 => Transform::Turned90,
        2 => Transform::Turned180,
        3 => Transform::Turned270,
        4 => Transform::Flipped,
        5 => Transform::FlippedTurned90,
        6 => Transform::FlippedTurned180,
        7 => Transform::FlippedTurned270,
        _ => Transform::Normal,
    }
}

// The scale of a request; 0 or less counts as 1.
pub(crate) fn read_scale(scale: i32) -> u32
    ensures scale { result ≡ scale_of scale }
    ensures some { 1 ≤ result }
{
    if scale > 0 { scale as u32 } else { 1 }
}
