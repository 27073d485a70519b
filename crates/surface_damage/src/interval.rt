//! Stretches of places along one side of an image.

ghost use Rattle.std.specs.Prelude.{◌≡◌, ℕ, ◌+◌, ◌-◌, ◌/◌, ◌^◌, ◌<◌, ◌≤◌};
ghost use Rattle.block_intervals.specs.Sets.{lies_within};
ghost use Rattle.surface_damage.specs.Pixels.{in_span};

use crate::rect::Side;

// The whole numbers from `first` up to, but not with, `end`; none where `end` is no greater.
#[derive(Clone, Copy)]
pub(crate) struct Interval {
    pub(crate) first: u64,
    pub(crate) end: u64,
}

// The whole numbers of 0 or more along the side, whose end does not wrap.
fn span(side: Side) -> Interval
    ensures numbers { (n : ℕ)
        → lies_within result.first result.end n ≡ in_span side.low side.length n }
    ensures small { (result.first < 2 ^ 32) × (result.end < 2 ^ 32) }
{
    let end = i64::from(side.low) + i64::from(side.length);
    Interval {
        first: if side.low > 0 { side.low as u64 } else { 0 },
        end: if end > 0 { end as u64 } else { 0 },
    }
}

impl Interval {
    // The places below `count` that come to a number of this interval, `scale` of them to each
    // number.
    fn scaled(self, scale: u32, count: u64) -> Interval
        requires scale { 0 < scale }
        requires small { (self.first < 2 ^ 32) × (self.end < 2 ^ 32) }
        ensures places { (n : ℕ) → n < count
            → lies_within result.first result.end n ≡ lies_within self.first self.end (n / scale) }
        ensures within { (result.first ≤ count) × (result.end ≤ count) }
    {
        Interval {
            first: (self.first * u64::from(scale)).min(count),
            end: (self.end * u64::from(scale)).min(count),
        }
    }

    // The places below `count`, counted from the other side.
    fn mirrored(self, count: u64) -> Interval
        requires within { (self.first ≤ count) × (self.end ≤ count) }
        ensures places { (n : ℕ) → n < count → lies_within result.first result.end n
            ≡ lies_within self.first self.end (count - 1 - n) }
        ensures within { (result.first ≤ count) × (result.end ≤ count) }
    {
        Interval {
            first: count - self.end,
            end: count - self.first,
        }
    }
}

// The places below `count`, counted from the start, whose number lies along the side.
pub(crate) fn from_start(side: Side, scale: u32, count: u64) -> Interval
    requires { 0 < scale }
    ensures places { (n : ℕ) → n < count
        → lies_within result.first result.end n ≡ in_span side.low side.length (n / scale) }
    ensures within { result.end ≤ count }
{
    span(side).scaled(scale, count)
}

// The places below `count` whose number, counted from the end, lies along the side.
pub(crate) fn from_end(side: Side, scale: u32, count: u64) -> Interval
    requires { 0 < scale }
    ensures places { (n : ℕ) → n < count → lies_within result.first result.end n
        ≡ in_span side.low side.length ((count - 1 - n) / scale) }
    ensures within { result.end ≤ count }
{
    span(side).scaled(scale, count).mirrored(count)
}
