//! The listing of a whole stream of frames: a line for each, then what stands behind them.

ghost use Rattle.std.specs.Prelude.{◌≡◌, ◌++◌, ◌∷◌, [], IfOk};
ghost use Rattle.transfer_frames.specs.FrameLines.{line};
ghost use Rattle.frame_stream.specs.Listing.{IsListing, ListedOnce, OneListing, SomeListing};

use std::alloc::{AllocError, Global};
use transfer_frames::{DecodeFault, Frame, FrameCause, first_frame, with_frame_line};
use wl_wire::Text;

/// What stands behind the last whole frame of a stream.
#[derive(Clone, Copy, Debug, PartialEq, Eq)]
pub enum StreamEnd {
    /// Nothing, or the beginning of a frame: this many bytes.
    Rest(u64),
    /// A fault, at its place: the count of bytes before it.
    Fault { place: u64, cause: FrameCause },
}

/// The whole frames of a stream as text, and what stands behind them.
#[derive(Debug, Drop)]
pub struct Listing {
    /// A line for each frame, in order, with its place in the stream; the byte 10 ends each.
    pub lines: Text,
    /// What stands behind the last of these frames.
    pub stream_end: StreamEnd,
}

/// A text with the line of a frame and the byte that ends it behind. The frame isn't needed any
/// more and is dropped.
fn with_ended_line(lines: Text, place: u64, frame: Frame) -> Result<Text, AllocError>
    ensures { IfOk result (λ text. text ≡ lines ++ (line place frame ++ 10 ∷ [])) }
{
    let mut text = with_frame_line(lines, place, &frame)?;
    text.push(b'\n')?;
    Ok(text)
}

/// The frames of a whole stream, each as its line, up to the rest or the first fault.
///
/// # Errors
/// Only where memory runs out.
pub fn list_frames(alloc: Global, bytes: &[u8]) -> Result<Listing, AllocError>
    ensures { IfOk result (λ listing. IsListing bytes.now listing) }
{
    let mut lines = Text::new(alloc);
    let mut place = 0usize;
    'frames: loop {
        let (_, rest) = bytes.split_at(place);
        match first_frame(alloc, rest) {
            Ok(Some((frame, length))) => {
                // Most of a long frame's line is two digits for each of its bytes.
                lines.reserve(length.saturating_mul(2))?;
                lines = with_ended_line(lines, place as u64, frame)?;
                place += length;
            }
            Ok(None) => {
                return Ok(Listing {
                    lines,
                    stream_end: StreamEnd::Rest(rest.len() as u64),
                });
            }
            Err(DecodeFault::Frame(cause)) => {
                return Ok(Listing {
                    lines,
                    stream_end: StreamEnd::Fault {
                        place: place as u64,
                        cause,
                    },
                });
            }
            Err(DecodeFault::Memory) => return Err(AllocError),
        }
    }
}

/// A stream is one row of frames and one rest, so it has one listing, and each stream has one.
pub fn listing_is_unique()
    ensures row { ListedOnce }
    ensures one { OneListing }
    ensures some { SomeListing }
{}

#[cfg(test)]
mod tests;
