//! Reading the whole input.

ghost use Rattle.std.specs.Prelude.{◌≡◌, ◌<◌, [], length, vec_len, IfOk};
ghost use Rattle.waypipe_run.specs.Moving.{ReadsInput, TookNoMore, ReadsMore};
ghost use Rattle.waypipe_run.specs.declared.reading.ReadFault.TheVariants.{Memory};

use std::alloc::{AllocError, Global};
use wl_wire::Bytes;
use wp_outside::{Source, Taken};

/// The greatest count of bytes that the program reads.
const MOST_INPUT: usize = 16_777_216;

/// The greatest piece that is read at once.
const PIECE: usize = 65_536;

/// Why the input was not read.
#[derive(Debug, Drop)]
pub enum ReadFault {
    /// A read failed.
    Failed,
    /// There are more bytes than the program reads.
    TooLong,
    /// Memory ran out.
    Memory,
}

impl From<AllocError> for ReadFault {
    ghost from_gives = { λ _ fault. fault ≡ Memory };

    fn from(_: AllocError) -> ReadFault {
        ReadFault::Memory
    }
}

/// Reads all bytes that are left, in pieces, and at most one more than the limit.
pub fn read_all<S: Source>(alloc: Global, input: &mut S) -> Result<Bytes, ReadFault>
    ensures answer { ReadsInput result (S.left input.old) (S.left input.new)
        (S.faults input.old) (S.faults input.new) }
    ensures bounded { TookNoMore (S.left input.old) (S.left input.new) }
{
    let mut piece = zeros(alloc, PIECE)?;
    read_pieces(input, &mut piece, Bytes::new(alloc))
}

/// So many zeros.
fn zeros(alloc: Global, count: usize) -> Result<Vec<u8>, AllocError>
    ensures { IfOk result (λ zeros. vec_len zeros ≡ count) }
{
    vec![in alloc; 0u8; count]
}

/// Reads all bytes that are left, by this piece, into a list that is empty.
fn read_pieces<S: Source>(
    input: &mut S,
    piece: &mut [u8],
    mut bytes: Bytes,
) -> Result<Bytes, ReadFault>
    requires piece { 0 < length piece.old }
    requires none { bytes ≡ [] }
    ensures answer { ReadsInput result (S.left input.old) (S.left input.new)
        (S.faults input.old) (S.faults input.new) }
    ensures bounded { TookNoMore (S.left input.old) (S.left input.new) }
{
    'pieces: while bytes.len() <= MOST_INPUT {
        let room = piece.len().min(MOST_INPUT + 1 - bytes.len());
        if !read_more(input, &mut piece[..room], &mut bytes)? {
            return Ok(bytes);
        }
    }
    Err(ReadFault::TooLong)
}

/// Reads some bytes behind those that are there. False where none is left.
fn read_more<S: Source>(
    input: &mut S,
    piece: &mut [u8],
    bytes: &mut Bytes,
) -> Result<bool, ReadFault>
    requires { 0 < length piece.old }
    ensures { ReadsMore result (length piece.old) bytes.old bytes.new
        (S.left input.old) (S.left input.new) (S.faults input.old) (S.faults input.new) }
{
    match input.read(piece) {
        Taken::Bytes(count) => {
            bytes.append(piece.split_at(count).0)?;
            Ok(true)
        }
        Taken::End => Ok(false),
        Taken::Failed => Err(ReadFault::Failed),
    }
}
