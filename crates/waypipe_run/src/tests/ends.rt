//! What is answered where reading or writing fails, or the input is too long.
use super::{answered, run, words_of};
use crate::status::Status;
use half_model::Limit;
use std::alloc::{AllocError, Global};
use std::test::Fail;

/// What a replay of an input answers and writes, where the calls of these numbers fail.
fn failing(
    alloc: Global,
    input: Vec<u8>,
    places: usize,
    reads: Vec<u32>,
    writes: Vec<u32>,
) -> Result<(Status, Vec<u8>), AllocError> {
    let words = words_of(alloc, "replay")?;
    run(alloc, words.as_slice(), input, places, reads, writes)
}

#[test]
fn failing_ends(rt: HostRuntime) -> Result<(), Fail> {
    let alloc = rt.alloc();
    let none = Vec::new(alloc);
    let (status, text) = failing(alloc, none, 300, vec![in alloc; 0]?, Vec::new(alloc))?;
    assert_eq!(rt; status, Status::ReadFault);
    assert_eq!(rt; text.as_slice(), b"read failed\n".as_slice());
    let none = Vec::new(alloc);
    let (status, text) = failing(alloc, none, 300, Vec::new(alloc), vec![in alloc; 0]?)?;
    assert_eq!(rt; status, Status::WriteFault);
    assert_eq!(rt; text.len(), 0);
    // in mid-stream
    let input = vec![in alloc; b'\n'; 100_000]?;
    let (status, text) = failing(alloc, input, 300, vec![in alloc; 1]?, Vec::new(alloc))?;
    assert_eq!(rt; status, Status::ReadFault);
    assert_eq!(rt; text.as_slice(), b"read failed\n".as_slice());
    let none = Vec::new(alloc);
    let (status, text) = failing(alloc, none, 20, Vec::new(alloc), Vec::new(alloc))?;
    assert_eq!(rt; status, Status::WriteFault);
    assert_eq!(rt; text.as_slice(), b"connections 0\napplic".as_slice());
    Ok(())
}

/// The status of a limit that the input passes.
fn limit(which: Limit) -> Status {
    Status::Limit { which }
}

#[test]
fn limits(rt: HostRuntime) -> Result<(), Fail> {
    let alloc = rt.alloc();
    let most = vec![in alloc; b'#'; 16_777_216]?;
    let (status, _) = answered(alloc, "replay", most.as_slice())?;
    assert_eq!(rt; status, Status::Done);
    let above = vec![in alloc; b'#'; 16_777_217]?;
    let (status, text) = answered(alloc, "replay", above.as_slice())?;
    assert_eq!(rt; status, limit(Limit::Input));
    assert_eq!(rt; text.as_slice(), b"limit input\n".as_slice());
    let (status, text) = answered(alloc, "frames", above.as_slice())?;
    assert_eq!(rt; status, limit(Limit::Input));
    assert_eq!(rt; text.as_slice(), b"limit input\n".as_slice());
    // lines are counted before any of them is read
    let most = vec![in alloc; b'\n'; 200_000]?;
    let (status, _) = answered(alloc, "replay", most.as_slice())?;
    assert_eq!(rt; status, Status::Done);
    let mut above = Vec::from_slice(alloc, b"no line")?;
    above.extend_from_slice(most.as_slice())?;
    above.push(b'#')?;
    let (status, text) = answered(alloc, "replay", above.as_slice())?;
    assert_eq!(rt; status, limit(Limit::Lines));
    assert_eq!(rt; text.as_slice(), b"limit lines\n".as_slice());
    Ok(())
}
