//! What happens at the two ends of a pipe, step by step.

use super::*;
use plain_lists::PlainList;
use std::alloc::{AllocError, Global};
use std::test::Fail;
use transfer_frames::Frame;
use wp_outside::{PipeItem, Side};

// What a peer does at an end, or a frame of the other side.
#[derive(Clone, Copy, Debug)]
enum Act {
    Write,
    End,
    Shut,
    Transfer,
    ShutW,
    ShutR,
}

// A step at a pipe, and what came of it by name.
type Row = (Act, i32, &'static str);

fn name_of_frame(answer: &Result<Option<Frame>, PipeFault>) -> &'static str {
    match answer {
        Ok(Some(Frame::PipeTransfer { .. })) => "transfer",
        Ok(Some(Frame::PipeShutW { .. })) => "shut_w",
        Ok(Some(Frame::PipeShutR { .. })) => "shut_r",
        Ok(Some(_)) => "no frame of a pipe",
        Ok(None) => "dropped",
        Err(fault) => name_of_fault(*fault),
    }
}

fn name_of_item(answer: &Result<Option<PipeItem>, PipeFault>) -> &'static str {
    match answer {
        Ok(Some(PipeItem::Bytes { .. })) => "bytes",
        Ok(Some(PipeItem::End { .. })) => "end",
        Ok(Some(PipeItem::Shut { .. })) => "shut",
        Ok(None) => "dropped",
        Err(fault) => name_of_fault(*fault),
    }
}

fn name_of_fault(fault: PipeFault) -> &'static str {
    match fault {
        PipeFault::Unknown => "refused as unknown",
        PipeFault::Shut => "refused as shut",
        PipeFault::Memory => "out of memory",
    }
}

fn hello(alloc: Global) -> Result<PlainList<u8>, AllocError> {
    PlainList::from_slice(alloc, b"hello")
}

fn happens(
    alloc: Global,
    pipes: &mut Pipes,
    act: Act,
    pipe: i32,
) -> Result<&'static str, AllocError> {
    let item = match act {
        Act::Write => PipeItem::Bytes {
            pipe,
            bytes: hello(alloc)?,
        },
        Act::End => PipeItem::End { pipe },
        Act::Shut => PipeItem::Shut { pipe },
        Act::Transfer => {
            let bytes = hello(alloc)?;
            let frame = Frame::PipeTransfer { rid: pipe, bytes };
            return Ok(name_of_item(&pipes.from_link(&frame)));
        }
        Act::ShutW => return Ok(name_of_item(&pipes.from_link(&Frame::PipeShutW { rid: pipe }))),
        Act::ShutR => return Ok(name_of_item(&pipes.from_link(&Frame::PipeShutR { rid: pipe }))),
    };
    Ok(name_of_frame(&pipes.from_peer(&item)))
}

#[test]
fn a_writer_holds_its_end_until_it_closes_it(rt: HostRuntime) -> Result<(), Fail> {
    let rows: [Row; 12] = [
        (Act::Write, 1, "transfer"),
        (Act::Write, 2, "refused as unknown"),
        (Act::Shut, 1, "refused as unknown"),
        (Act::Transfer, 1, "refused as unknown"),
        (Act::ShutW, 1, "refused as unknown"),
        (Act::ShutR, 1, "shut"),
        (Act::ShutR, 1, "refused as shut"),
        (Act::Write, 1, "dropped"),
        (Act::End, 1, "dropped"),
        (Act::End, 1, "refused as unknown"),
        (Act::Write, 1, "refused as unknown"),
        (Act::ShutR, 2, "refused as unknown"),
    ];
    let mut pipes = Pipes::new(rt.alloc(), Side::Near);
    assert_eq!(rt; pipes.open_other(1), Ok(()));
    for (act, pipe, answer) in rows {
        assert_eq!(rt;
            happens(rt.alloc(), &mut pipes, act, pipe)?,
            answer,
            "{act:?} {pipe}"
        );
    }
    Ok(())
}

#[test]
fn an_owner_is_given_nothing_behind_its_shut(rt: HostRuntime) -> Result<(), Fail> {
    let rows: [Row; 11] = [
        (Act::Transfer, 1, "bytes"),
        (Act::Transfer, 2, "refused as unknown"),
        (Act::ShutR, 1, "refused as unknown"),
        (Act::Write, 1, "refused as unknown"),
        (Act::Shut, 1, "shut_r"),
        (Act::Shut, 1, "refused as unknown"),
        (Act::Transfer, 1, "dropped"),
        (Act::ShutW, 1, "dropped"),
        (Act::ShutW, 1, "refused as shut"),
        (Act::Transfer, 1, "refused as shut"),
        (Act::Shut, 2, "refused as unknown"),
    ];
    let mut pipes = Pipes::new(rt.alloc(), Side::Near);
    assert_eq!(rt; pipes.open_own(1), Ok(()));
    for (act, pipe, answer) in rows {
        assert_eq!(rt;
            happens(rt.alloc(), &mut pipes, act, pipe)?,
            answer,
            "{act:?} {pipe}"
        );
    }
    Ok(())
}

#[test]
fn an_owner_may_shut_behind_the_end(rt: HostRuntime) -> Result<(), Fail> {
    let mut pipes = Pipes::new(rt.alloc(), Side::Near);
    assert_eq!(rt; pipes.open_own(-1), Ok(()));
    for (act, answer) in [(Act::ShutW, "end"), (Act::Shut, "shut_r")] {
        assert_eq!(rt;
            happens(rt.alloc(), &mut pipes, act, -1)?,
            answer,
            "{act:?}"
        );
    }
    Ok(())
}

#[test]
fn bytes_go_from_peer_to_peer(rt: HostRuntime) -> Result<(), Fail> {
    let mut writer = Pipes::new(rt.alloc(), Side::Far);
    let mut owner = Pipes::new(rt.alloc(), Side::Near);
    assert_eq!(rt; writer.open_other(3), Ok(()));
    assert_eq!(rt; owner.open_own(3), Ok(()));
    let item = PipeItem::Bytes {
        pipe: 3,
        bytes: hello(rt.alloc())?,
    };
    match writer.from_peer(&item) {
        Ok(Some(Frame::PipeTransfer { rid, bytes })) => {
            let frame = Frame::PipeTransfer { rid, bytes };
            assert_eq!(rt; owner.from_link(&frame), Ok(Some(item)));
        }
        answer => assert!(rt; false, "{answer:?}"),
    }
    Ok(())
}
