use super::*;
use std::alloc::{AllocError, Global};
use std::test::Fail;

/// The bytes 1 to 3, pushed and appended, and 4 and 5 moved behind them.
fn one_to_five(alloc: Global) -> Result<PlainList<u8>, AllocError> {
    let mut list = PlainList::with_capacity(alloc, 2)?;
    list.push(1)?;
    list.append(&[2, 3])?;
    let mut other = PlainList::from_slice(alloc, &[4, 5])?;
    list.append_list(&mut other)?;
    Ok(list)
}

#[test]
fn bytes_are_joined(rt: HostRuntime) -> Result<(), Fail> {
    let list = one_to_five(rt.alloc())?;
    assert_eq!(rt; list.as_slice(), [1, 2, 3, 4, 5].as_slice());
    assert!(rt; list.clone()? == list);
    Ok(())
}

/// How many bytes are left of a list behind a cut.
fn left_behind(alloc: Global, count: usize) -> Result<usize, AllocError> {
    let mut list = one_to_five(alloc)?;
    list.reserve(8)?;
    list.truncate(count);
    Ok(list.len())
}

#[test]
fn lists_are_cut(rt: HostRuntime) {
    for (count, left) in [(9, 5), (5, 5), (4, 4), (0, 0)] {
        assert_eq!(rt; left_behind(rt.alloc(), count), Ok(left), "cut to {count}");
    }
}

/// An item that can't be copied.
#[derive(Debug, Drop, PartialEq, Eq)]
struct Label {
    number: u32,
}

/// A list of three such items, moved from one list behind another.
fn seven_to_nine(alloc: Global) -> Result<PlainList<Label>, AllocError> {
    let mut list = PlainList::new(alloc);
    list.push(Label { number: 8 })?;
    list.push(Label { number: 9 })?;
    let mut front = PlainList::from_vec(vec![in alloc; Label { number: 7 }]?);
    front.append_list(&mut list)?;
    Ok(front)
}

#[test]
fn items_move(rt: HostRuntime) -> Result<(), Fail> {
    let mut wanted = 7u32;
    for it in seven_to_nine(rt.alloc())? {
        assert_eq!(rt; it.number, wanted);
        wanted = wanted.saturating_add(1);
    }
    assert_eq!(rt; wanted, 10);
    Ok(())
}

/// Feeds a byte, and then gives so many away, where they are there.
fn feed_and_give(queue: &mut ByteQueue, piece: u8, count: usize) -> Result<usize, AllocError> {
    queue.feed(&[piece])?;
    if count <= queue.len() {
        queue.give(count);
    }
    Ok(queue.len())
}

#[test]
fn bytes_queue_up(rt: HostRuntime) -> Result<(), Fail> {
    let mut queue = ByteQueue::from_vec(vec![in rt.alloc(); 1, 2]?);
    for (piece, count, left) in [(3, 1, 2), (4, 2, 1), (5, 0, 2), (6, 3, 0), (7, 0, 1)] {
        assert_eq!(rt;
            feed_and_give(&mut queue, piece, count),
            Ok(left),
            "after {piece}"
        );
    }
    assert_eq!(rt; queue.as_slice(), [7].as_slice());
    Ok(())
}
