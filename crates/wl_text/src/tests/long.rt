//! The longest message.

use super::{UP, again};
use crate::{TextFault, read_message};
use std::alloc::{AllocError, Global};
use std::test::Fail;
use wl_wire::Text;

/// The text of a title with so many letters.
fn title(alloc: Global, letters: u32) -> Result<Text, AllocError> {
    let mut line = Text::new(alloc);
    line.append(b"xdg_toplevel@8.set_title(\"")?;
    for _ in 0..letters {
        line.push(b'x')?;
    }
    line.append(b"\")")?;
    Ok(line)
}

#[test]
fn longest_title(rt: HostRuntime) -> Result<(), Fail> {
    let line = title(rt.alloc(), 65_519)?;
    match again(rt.alloc(), line.as_slice(), UP) {
        Ok((it, text)) => {
            assert_eq!(rt; it.message.bytes().len(), 65_532);
            assert_eq!(rt; text.as_slice(), line.as_slice());
        }
        Err(_) => assert!(rt; false),
    }
    Ok(())
}

#[test]
fn one_letter_more(rt: HostRuntime) -> Result<(), Fail> {
    let line = title(rt.alloc(), 65_520)?;
    match read_message(rt.alloc(), line.as_slice(), UP) {
        Ok(_) => assert!(rt; false),
        Err(fault) => assert_eq!(rt; fault, TextFault::Form),
    }
    Ok(())
}
