//! Lines that are nearly texts of messages.

use super::{DOWN, UP};
use crate::{TextFault, read_message};
use wl_tables::Way;

static LINES: [(Way, &str); 62] = [
    (UP, ""),
    (UP, "wl_surface"),
    (UP, "wl_surface@5"),
    (UP, "wl_surface@5.commit"),
    (UP, "wl_surface@5.commit("),
    (UP, "@5.commit()"),
    (UP, "wl_surface@.commit()"),
    (UP, "wl_surface@5.()"),
    (UP, " wl_surface@5.commit()"),
    (UP, "wl_surface@5.commit() "),
    (UP, "wl_surface@5.commit()\n"),
    (UP, "wl_surface@5.commit()wl_surface@5.commit()"),
    (UP, "wl_surface@5.commit(0)"),
    (UP, "wl_surface@05.commit()"),
    (UP, "wl_surface@-5.commit()"),
    (UP, "wl_surface@+5.commit()"),
    (UP, "wl_surface@4294967296.commit()"),
    (UP, "wl_surfaces@5.commit()"),
    (UP, "WL_SURFACE@5.commit()"),
    (UP, "wl_surface@5.commits()"),
    (UP, "wl_surface@5.enter(@3)"),
    (DOWN, "wl_surface@5.commit()"),
    (DOWN, "wl_callback@5.done(@3)"),
    (UP, "wl_surface@5.attach(@7, 0)"),
    (UP, "wl_surface@5.attach(@7, 0, 0, 0)"),
    (UP, "wl_surface@5.attach(@7,0, 0)"),
    (UP, "wl_surface@5.attach(@7,  0, 0)"),
    (UP, "wl_surface@5.attach( @7, 0, 0)"),
    (UP, "wl_surface@5.attach(@7, 0, 0 )"),
    (UP, "wl_surface@5.attach(@7, 0, 0, )"),
    (UP, "wl_surface@5.attach(@0, 0, 0)"),
    (UP, "wl_surface@5.attach(7, 0, 0)"),
    (UP, "wl_surface@5.attach(new @7, 0, 0)"),
    (UP, "wl_surface@5.attach(@7, -0, 0)"),
    (UP, "wl_surface@5.attach(@7, 00, 0)"),
    (UP, "wl_surface@5.attach(@7, +5, 0)"),
    (UP, "wl_surface@5.attach(@7, 2147483648, 0)"),
    (UP, "wl_surface@5.attach(@7, -2147483649, 0)"),
    (UP, "wl_surface@5.attach(@7, 0x1, 0)"),
    (DOWN, "wl_surface@5.enter(null)"),
    (DOWN, "wl_surface@5.enter(@0)"),
    (DOWN, "wl_display@1.delete_id(4294967296)"),
    (DOWN, "wl_display@1.delete_id(-1)"),
    (DOWN, "wl_pointer@9.motion(0, 1, 1/256)"),
    (DOWN, "wl_pointer@9.motion(0, 1.5, 1/256)"),
    (DOWN, "wl_pointer@9.motion(0, 2147483648/256, 1/256)"),
    (UP, "wl_display@1.sync(@3)"),
    (UP, "wl_display@1.sync(new 3)"),
    (UP, "wl_display@1.sync(new  @3)"),
    (UP, "wl_registry@2.bind(1, \"wl_shm\", 1, new @4)"),
    (UP, "wl_registry@2.bind(1, null 1 new @4)"),
    (UP, "wl_registry@2.bind(1, new @4)"),
    (UP, "xdg_toplevel@8.set_title(null)"),
    (UP, "xdg_toplevel@8.set_title(\"a)"),
    (UP, "xdg_toplevel@8.set_title(\"a\"\")"),
    (UP, "xdg_toplevel@8.set_title(\"\\x41\")"),
    (UP, "xdg_toplevel@8.set_title(\"\\x0A\")"),
    (UP, "xdg_toplevel@8.set_title(\"\\n\")"),
    (DOWN, "xdg_toplevel@8.configure(0, 0, [0])"),
    (DOWN, "xdg_toplevel@8.configure(0, 0, [FF])"),
    (UP, "wl_shm@5.create_pool(new @9, fd %01, 64)"),
    (UP, "wl_shm@5.create_pool(new @9, fd %2147483648, 64)"),
];

#[test]
fn near_misses_are_no_texts(rt: HostRuntime) {
    for (way, line) in &LINES {
        match read_message(rt.alloc(), line.as_bytes(), *way) {
            Ok(_) => assert!(rt; false, "{line}"),
            Err(fault) => assert_eq!(rt; fault, TextFault::Form, "{line}"),
        }
    }
}

/// Bytes that are no ASCII, and control bytes, stand in a string by their escapes alone.
#[test]
fn raw_bytes_are_no_texts(rt: HostRuntime) {
    for line in [
        b"xdg_toplevel@8.set_title(\"\xff\")",
        b"xdg_toplevel@8.set_title(\"\x7f\")",
        b"xdg_toplevel@8.set_title(\"\x0a\")",
        b"xdg_toplevel@8.set_title(\"\x00\")",
    ] {
        match read_message(rt.alloc(), line, UP) {
            Ok(_) => assert!(rt; false),
            Err(fault) => assert_eq!(rt; fault, TextFault::Form),
        }
    }
}
