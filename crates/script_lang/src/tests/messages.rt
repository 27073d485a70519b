//! Lines that are the text of a message.

use super::*;
use std::test::Fail;
use wl_tables::Way;
use wl_text::read_message;
use wp_outside::Side;

#[test]
fn messages(rt: HostRuntime) -> Result<(), Fail> {
    let alloc = rt.alloc();
    let attach = "wl_surface@5.attach(@7, 0, 0)";
    let message = read_message(alloc, attach.as_bytes(), Way::Request)
        .ok()
        .ok_or("a request")?;
    let what = StepKind::Say {
        peer: Side::Near,
        message,
    };
    assert_eq!(rt;
        asks(alloc, "app wl_surface@5.attach(@7, 0, 0)", what),
        true
    );
    let done = "wl_callback@3.done(16)";
    let message = read_message(alloc, done.as_bytes(), Way::Event)
        .ok()
        .ok_or("an event")?;
    let what = StepKind::Say {
        peer: Side::Far,
        message,
    };
    assert_eq!(rt; asks(alloc, "comp wl_callback@3.done(16)", what), true);
    Ok(())
}

const ROWS: [(&str, Option<(u32, ScriptCause)>); 17] = [
    ("app xdg_toplevel@8.set_title(\"a b  c\")", None),
    (
        "app wl_shm@5.create_pool(new @9, fd %1, 64)",
        Some((1, ScriptCause::Name)),
    ),
    (
        "app file 1 64\napp wl_shm@5.create_pool(new @9, fd %1, 64)",
        None,
    ),
    (
        "app pipe 1\napp wl_shm@5.create_pool(new @9, fd %1, 64)",
        None,
    ),
    (
        "app file 1 64\napp wl_shm@5.create_pool(new @9, fd %2, 64)",
        Some((2, ScriptCause::Name)),
    ),
    (
        "comp file -1 64\napp wl_shm@5.create_pool(new @9, fd %-1, 64)",
        Some((2, ScriptCause::Name)),
    ),
    (
        "app wl_shm@5.create_pool(new @9, fd %0, 64)",
        Some((1, ScriptCause::Name)),
    ),
    (
        "app wl_shm@5.create_pool(new @9, fd %2147483648, 64)",
        Some((1, ScriptCause::Message)),
    ),
    (
        "comp wl_surface@5.attach(@7, 0, 0)",
        Some((1, ScriptCause::Message)),
    ),
    ("app wl_callback@3.done(1)", Some((1, ScriptCause::Message))),
    (
        "app wl_surface@5.attach(@7,  0, 0)",
        Some((1, ScriptCause::Message)),
    ),
    (
        "app wl_surface@5.attach(@7, 0, 0) ",
        Some((1, ScriptCause::Message)),
    ),
    (
        "app  wl_surface@5.attach(@7, 0, 0)",
        Some((1, ScriptCause::Word)),
    ),
    (
        "app wl_surface 5@.attach(@7, 0, 0)",
        Some((1, ScriptCause::Word)),
    ),
    ("app @", Some((1, ScriptCause::Message))),
    ("app hex@ 00", Some((1, ScriptCause::Message))),
    ("wl_surface@5.commit()", Some((1, ScriptCause::Word))),
];

#[test]
fn rows(rt: HostRuntime) {
    for (script, fault) in ROWS {
        assert_eq!(rt;
            read(rt.alloc(), script.as_bytes()),
            answer(fault),
            "{script}"
        );
    }
}
