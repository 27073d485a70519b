//! Scripts of messages and of moves of bytes: what each answers and writes.
use super::{REGISTRY, Row, answered, first_missing, first_wrong};
use crate::status::Status;
use script_lang::ScriptCause;
use std::alloc::{AllocError, Global};
use std::test::Fail;

const ONE: &str = "app hex 0100000000000c0002000000\n";

/// A client that makes a window and draws it twice.
const REALISTIC: &str = "app file 1 2457600
app wl_display@1.get_registry(new @2)
app wl_display@1.sync(new @3)
comp await 2
comp wl_registry@2.global(1, \"wl_compositor\", 6)
comp wl_registry@2.global(2, \"wl_shm\", 1)
comp wl_registry@2.global(3, \"xdg_wm_base\", 5)
comp wl_callback@3.done(1)
comp wl_display@1.delete_id(3)
app await 5
app wl_registry@2.bind(1, \"wl_compositor\" 6 new @4)
app wl_registry@2.bind(2, \"wl_shm\" 1 new @5)
app wl_registry@2.bind(3, \"xdg_wm_base\" 5 new @6)
app wl_compositor@4.create_surface(new @3)
app xdg_wm_base@6.get_xdg_surface(new @7, @3)
app xdg_surface@7.get_toplevel(new @8)
app xdg_toplevel@8.set_title(\"editor\")
app wl_surface@3.commit()
comp await 10
comp wl_shm@5.format(0)
comp wl_shm@5.format(1)
comp xdg_toplevel@8.configure(0, 0, [])
comp xdg_surface@7.configure(7)
app await 9
app xdg_surface@7.ack_configure(7)
app wl_shm@5.create_pool(new @9, fd %1, 2457600)
app wl_shm_pool@9.create_buffer(new @10, 0, 640, 480, 2560, 1)
app wl_shm_pool@9.create_buffer(new @11, 1228800, 640, 480, 2560, 1)
app fill 1 0 153600 1
app wl_surface@3.frame(new @12)
app wl_surface@3.attach(@10, 0, 0)
app wl_surface@3.damage(0, 0, 640, 480)
app wl_surface@3.commit()
comp await 18
comp wl_callback@12.done(16)
comp wl_display@1.delete_id(12)
app await 11
app fill 1 153600 153600 2
app wl_surface@3.attach(@11, 0, 0)
app wl_surface@3.damage_buffer(0, 0, 640, 480)
app wl_surface@3.commit()
comp await 21
comp wl_buffer@10.release()
";

const ROWS: &[Row] = &[
    Row {
        name: "empty-script",
        words: "replay",
        input: &[],
        status: Status::Done,
        wanted: &[
            "connections 0",
            "application sent 0 received 0",
            "compositor sent 0 received 0",
            "drained",
        ],
    },
    Row {
        name: "one-message",
        words: "replay --long",
        input: &[ONE, "drain 1\n"],
        status: Status::Done,
        wanted: &[
            "connections 1",
            "application sent 1 received 0",
            "compositor sent 0 received 1",
            "near made 1 acknowledged 1 accepted 0",
            "far made 0 acknowledged 0 accepted 1",
            "link 1 up written 48 read 48",
            "link 1 down written 44 read 44",
            "got compositor 0100000000000c0002000000",
            "drained",
        ],
    },
    Row {
        name: "realistic-client",
        words: "replay --long",
        input: &[REALISTIC],
        status: Status::Done,
        wanted: &[
            "application sent 21 received 12",
            "compositor sent 12 received 21",
            "near made 27 acknowledged 27 accepted 12",
            "far made 12 acknowledged 12 accepted 27",
            "mirror 1 size 2457600 sum 460800",
            "drained",
        ],
    },
    Row {
        name: "hidden-globals",
        words: "replay --text",
        input: &[
            REGISTRY,
            "settle\n\
              comp wl_registry@2.global(5, \"zwp_linux_dmabuf_v1\", 4)\n\
              comp wl_registry@2.global_remove(5)\n\
              comp wl_registry@2.global(6, \"wl_seat\", 9)\n",
        ],
        status: Status::Done,
        wanted: &[
            "connections 1",
            "application sent 1 received 1",
            "compositor sent 3 received 1",
            "got compositor wl_display@1.get_registry(new @2)",
            "got application wl_registry@2.global(6, \"wl_seat\", 7)",
            "drained",
        ],
    },
    Row {
        name: "lost-lines",
        words: "replay --long",
        input: &[
            ONE,
            "take app 12\nconnect\nsend up 32\nbreak\nconnect\nsend down 32\nbreak\n",
        ],
        status: Status::Done,
        wanted: &[
            "connections 3",
            "application sent 1 received 0",
            "compositor sent 0 received 1",
            "link 1 up written 32 read 0",
            "link 1 down written 0 read 0",
            "link 2 up written 0 read 0",
            "link 2 down written 32 read 0",
            "link 3 up written 48 read 48",
            "link 3 down written 44 read 44",
            "got compositor 0100000000000c0002000000",
            "drained",
        ],
    },
    Row {
        name: "both options",
        words: "replay --long --text",
        input: &["app wl_display@1.sync(new @2)\n"],
        status: Status::Done,
        wanted: &[
            "link 1 up written 48 read 48",
            "got compositor wl_display@1.sync(new @2)",
            "drained",
        ],
    },
    Row {
        name: "id-reuse, deleted",
        words: "replay --text",
        input: &[
            REGISTRY,
            "app wl_registry@2.bind(1, \"wl_compositor\" 6 new @3)\n\
              app wl_compositor@3.create_surface(new @5)\n\
              app wl_surface@5.destroy()\n",
            "settle\ncomp wl_display@1.delete_id(5)\nsettle\n",
            "app wl_compositor@3.create_surface(new @5)\n",
        ],
        status: Status::Done,
        wanted: &[
            "application sent 5 received 1",
            "compositor sent 1 received 5",
            "got compositor wl_compositor@3.create_surface(new @5)",
            "got compositor wl_surface@5.destroy()",
            "got compositor wl_compositor@3.create_surface(new @5)",
            "got application wl_display@1.delete_id(5)",
            "drained",
        ],
    },
    Row {
        name: "two connections",
        words: "replay",
        input: &[
            "app wl_display@1.sync(new @2)\nsettle\nbreak\n",
            "app wl_display@1.sync(new @3)\nsettle\napp wl_display@1.sync(new @4)\n",
        ],
        status: Status::Done,
        wanted: &[
            "connections 2",
            "application sent 3 received 0",
            "compositor sent 0 received 3",
            "got compositor 0100000000000c0002000000",
            "got compositor 0100000000000c0003000000",
            "got compositor 0100000000000c0004000000",
            "drained",
        ],
    },
    Row {
        name: "front written, then stopped",
        words: "replay --long",
        input: &[ONE, "take app 12\nconnect\nsend up 48\nstop\n"],
        status: Status::Done,
        wanted: &[
            "connections 1",
            "application sent 1 received 0",
            "compositor sent 0 received 0",
            "link 1 up written 32 read 0",
            "stopped",
        ],
    },
    Row {
        name: "message in three pieces",
        words: "replay --long",
        input: &[
            "app hex 01\n\
              # comment\n\
              \n\
              app hex 00000000000c\n\
              take app 1000000000\n\
              app hex 0002000000\n",
        ],
        status: Status::Done,
        wanted: &[
            "application sent 1 received 0",
            "compositor sent 0 received 1",
            "link 1 up written 48 read 48",
            "link 1 down written 44 read 44",
            "drained",
        ],
    },
    Row {
        name: "nothing to send",
        words: "replay --long",
        input: &["up 5\nconnect\nconnect\nbreak\nbreak\n"],
        status: Status::Done,
        wanted: &[
            "connections 1",
            "far made 0 acknowledged 0 accepted 0",
            "link 1 up written 0 read 0",
            "link 1 down written 0 read 0",
            "drained",
        ],
    },
    Row {
        name: "closed before it took",
        words: "replay --long",
        input: &[ONE, "close app\n"],
        status: Status::Done,
        wanted: &[
            "application sent 0 received 0",
            "near made 1 acknowledged 1 accepted 0",
            "far made 0 acknowledged 0 accepted 1",
            "link 1 up written 40 read 40",
            "link 1 down written 44 read 44",
            "drained",
        ],
    },
    Row {
        name: "both closed",
        words: "replay --long",
        input: &[ONE, "close app\nclose app\nclose comp\n"],
        status: Status::Done,
        wanted: &[
            "connections 1",
            "near made 1 acknowledged 1 accepted 1",
            "far made 1 acknowledged 1 accepted 1",
            "link 1 up written 52 read 52",
            "link 1 down written 52 read 52",
            "drained",
        ],
    },
];

#[test]
fn worked_rows(rt: HostRuntime) -> Result<(), Fail> {
    assert_eq!(rt; first_wrong(rt.alloc(), ROWS)?, None);
    Ok(())
}

/// A script that gives a window a title of so many letters.
fn titled(alloc: Global, letters: u32) -> Result<Vec<u8>, AllocError> {
    let mut script = Vec::from_slice(
        alloc,
        b"app wl_display@1.get_registry(new @2)\n\
          app wl_registry@2.bind(1, \"wl_compositor\" 6 new @3)\n\
          app wl_registry@2.bind(3, \"xdg_wm_base\" 5 new @4)\n\
          app wl_compositor@3.create_surface(new @5)\n\
          app xdg_wm_base@4.get_xdg_surface(new @6, @5)\n\
          app xdg_surface@6.get_toplevel(new @7)\n\
          app xdg_toplevel@7.set_title(\"",
    )?;
    for _ in 0..letters {
        script.push(b'a')?;
    }
    script.extend_from_slice(b"\")\n")?;
    Ok(script)
}

/// The longest title has 65,519 letters; its message has 65,532 bytes and is received.
#[test]
fn longest_title(rt: HostRuntime) -> Result<(), Fail> {
    let script = titled(rt.alloc(), 65_519)?;
    let (status, text) = answered(rt.alloc(), "replay", script.as_slice())?;
    assert_eq!(rt; status, Status::Done);
    let wanted = [
        "application sent 7 received 0",
        "compositor sent 0 received 7",
        "drained",
    ];
    assert_eq!(rt; first_missing(text.as_slice(), wanted.as_slice()), None);
    let script = titled(rt.alloc(), 65_520)?;
    let (status, text) = answered(rt.alloc(), "replay", script.as_slice())?;
    assert_eq!(rt;
        status,
        Status::Script {
            line: 7,
            cause: ScriptCause::Message
        }
    );
    assert_eq!(rt; text.as_slice(), b"script line 7: Message\n".as_slice());
    Ok(())
}
