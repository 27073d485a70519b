//! Scripts of an application that draws: what each comes to.
use super::{answered, first_missing, joined};
use std::alloc::{AllocError, Global};
use std::test::Fail;

const ATTACH: &str = "app wl_surface@5.attach(@7, 0, 0)\n";

const COMMIT: &str = "app wl_surface@5.commit()\n";

/// One row: its name, the size of the file, the width, height and stride of the buffer at its
/// beginning, what the script does with them, and lines that the long report has, in this order,
/// the last one at its end.
#[derive(Clone, Copy)]
struct Picture {
    name: &'static str,
    size: u32,
    shape: (u32, u32, u32),
    script: &'static [&'static str],
    wanted: &'static [&'static str],
}

const PICTURES: &[Picture] = &[
    Picture {
        name: "rotated-damage",
        size: 128,
        shape: (4, 2, 64),
        script: &[
            "app wl_surface@5.set_buffer_transform(1)\n",
            ATTACH,
            COMMIT,
            "settle\n",
            "app fill 1 0 1 5\napp fill 1 8 1 9\n",
            "app wl_surface@5.damage(0, 0, 1, 1)\n",
            COMMIT,
        ],
        wanted: &[
            "near made 15 acknowledged 15 accepted 0",
            "mirror 1 size 128 sum 9",
            "drained",
        ],
    },
    Picture {
        name: "scaled-damage",
        size: 384,
        shape: (33, 2, 192),
        script: &[
            "app wl_surface@5.set_buffer_scale(2)\n",
            ATTACH,
            COMMIT,
            "settle\n",
            "app fill 1 0 48 1\n",
            "app wl_surface@5.damage(16, 0, 1, 1)\n",
            COMMIT,
        ],
        wanted: &[
            "near made 16 acknowledged 16 accepted 0",
            "mirror 1 size 384 sum 16",
            "drained",
        ],
    },
    Picture {
        name: "damage-edges",
        size: 64,
        shape: (4, 4, 16),
        script: &[
            ATTACH,
            COMMIT,
            "settle\n",
            "app fill 1 0 8 3\n",
            "app wl_surface@5.damage_buffer(0, 0, -1, 4)\n",
            COMMIT,
            "app wl_surface@5.damage_buffer(-2147483648, -2147483648, 2147483647, 2147483647)\n",
            COMMIT,
            "app wl_surface@5.damage_buffer(0, 0, 2147483647, 2147483647)\n",
            COMMIT,
        ],
        wanted: &[
            "near made 18 acknowledged 18 accepted 0",
            "mirror 1 size 64 sum 24",
            "drained",
        ],
    },
    Picture {
        name: "returning-buffer",
        size: 512,
        shape: (16, 4, 64),
        script: &[
            "app wl_shm_pool@6.create_buffer(new @8, 256, 16, 4, 64, 0)\n",
            ATTACH,
            COMMIT,
            "app wl_surface@5.attach(@8, 0, 0)\n",
            "app wl_surface@5.damage_buffer(0, 1, 16, 1)\napp wl_surface@5.commit()\n",
            "app wl_surface@5.damage_buffer(0, 1, 16, 1)\napp wl_surface@5.commit()\n",
            "app wl_surface@5.damage_buffer(0, 1, 16, 1)\napp wl_surface@5.commit()\n",
            "app wl_surface@5.damage_buffer(0, 1, 16, 1)\napp wl_surface@5.commit()\n",
            "app wl_surface@5.damage_buffer(0, 1, 16, 1)\napp wl_surface@5.commit()\n",
            "app wl_surface@5.damage_buffer(0, 1, 16, 1)\napp wl_surface@5.commit()\n",
            "settle\n",
            "app fill 1 0 32 1\n",
            ATTACH,
            "app wl_surface@5.damage_buffer(0, 2, 16, 1)\n",
            COMMIT,
        ],
        wanted: &[
            "near made 35 acknowledged 35 accepted 0",
            "mirror 1 size 512 sum 16",
            "drained",
        ],
    },
    Picture {
        name: "returning-buffer, later",
        size: 512,
        shape: (16, 4, 64),
        script: &[
            "app wl_shm_pool@6.create_buffer(new @8, 256, 16, 4, 64, 0)\n",
            ATTACH,
            COMMIT,
            "app wl_surface@5.attach(@8, 0, 0)\n",
            "app wl_surface@5.damage_buffer(0, 1, 16, 1)\napp wl_surface@5.commit()\n",
            "app wl_surface@5.damage_buffer(0, 1, 16, 1)\napp wl_surface@5.commit()\n",
            "app wl_surface@5.damage_buffer(0, 1, 16, 1)\napp wl_surface@5.commit()\n",
            "app wl_surface@5.damage_buffer(0, 1, 16, 1)\napp wl_surface@5.commit()\n",
            "app wl_surface@5.damage_buffer(0, 1, 16, 1)\napp wl_surface@5.commit()\n",
            "app wl_surface@5.damage_buffer(0, 1, 16, 1)\napp wl_surface@5.commit()\n",
            "app wl_surface@5.damage_buffer(0, 1, 16, 1)\napp wl_surface@5.commit()\n",
            "settle\n",
            "app fill 1 0 32 1\n",
            ATTACH,
            "app wl_surface@5.damage_buffer(0, 2, 16, 1)\n",
            COMMIT,
        ],
        wanted: &[
            "near made 38 acknowledged 38 accepted 0",
            "mirror 1 size 512 sum 32",
            "drained",
        ],
    },
    Picture {
        name: "many-runs",
        size: 131200,
        shape: (1, 1025, 128),
        script: &[ATTACH, COMMIT],
        wanted: &["near made 11 acknowledged 11 accepted 0", "drained"],
    },
    Picture {
        name: "many-runs, one less",
        size: 131200,
        shape: (1, 1024, 128),
        script: &[ATTACH, COMMIT],
        wanted: &["near made 1034 acknowledged 1034 accepted 0", "drained"],
    },
    Picture {
        name: "grown-file",
        size: 64,
        shape: (4, 8, 16),
        script: &[
            ATTACH,
            "app grow 1 128\napp wl_shm_pool@6.resize(128)\napp fill 1 0 16 5\n",
            COMMIT,
        ],
        wanted: &[
            "near made 13 acknowledged 13 accepted 0",
            "mirror 1 size 128 sum 80",
            "drained",
        ],
    },
    Picture {
        name: "split-load",
        size: 64,
        shape: (4, 4, 16),
        script: &[
            "app fill 1 0 8 257\n",
            ATTACH,
            "app wl_surface@5.damage_buffer(0, 0, 1, 1)\n",
            COMMIT,
            "take app 1000\nload 4\napp fill 1 3 2 9\n",
        ],
        wanted: &[
            "near made 12 acknowledged 12 accepted 0",
            "link 1 up written 364 read 364",
            "mirror 1 size 64 sum 23",
            "drained",
        ],
    },
    Picture {
        name: "cut-and-resent",
        size: 64,
        shape: (4, 4, 16),
        script: &[
            "app fill 1 0 8 257\n",
            ATTACH,
            "app wl_surface@5.damage_buffer(0, 0, 1, 1)\n",
            COMMIT,
            "connect\ntake app 1000\nload 8\nup 32\ndown 32\nsend up 260\nrecv up 100\nbreak\n",
        ],
        wanted: &[
            "connections 2",
            "application sent 9 received 0",
            "compositor sent 0 received 9",
            "link 1 up written 292 read 132",
            "link 1 down written 32 read 32",
            "link 2 up written 268 read 268",
            "link 2 down written 44 read 44",
            "mirror 1 size 64 sum 16",
            "drained",
        ],
    },
];

/// The lines that make a file, a surface and a buffer in the file.
fn head(alloc: Global, size: u32, shape: (u32, u32, u32)) -> Result<String, AllocError> {
    let (width, height, stride) = shape;
    format!(in alloc;
        "app file 1 {size}\napp wl_display@1.get_registry(new @2)\napp wl_registry@2.bind(1, \"wl_compositor\" 6 new @3)\napp wl_registry@2.bind(2, \"wl_shm\" 1 new @4)\napp wl_compositor@3.create_surface(new @5)\napp wl_shm@4.create_pool(new @6, fd %1, {size})\napp wl_shm_pool@6.create_buffer(new @7, 0, {width}, {height}, {stride}, 0)\n"
    )
}

/// What a row's script writes doesn't have, if it lacks anything.
fn first_lacking(alloc: Global, row: &Picture) -> Result<Option<&'static str>, AllocError> {
    let head = head(alloc, row.size, row.shape)?;
    let mut script = Vec::from_slice(alloc, head.as_bytes())?;
    script.extend_from_slice(joined(alloc, row.script)?.as_slice())?;
    let (_, text) = answered(alloc, "replay --long", script.as_slice())?;
    Ok(first_missing(text.as_slice(), row.wanted))
}

#[test]
fn pictures(rt: HostRuntime) -> Result<(), Fail> {
    for row in PICTURES {
        assert_eq!(rt; first_lacking(rt.alloc(), row)?, None, "{}", row.name);
    }
    Ok(())
}

/// Two runs of a trial write the same, and a trial reads no input.
#[test]
fn trial_three(rt: HostRuntime) -> Result<(), Fail> {
    let (_, text) = answered(rt.alloc(), "trial 3", b"no script")?;
    let wanted = [
        "application sent 13 received 0",
        "compositor sent 0 received 13",
        "drained",
    ];
    assert_eq!(rt; first_missing(text.as_slice(), wanted.as_slice()), None);
    let (_, again) = answered(rt.alloc(), "trial 3", b"")?;
    assert_eq!(rt; text.as_slice(), again.as_slice());
    Ok(())
}
