//! Scripts of files, keymaps and pipes, whose handles pass: what each answers and writes.
use super::{REGISTRY, Row, first_wrong};
use crate::status::Status;
use std::test::Fail;

/// An offer of a text that the application hears of.
const OFFER: &str = "app wl_registry@2.bind(1, \"wl_data_device_manager\" 3 new @3)\n\
      app wl_registry@2.bind(2, \"wl_seat\" 7 new @4)\n\
      app wl_data_device_manager@3.get_data_device(new @5, @4)\n\
      settle\n\
      comp wl_data_device@5.data_offer(new @4278190080)\n\
      comp wl_data_offer@4278190080.offer(\"text/plain\")\n\
      settle\n";

const ROWS: &[Row] = &[
    Row {
        name: "two-files",
        words: "replay --text",
        input: &[
            "app file 1 64\napp file 2 128\n",
            REGISTRY,
            "app wl_registry@2.bind(1, \"wl_shm\" 1 new @4)\napp give 1\n",
            "app give 2\n",
            "app hex 0400000000001000060000004000000004000000000010000700000080000000\n",
        ],
        status: Status::Done,
        wanted: &[
            "got compositor wl_shm@4.create_pool(new @6, fd %1, 64)",
            "got compositor wl_shm@4.create_pool(new @7, fd %2, 128)",
            "drained",
        ],
    },
    Row {
        name: "pipe",
        words: "replay --long",
        input: &[
            REGISTRY,
            "app wl_registry@2.bind(1, \"wl_data_device_manager\" 3 new @3)\n\
              app wl_registry@2.bind(2, \"wl_seat\" 7 new @4)\n\
              app wl_data_device_manager@3.get_data_device(new @5, @4)\n\
              settle\n\
              comp wl_data_device@5.data_offer(new @4278190080)\n\
              comp wl_data_offer@4278190080.offer(\"text/plain\")\n\
              settle\n\
              app pipe 1\n\
              app wl_data_offer@4278190080.receive(\"text/plain\", fd %1)\n\
              settle\n\
              comp put 1 6869\n\
              comp end 1\n",
        ],
        status: Status::Done,
        wanted: &[
            "near made 7 acknowledged 7 accepted 4",
            "far made 4 acknowledged 4 accepted 7",
            "pipe 1 bytes 2 sum 209 ended",
            "drained",
        ],
    },
    Row {
        name: "keymap",
        words: "replay --long",
        input: &[
            "comp file -1 64\ncomp fill -1 0 8 7\n",
            REGISTRY,
            "app wl_registry@2.bind(1, \"wl_seat\" 7 new @3)\n\
              app wl_seat@3.get_keyboard(new @4)\n\
              settle\n\
              comp wl_keyboard@4.keymap(1, fd %-1, 60)\n",
        ],
        status: Status::Done,
        wanted: &[
            "far made 4 acknowledged 4 accepted 3",
            "mirror -1 size 60 sum 56",
            "drained",
        ],
    },
    Row {
        name: "handles by their rids",
        words: "replay --text",
        input: &[
            "app file 31 64\napp file 30 128\n",
            REGISTRY,
            "app wl_registry@2.bind(1, \"wl_shm\" 1 new @4)\n\
              app wl_shm@4.create_pool(new @6, fd %31, 64)\n\
              app wl_shm@4.create_pool(new @7, fd %30, 128)\n",
        ],
        status: Status::Done,
        wanted: &[
            "application sent 4 received 0",
            "got compositor wl_shm@4.create_pool(new @6, fd %1, 64)",
            "got compositor wl_shm@4.create_pool(new @7, fd %2, 128)",
            "drained",
        ],
    },
    Row {
        name: "mirrors of both peers",
        words: "replay --long",
        input: &[
            "app file 5 64\n\
              app file 6 192\n\
              comp file -7 64\n\
              comp fill -7 0 8 7\n\
              comp file -8 64\n\
              comp fill -8 0 8 257\n\
              comp file -9 64\n",
            REGISTRY,
            "app wl_registry@2.bind(1, \"wl_shm\" 1 new @3)\n\
              app wl_registry@2.bind(2, \"wl_seat\" 7 new @4)\n\
              app wl_seat@4.get_keyboard(new @5)\n\
              app wl_shm@3.create_pool(new @6, fd %5, 60)\n\
              app wl_shm@3.create_pool(new @7, fd %6, 130)\n\
              settle\n",
            "comp wl_keyboard@5.keymap(1, fd %-7, 60)\n\
              comp wl_keyboard@5.keymap(1, fd %-8, 1)\n\
              comp wl_keyboard@5.keymap(0, fd %-9, 0)\n",
        ],
        status: Status::Done,
        wanted: &[
            "application sent 6 received 3",
            "mirror 1 size 60 sum 0",
            "mirror 2 size 130 sum 0",
            "mirror -1 size 60 sum 56",
            "mirror -2 size 1 sum 16",
            "mirror -3 size 0 sum 0",
            "drained",
        ],
    },
    Row {
        name: "pipes that are shut, open, and shut behind their end",
        words: "replay --long",
        input: &[
            REGISTRY,
            OFFER,
            "app pipe 9\n\
              app wl_data_offer@4278190080.receive(\"text/plain\", fd %9)\n\
              app pipe 8\n\
              app wl_data_offer@4278190080.receive(\"text/plain\", fd %8)\n\
              app pipe 7\n\
              app wl_data_offer@4278190080.receive(\"text/plain\", fd %7)\n\
              settle\n",
            "comp put 1 0102\nsettle\napp shut 9\ncomp put 1 04\nsettle\ncomp put 2 ff\nsettle\n",
            "comp put 3 0a\ncomp end 3\nsettle\napp shut 7\n",
        ],
        status: Status::Done,
        wanted: &[
            "application sent 7 received 2",
            "pipe 1 bytes 2 sum 3 shut",
            "pipe 2 bytes 1 sum 255 open",
            "pipe 3 bytes 1 sum 10 ended",
            "drained",
        ],
    },
    Row {
        name: "pipes of the compositor",
        words: "replay --long",
        input: &[
            REGISTRY,
            "app wl_registry@2.bind(1, \"wl_data_device_manager\" 3 new @3)\n\
              app wl_data_device_manager@3.create_data_source(new @4)\n\
              app wl_data_source@4.offer(\"text/plain\")\n\
              settle\n",
            "comp pipe -5\n\
              comp wl_data_source@4.send(\"text/plain\", fd %-5)\n\
              comp pipe -4\n\
              comp wl_data_source@4.send(\"text/plain\", fd %-4)\n\
              settle\n\
              app put -1 6869\n\
              app end -1\n",
        ],
        status: Status::Done,
        wanted: &[
            "application sent 4 received 2",
            "pipe -1 bytes 2 sum 209 ended",
            "pipe -2 bytes 0 sum 0 open",
            "drained",
        ],
    },
];

#[test]
fn rows_of_handles(rt: HostRuntime) -> Result<(), Fail> {
    assert_eq!(rt; first_wrong(rt.alloc(), ROWS)?, None);
    Ok(())
}
