//! What is refused: words, lines of a script, messages of a peer, frames.
use super::{Row, USAGE, answered, first_wrong};
use crate::status::{Reader, Status};
use half_model::{Limit, PeerCause};
use script_lang::ScriptCause;
use std::test::Fail;
use transfer_frames::FrameCause;
use wl_wire::{ObjectFault, WireFault};
use wp_outside::Side;

const ROWS: &[Row] = &[
    // ---- messages
    Row {
        name: "bad-size",
        words: "replay",
        input: &["app hex 0100000000000400\n"],
        status: Status::Peer {
            side: Side::Near,
            index: 0,
            cause: PeerCause::Object(ObjectFault::Wire(WireFault::SizeSmall)),
        },
        wanted: &["peer application message 0: SizeSmall"],
    },
    Row {
        name: "two-files, one given",
        words: "replay --text",
        input: &[
            "app file 1 64\napp file 2 128\n",
            "app wl_display@1.get_registry(new @2)\n",
            "app wl_registry@2.bind(1, \"wl_shm\" 1 new @4)\napp give 1\n",
            "app hex 0400000000001000060000004000000004000000000010000700000080000000\n",
        ],
        status: Status::Peer {
            side: Side::Near,
            index: 3,
            cause: PeerCause::HandleMissing,
        },
        wanted: &["peer application message 3: HandleMissing"],
    },
    Row {
        name: "id-reuse",
        words: "replay",
        input: &[
            "app wl_display@1.get_registry(new @2)\n",
            "app wl_registry@2.bind(1, \"wl_compositor\" 6 new @3)\n\
              app wl_compositor@3.create_surface(new @5)\n\
              app wl_surface@5.destroy()\n",
            "app wl_compositor@3.create_surface(new @5)\n",
        ],
        status: Status::Peer {
            side: Side::Near,
            index: 4,
            cause: PeerCause::Object(ObjectFault::IdInUse),
        },
        wanted: &[
            "application sent 4 received 0",
            "peer application message 4: IdInUse",
        ],
    },
    Row {
        name: "event of an unknown object",
        words: "replay",
        input: &["comp hex 0200000000000c0001000000\n"],
        status: Status::Peer {
            side: Side::Far,
            index: 0,
            cause: PeerCause::Object(ObjectFault::UnknownObject),
        },
        wanted: &["connections 0", "peer compositor message 0: UnknownObject"],
    },
    Row {
        name: "both sides would refuse: the first that is met",
        words: "replay",
        input: &["comp hex 0200000000000c0001000000\napp hex 0100000000000400\n"],
        status: Status::Peer {
            side: Side::Near,
            index: 0,
            cause: PeerCause::Object(ObjectFault::Wire(WireFault::SizeSmall)),
        },
        wanted: &["peer application message 0: SizeSmall"],
    },
    Row {
        name: "commit of a picture without a note of its words",
        words: "replay",
        input: &[
            "app file 1 64\n\
              app wl_display@1.get_registry(new @2)\n\
              app wl_registry@2.bind(1, \"wl_compositor\" 6 new @3)\n\
              app wl_registry@2.bind(2, \"wl_shm\" 1 new @4)\n\
              app wl_compositor@3.create_surface(new @5)\n\
              app wl_shm@4.create_pool(new @6, fd %1, 64)\n\
              app wl_shm_pool@6.create_buffer(new @7, 0, 4, 4, 16, 0)\n\
              app wl_surface@5.attach(@7, 0, 0)\n\
              app hex 0500000006000800\n",
        ],
        status: Status::Peer {
            side: Side::Near,
            index: 7,
            cause: PeerCause::NoteMissing,
        },
        wanted: &[
            "application sent 7 received 0",
            "peer application message 7: NoteMissing",
        ],
    },
    Row {
        name: "end of an unknown pipe",
        words: "replay",
        input: &["comp end 1\n"],
        status: Status::Peer {
            side: Side::Far,
            index: 0,
            cause: PeerCause::PipeUnknown,
        },
        wanted: &["peer compositor message 0: PipeUnknown"],
    },
    Row {
        name: "pipe where a file is to stand",
        words: "replay",
        input: &[
            "app pipe 1\n\
              app wl_display@1.get_registry(new @2)\n\
              app wl_registry@2.bind(1, \"wl_shm\" 1 new @3)\n\
              app give 1\n\
              app hex 03000000000010000400000040000000\n",
        ],
        status: Status::Peer {
            side: Side::Near,
            index: 2,
            cause: PeerCause::HandleKind,
        },
        wanted: &["peer application message 2: HandleKind"],
    },
    Row {
        name: "file too large",
        words: "replay",
        input: &[
            "app file 1 64\n\
              app wl_display@1.get_registry(new @2)\n\
              app wl_registry@2.bind(1, \"wl_shm\" 1 new @3)\n\
              app wl_shm@3.create_pool(new @4, fd %1, 67108865)\n",
        ],
        status: Status::Limit { which: Limit::File },
        wanted: &["application sent 2 received 0", "limit file"],
    },
    // ---- frames
    // 32 bytes of the opening, and two frames of 16, stand before the frame
    Row {
        name: "id deleted while a request is on its way",
        words: "replay",
        input: &[
            "app wl_display@1.get_registry(new @2)\n\
              settle\n\
              app wl_display@1.sync(new @3)\n\
              app wl_registry@2.bind(1, \"wl_shm\" 1 new @4)\n\
              take app 1000\n\
              up 16\n\
              comp wl_display@1.delete_id(2)\n",
        ],
        status: Status::Frame {
            reader: Reader::Far,
            connection: 1,
            place: 64,
            cause: FrameCause::PeerMessage(ObjectFault::UnknownObject),
        },
        wanted: &[
            "connections 1",
            "application sent 3 received 0",
            "compositor sent 1 received 2",
            "got compositor 0100000001000c0002000000",
            "got compositor 0100000000000c0003000000",
            "frame far connection 1 place 64: PeerMessage UnknownObject",
        ],
    },
    Row {
        name: "frame before the refused one in a piece",
        words: "replay",
        input: &[
            "app wl_display@1.get_registry(new @2)\n\
              settle\n\
              app wl_display@1.sync(new @3)\n\
              app wl_registry@2.bind(1, \"wl_shm\" 1 new @4)\n\
              comp wl_display@1.delete_id(2)\n",
        ],
        status: Status::Frame {
            reader: Reader::Far,
            connection: 1,
            place: 64,
            cause: FrameCause::PeerMessage(ObjectFault::UnknownObject),
        },
        wanted: &[
            "application sent 3 received 0",
            "compositor sent 1 received 2",
            "got compositor 0100000001000c0002000000",
            "got compositor 0100000000000c0003000000",
            "frame far connection 1 place 64: PeerMessage UnknownObject",
        ],
    },
    Row {
        name: "id deleted before it was heard of",
        words: "replay",
        input: &[
            "app wl_display@1.sync(new @3)\n\
              take app 100\n\
              connect\n\
              comp wl_display@1.delete_id(3)\n\
              take comp 100\n\
              up 32\n\
              down 100\n\
              up 100\n\
              comp wl_callback@3.done(1)\n",
        ],
        status: Status::Frame {
            reader: Reader::Near,
            connection: 1,
            place: 60,
            cause: FrameCause::PeerMessage(ObjectFault::UnknownObject),
        },
        wanted: &[
            "application sent 1 received 1",
            "compositor sent 2 received 1",
            "got application 0100000001000c0003000000",
            "frame near connection 1 place 60: PeerMessage UnknownObject",
        ],
    },
    // ---- lines of a script
    Row {
        name: "misspelt-message",
        words: "replay",
        input: &["connect\napp wl_surface@5.dammage(0, 0, 1, 1)\n"],
        status: Status::Script {
            line: 2,
            cause: ScriptCause::Message,
        },
        wanted: &["script line 2: Message"],
    },
    Row {
        name: "restart-behind",
        words: "replay",
        input: &[
            "app hex 0100000000000c0002000000\n",
            "settle\nbreak\nconnect\nsend down 32\nspoil down 24 00\nrecv down 32\n",
        ],
        status: Status::Script {
            line: 6,
            cause: ScriptCause::NotBuilt,
        },
        wanted: &["script line 6: NotBuilt"],
    },
    Row {
        name: "line with a carriage return",
        words: "replay",
        input: &["connect\r\n"],
        status: Status::Script {
            line: 1,
            cause: ScriptCause::Text,
        },
        wanted: &["script line 1: Text"],
    },
    Row {
        name: "unknown word",
        words: "replay",
        input: &["\n# a\nwait hex 00\n"],
        status: Status::Script {
            line: 3,
            cause: ScriptCause::Word,
        },
        wanted: &["script line 3: Word"],
    },
    Row {
        name: "peer alone",
        words: "replay",
        input: &["app\n"],
        status: Status::Script {
            line: 1,
            cause: ScriptCause::Form,
        },
        wanted: &["script line 1: Form"],
    },
    Row {
        name: "capital digits",
        words: "replay",
        input: &["app hex 0A\n"],
        status: Status::Script {
            line: 1,
            cause: ScriptCause::Form,
        },
        wanted: &["script line 1: Form"],
    },
    Row {
        name: "count of nothing",
        words: "replay",
        input: &["connect\nup 0\n"],
        status: Status::Script {
            line: 2,
            cause: ScriptCause::Number,
        },
        wanted: &["script line 2: Number"],
    },
    Row {
        name: "count above the greatest",
        words: "replay",
        input: &["drain 1000000001\n"],
        status: Status::Script {
            line: 1,
            cause: ScriptCause::Number,
        },
        wanted: &["script line 1: Number"],
    },
    Row {
        name: "handle without a file",
        words: "replay",
        input: &["app wl_shm@4.create_pool(new @6, fd %1, 64)\n"],
        status: Status::Script {
            line: 1,
            cause: ScriptCause::Name,
        },
        wanted: &["script line 1: Name"],
    },
    Row {
        name: "line that is not run, behind a stop",
        words: "replay",
        input: &["stop\nspoil up 0 00\n"],
        status: Status::Script {
            line: 2,
            cause: ScriptCause::NotBuilt,
        },
        wanted: &["script line 2: NotBuilt"],
    },
];

#[test]
fn refusals(rt: HostRuntime) -> Result<(), Fail> {
    assert_eq!(rt; first_wrong(rt.alloc(), ROWS)?, None);
    Ok(())
}

/// Words that are no command.
#[test]
fn usage(rt: HostRuntime) -> Result<(), Fail> {
    let table = [
        "",
        "trial",
        "trial 0",
        "trial 007",
        "trial +3",
        "trial 501",
        "trial 3 --long",
        "replay --text --text",
        "replay --text --long --text",
        "replay --help",
        "--help",
        "--text replay",
        "frames --text",
    ];
    for words in table {
        let (status, text) = answered(rt.alloc(), words, b"connect")?;
        assert_eq!(rt; status, Status::Usage, "{words}");
        let (line, end) = text.as_slice().split_at(text.len().saturating_sub(1));
        assert_eq!(rt; line, USAGE.as_bytes(), "{words}");
        assert_eq!(rt; end, b"\n".as_slice(), "{words}");
    }
    Ok(())
}
