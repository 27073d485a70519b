//! Lines that are almost right, with the cause for which each is refused.

use super::*;

/// An unknown word, an empty one too; the second word counts only behind `app` and `comp`.
const UNKNOWN: [&str; 14] = [
    " ",
    " connect",
    "hex 00",
    "Connect",
    "connects",
    "conn",
    "file 1 64",
    "app ",
    "comp ",
    "app  hex 00",
    "app hexa 00",
    "app MESSAGE",
    "comp take 5",
    "fill",
];

/// Counts of fields, and fields of another kind.
const MISFORMED: [&str; 36] = [
    "app",
    "comp",
    "app hex",
    "app hex ",
    "app hex 00 ",
    "app hex  00",
    "app hex 00 00",
    "app hex 0",
    "app hex 000",
    "app hex 0A",
    "app hex 0g",
    "app hex -0",
    "comp hex +1",
    "app put 1",
    "app put 1 0",
    "app put 1 0F",
    "app put x 00",
    "connect ",
    "connect 1",
    "break now",
    "settle 1",
    "stop ",
    "take",
    "take app",
    "take 5",
    "take app 5 ",
    "take  app 5",
    "take up 5",
    "take App 5",
    "close up",
    "close",
    "send app 5",
    "send up",
    "recv upp 5",
    "cut 5",
    "spoil up 0",
];

const MISFORMED_BYTES: [&str; 7] = [
    "spoil up 0 0",
    "spoil up 0 000",
    "spoil up 0 0A",
    "spoil up 0 0000",
    "spoil 0 00",
    "spoil up 00 00",
    "spoil up -1 00",
];

/// Fields that should be a number and are none.
const NO_NUMBERS: [&str; 34] = [
    "up",
    "up ",
    "up 05",
    "up 00",
    "up +5",
    "up -5",
    "up 5 ",
    "up 5 5",
    "up 5a",
    "up 0x5",
    "down 1.5",
    "load -1",
    "load 1,000",
    "drain 01",
    "drain -0",
    "cut up -1",
    "cut up +0",
    "take app -5",
    "app await -1",
    "app await 00",
    "app file 1",
    "app file 01 64",
    "app file +1 64",
    "app file -0 64",
    "app file - 64",
    "app file --1 64",
    "comp file -01 64",
    "app file 1 064",
    "app file 1 -64",
    "app file 1 64 64",
    "app fill 1 0 1",
    "app fill 1 0 1 -1",
    "app fill 1 00 1 1",
    "app end -0",
];

/// Numbers outside their range, of any length.
const OUTSIDE: [&str; 32] = [
    "up 0",
    "up 1000000001",
    "down 0",
    "load 0",
    "load 4294967297",
    "drain 0",
    "send up 0",
    "recv down 18446744073709551617",
    "take comp 0",
    "take app 340282366920938463463374607431768211457",
    "cut up 1000000001",
    "spoil up 1000000001 00",
    "app await 1000001",
    "app end 0",
    "app end 2147483648",
    "app end -2147483648",
    "comp put 0 00",
    "app file 0 64",
    "app file -1 64",
    "app file 2147483648 64",
    "comp file 1 64",
    "comp file 0 64",
    "comp file -2147483648 64",
    "app file 1 0",
    "app file 1 63",
    "app file 1 96",
    "app file 1 67108928",
    "app file 1 4294967360",
    "app fill 1 1000000001 1 0",
    "app fill 1 0 0 0",
    "app fill 1 0 1000000001 0",
    "app fill 1 0 1 18446744073709551616",
];

/// Two causes in one line: the one that comes first in the order.
const FIRST_CAUSES: [(&str, ScriptCause); 14] = [
    ("\tconnect", ScriptCause::Text),
    ("unknown\x7f", ScriptCause::Text),
    ("up 05\r", ScriptCause::Text),
    ("unknown 05", ScriptCause::Word),
    ("app unknown 05", ScriptCause::Word),
    ("take app 0 0", ScriptCause::Form),
    ("take up 0", ScriptCause::Form),
    ("app fill 0 00 1 1", ScriptCause::Form),
    ("app fill 1 1000000001 1 01", ScriptCause::Form),
    ("app put 0 0A", ScriptCause::Form),
    ("spoil up 1000000001 0A", ScriptCause::Form),
    ("app file 1 63\napp file 1 63", ScriptCause::Number),
    ("app grow 1 96", ScriptCause::Number),
    ("app fill 1 0 0 1", ScriptCause::Number),
];

#[test]
fn unknown_words(rt: HostRuntime) {
    for line in UNKNOWN {
        assert_eq!(rt;
            read(rt.alloc(), line.as_bytes()),
            answer(Some((1, ScriptCause::Word))),
            "{line}"
        );
    }
}

#[test]
fn misformed(rt: HostRuntime) {
    for line in MISFORMED {
        assert_eq!(rt;
            read(rt.alloc(), line.as_bytes()),
            answer(Some((1, ScriptCause::Form))),
            "{line}"
        );
    }
    for line in MISFORMED_BYTES {
        assert_eq!(rt;
            read(rt.alloc(), line.as_bytes()),
            answer(Some((1, ScriptCause::Form))),
            "{line}"
        );
    }
    for line in NO_NUMBERS {
        assert_eq!(rt;
            read(rt.alloc(), line.as_bytes()),
            answer(Some((1, ScriptCause::Form))),
            "{line}"
        );
    }
}

#[test]
fn outside_the_range(rt: HostRuntime) {
    for line in OUTSIDE {
        assert_eq!(rt;
            read(rt.alloc(), line.as_bytes()),
            answer(Some((1, ScriptCause::Number))),
            "{line}"
        );
    }
}

#[test]
fn first_cause(rt: HostRuntime) {
    for (line, cause) in FIRST_CAUSES {
        assert_eq!(rt;
            read(rt.alloc(), line.as_bytes()),
            answer(Some((1, cause))),
            "{line}"
        );
    }
}
