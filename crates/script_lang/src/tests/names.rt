//! The files and pipes that lines name.

use super::*;
use std::alloc::AllocError;
use std::test::Fail;

const NAMES: [&str; 19] = [
    // used before, whichever of the two it is
    "app file 1 64\napp file 1 64",
    "app file 1 64\napp pipe 1",
    "app pipe 1\napp pipe 1",
    "comp pipe -1\ncomp file -1 64",
    // unknown
    "app file 2 64\napp grow 1 128",
    "app file 2 64\napp fill 1 0 1 0",
    "app pipe 2\napp give 1",
    "app pipe 2\napp shut 1",
    // of another kind
    "app pipe 1\napp grow 1 64",
    "app pipe 1\napp fill 1 0 1 0",
    "app file 1 64\napp shut 1",
    // past the end
    "app file 1 64\napp fill 1 0 9 0",
    "app file 1 64\napp fill 1 8 1 0",
    "app file 1 64\napp fill 1 1000000000 1 0",
    "app file 1 64\napp fill 1 1000000000 1000000000 0",
    "app file 1 64\napp fill 1 536870912 536870912 0",
    // of the other peer
    "comp pipe -1\napp give 1",
    "app pipe 1\ncomp give -1",
    "comp file -1 64\napp fill 1 0 1 0",
];

#[test]
fn wrong_names(rt: HostRuntime) {
    for script in NAMES {
        assert_eq!(rt;
            read(rt.alloc(), script.as_bytes()),
            answer(Some((2, ScriptCause::Name))),
            "{script}"
        );
    }
}

/// A greater size alone grows a file; sums are tested before names, and for each peer alone.
const SIZES: [(&str, Option<(u32, ScriptCause)>); 9] = [
    (
        "app file 1 128\napp grow 1 128",
        Some((2, ScriptCause::Number)),
    ),
    (
        "app file 1 128\napp grow 1 64",
        Some((2, ScriptCause::Number)),
    ),
    ("app grow 1 64", Some((1, ScriptCause::Name))),
    (
        "app file 1 67108864\napp file 2 67108864\napp file 3 67108864\n\
        app file 4 67108864\ncomp file -1 64",
        None,
    ),
    (
        "app file 1 67108864\napp file 2 67108864\napp file 3 67108864\n\
        app file 4 67108864\napp file 5 64",
        Some((5, ScriptCause::Number)),
    ),
    (
        "app file 1 67108864\napp file 2 67108864\napp file 3 67108864\n\
        app file 4 67108864\napp file 4 64",
        Some((5, ScriptCause::Number)),
    ),
    (
        "app file 1 67108864\napp file 2 67108864\napp file 3 67108864\n\
        app file 4 67108800\napp file 4 64",
        Some((5, ScriptCause::Name)),
    ),
    (
        "app file 1 67108864\napp file 2 67108864\napp file 3 67108864\n\
        app file 4 67108736\napp file 5 64\napp grow 4 67108800",
        None,
    ),
    (
        "app file 1 67108864\napp file 2 67108864\napp file 3 67108864\n\
        app file 4 67108736\napp file 5 64\napp grow 4 67108864",
        Some((6, ScriptCause::Number)),
    ),
];

#[test]
fn sums_of_sizes(rt: HostRuntime) {
    for (script, fault) in SIZES {
        assert_eq!(rt;
            read(rt.alloc(), script.as_bytes()),
            answer(fault),
            "{script}"
        );
    }
}

/// A script that makes a file of so many segments.
fn segments(alloc: Global, count: u32) -> Result<Vec<u8>, AllocError> {
    let mut script = Vec::from_slice(alloc, b"app file 1 64\n")?;
    for segment in 2..=u64::from(count) {
        let line = format!(in alloc; "app grow 1 {}\n", 64 * segment)?;
        script.extend_from_slice(line.as_bytes())?;
    }
    Ok(script)
}

#[test]
fn number_of_segments(rt: HostRuntime) -> Result<(), Fail> {
    let most = segments(rt.alloc(), 64)?;
    assert_eq!(rt; read(rt.alloc(), most.as_slice()), answer(None));
    let more = segments(rt.alloc(), 65)?;
    assert_eq!(rt;
        read(rt.alloc(), more.as_slice()),
        answer(Some((65, ScriptCause::Number)))
    );
    Ok(())
}
