//! Whole scripts: their lines, and a client that shows a window.

use super::*;
use std::alloc::AllocError;
use std::test::Fail;

/// So many line feeds.
fn empty_lines(alloc: Global, count: usize) -> Result<Vec<u8>, AllocError> {
    vec![in alloc; b'\n'; count]
}

#[test]
fn no_more_than_so_many_lines(rt: HostRuntime) -> Result<(), Fail> {
    let mut script = empty_lines(rt.alloc(), 199_999)?;
    script.extend_from_slice(b"stop")?;
    assert_eq!(rt;
        last_line(rt.alloc(), script.as_slice()),
        Some(200_000),
        "a last line without a line feed"
    );
    script.push(b'\n')?;
    assert_eq!(rt;
        last_line(rt.alloc(), script.as_slice()),
        Some(200_000),
        "an empty rest is no line"
    );
    script.push(b'#')?;
    assert_eq!(rt; has_too_many(rt.alloc(), script.as_slice()), true);
    Ok(())
}

#[test]
fn too_many_lines_go_before_a_bad_one(rt: HostRuntime) -> Result<(), Fail> {
    let mut script = Vec::from_slice(rt.alloc(), b"unknown\n")?;
    let lines = empty_lines(rt.alloc(), 199_999)?;
    script.extend_from_slice(lines.as_slice())?;
    assert_eq!(rt;
        read(rt.alloc(), script.as_slice()),
        answer(Some((1, ScriptCause::Word)))
    );
    script.push(b'\n')?;
    assert_eq!(rt; has_too_many(rt.alloc(), script.as_slice()), true);
    Ok(())
}

/// The number of the last line that asks for something.
fn last_line(alloc: Global, script: &[u8]) -> Option<u32> {
    match read_script(alloc, script) {
        Ok(script) => match script.steps.into_vec().pop() {
            Some(step) => Some(step.line),
            None => None,
        },
        Err(_) => None,
    }
}

fn has_too_many(alloc: Global, script: &[u8]) -> bool {
    matches!(read_script(alloc, script), Err(ScriptRead::Lines))
}

/// Comments hold any bytes; lines that are skipped count.
#[test]
fn skipped_lines(rt: HostRuntime) {
    assert_eq!(rt; last_line(rt.alloc(), b""), None);
    assert_eq!(rt;
        last_line(rt.alloc(), b"\n# \x00\xff\x80\t\r\nsettle\n\n#\nstop\n\n"),
        Some(6)
    );
    assert_eq!(rt;
        read(rt.alloc(), b"#\n\nsettle\n\xff\n05"),
        answer(Some((4, ScriptCause::Text)))
    );
    assert_eq!(rt;
        read(rt.alloc(), b"stop\n# stop\nup 0"),
        answer(Some((3, ScriptCause::Number)))
    );
    assert_eq!(rt;
        read(rt.alloc(), b" #"),
        answer(Some((1, ScriptCause::Word))),
        "no comment"
    );
}

/// A line of digits of bytes.
fn digits(alloc: Global, count: usize) -> Result<Vec<u8>, AllocError> {
    let mut line = Vec::from_slice(alloc, b"app hex ")?;
    let zeros = vec![in alloc; b'0'; count]?;
    line.extend_from_slice(zeros.as_slice())?;
    Ok(line)
}

#[test]
fn count_of_digits(rt: HostRuntime) -> Result<(), Fail> {
    let most = digits(rt.alloc(), 131_072)?;
    assert_eq!(rt; last_line(rt.alloc(), most.as_slice()), Some(1));
    let more = digits(rt.alloc(), 131_074)?;
    assert_eq!(rt;
        read(rt.alloc(), more.as_slice()),
        answer(Some((1, ScriptCause::Form)))
    );
    Ok(())
}

#[test]
fn as_many_pipes_as_lines(rt: HostRuntime) -> Result<(), Fail> {
    let alloc = rt.alloc();
    let mut script = Vec::new(alloc);
    for number in 1..=200_000u64 {
        let line = format!(in alloc; "app pipe {number}\n")?;
        script.extend_from_slice(line.as_bytes())?;
    }
    assert_eq!(rt; last_line(alloc, script.as_slice()), Some(200_000));
    Ok(())
}

const CLIENT: [&str; 43] = [
    "app file 1 2457600",
    "app wl_display@1.get_registry(new @2)",
    "app wl_display@1.sync(new @3)",
    "comp await 2",
    "comp wl_registry@2.global(1, \"wl_compositor\", 6)",
    "comp wl_registry@2.global(2, \"wl_shm\", 1)",
    "comp wl_registry@2.global(3, \"xdg_wm_base\", 5)",
    "comp wl_callback@3.done(1)",
    "comp wl_display@1.delete_id(3)",
    "app await 5",
    "app wl_registry@2.bind(1, \"wl_compositor\" 6 new @4)",
    "app wl_registry@2.bind(2, \"wl_shm\" 1 new @5)",
    "app wl_registry@2.bind(3, \"xdg_wm_base\" 5 new @6)",
    "app wl_compositor@4.create_surface(new @3)",
    "app xdg_wm_base@6.get_xdg_surface(new @7, @3)",
    "app xdg_surface@7.get_toplevel(new @8)",
    "app xdg_toplevel@8.set_title(\"editor\")",
    "app wl_surface@3.commit()",
    "comp await 10",
    "comp wl_shm@5.format(0)",
    "comp wl_shm@5.format(1)",
    "comp xdg_toplevel@8.configure(0, 0, [])",
    "comp xdg_surface@7.configure(7)",
    "app await 9",
    "app xdg_surface@7.ack_configure(7)",
    "app wl_shm@5.create_pool(new @9, fd %1, 2457600)",
    "app wl_shm_pool@9.create_buffer(new @10, 0, 640, 480, 2560, 1)",
    "app wl_shm_pool@9.create_buffer(new @11, 1228800, 640, 480, 2560, 1)",
    "app fill 1 0 153600 1",
    "app wl_surface@3.frame(new @12)",
    "app wl_surface@3.attach(@10, 0, 0)",
    "app wl_surface@3.damage(0, 0, 640, 480)",
    "app wl_surface@3.commit()",
    "comp await 18",
    "comp wl_callback@12.done(16)",
    "comp wl_display@1.delete_id(12)",
    "app await 11",
    "app fill 1 153600 153600 2",
    "app wl_surface@3.attach(@11, 0, 0)",
    "app wl_surface@3.damage_buffer(0, 0, 640, 480)",
    "app wl_surface@3.commit()",
    "comp await 21",
    "comp wl_buffer@10.release()",
];

#[test]
fn a_client_that_shows_a_window(rt: HostRuntime) -> Result<(), Fail> {
    let alloc = rt.alloc();
    let mut text = Vec::new(alloc);
    for line in CLIENT {
        text.extend_from_slice(line.as_bytes())?;
        text.push(b'\n')?;
    }
    assert_eq!(rt; read(alloc, text.as_slice()), answer(None));
    assert_eq!(rt; last_line(alloc, text.as_slice()), Some(43));
    Ok(())
}
