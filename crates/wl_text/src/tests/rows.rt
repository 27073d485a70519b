//! Texts with the bytes of their messages and the numbers of their handles.

use super::{DOWN, UP, again, behind};
use std::test::Fail;
use wl_tables::Way;
use wl_wire::Text;

struct Row(Way, &'static str, &'static [u8], &'static [i32]);

static ROWS: [Row; 24] = [
    Row(UP, "wl_surface@3.commit()", b"\x03\0\0\0\x06\0\x08\0", &[]),
    Row(
        UP,
        "wl_surface@5.attach(@7, 0, 0)",
        b"\x05\0\0\0\x01\0\x14\0\x07\0\0\0\0\0\0\0\0\0\0\0",
        &[],
    ),
    Row(
        UP,
        "wl_surface@5.attach(null, -1, 1)",
        b"\x05\0\0\0\x01\0\x14\0\0\0\0\0\xff\xff\xff\xff\x01\0\0\0",
        &[],
    ),
    Row(
        UP,
        "wl_surface@4294967295.offset(-2147483648, 2147483647)",
        b"\xff\xff\xff\xff\x0a\0\x10\0\0\0\0\x80\xff\xff\xff\x7f",
        &[],
    ),
    Row(
        UP,
        "wl_display@0.sync(new @0)",
        b"\0\0\0\0\0\0\x0c\0\0\0\0\0",
        &[],
    ),
    Row(
        DOWN,
        "wl_display@1.delete_id(4294967295)",
        b"\x01\0\0\0\x01\0\x0c\0\xff\xff\xff\xff",
        &[],
    ),
    Row(
        DOWN,
        "wl_display@1.error(@16909060, 10, \"no\")",
        b"\x01\0\0\0\0\0\x18\0\x04\x03\x02\x01\x0a\0\0\0\x03\0\0\0no\0\0",
        &[],
    ),
    Row(
        UP,
        "wl_registry@2.bind(1, \"wl_shm\" 1 new @4)",
        b"\x02\0\0\0\0\0\x20\0\x01\0\0\0\x07\0\0\0wl_shm\0\0\x01\0\0\0\x04\0\0\0",
        &[],
    ),
    Row(
        UP,
        "wl_registry@2.bind(0, \"\" 4294967295 new @4294967295)",
        b"\x02\0\0\0\0\0\x1c\0\0\0\0\0\x01\0\0\0\0\0\0\0\xff\xff\xff\xff\xff\xff\xff\xff",
        &[],
    ),
    Row(
        DOWN,
        "wl_pointer@9.motion(16, 256/256, -1/256)",
        b"\x09\0\0\0\x02\0\x14\0\x10\0\0\0\0\x01\0\0\xff\xff\xff\xff",
        &[],
    ),
    Row(
        DOWN,
        "wl_pointer@9.motion(0, 2147483647/256, -2147483648/256)",
        b"\x09\0\0\0\x02\0\x14\0\0\0\0\0\xff\xff\xff\x7f\0\0\0\x80",
        &[],
    ),
    Row(
        DOWN,
        "xdg_toplevel@8.configure(0, 0, [])",
        b"\x08\0\0\0\0\0\x14\0\0\0\0\0\0\0\0\0\0\0\0\0",
        &[],
    ),
    Row(
        DOWN,
        "wl_keyboard@6.enter(1, @5, [00ff7f8009])",
        b"\x06\0\0\0\x01\0\x1c\0\x01\0\0\0\x05\0\0\0\x05\0\0\0\0\xff\x7f\x80\x09\0\0\0",
        &[],
    ),
    Row(
        UP,
        "wl_shm@5.create_pool(new @9, fd %1, 2457600)",
        b"\x05\0\0\0\0\0\x10\0\x09\0\0\0\0\x80\x25\0",
        &[1],
    ),
    Row(
        DOWN,
        "wl_keyboard@6.keymap(1, fd %-2147483648, 64)",
        b"\x06\0\0\0\0\0\x10\0\x01\0\0\0\x40\0\0\0",
        &[i32::MIN],
    ),
    Row(
        DOWN,
        "wl_data_source@7.send(\"a\", fd %0)",
        b"\x07\0\0\0\x01\0\x10\0\x02\0\0\0a\0\0\0",
        &[0],
    ),
    Row(
        UP,
        "wl_data_offer@8.receive(\"abc\", fd %2147483647)",
        b"\x08\0\0\0\x01\0\x10\0\x04\0\0\0abc\0",
        &[i32::MAX],
    ),
    Row(
        DOWN,
        "wl_data_source@7.target(null)",
        b"\x07\0\0\0\0\0\x0c\0\0\0\0\0",
        &[],
    ),
    Row(
        DOWN,
        "wl_data_source@7.target(\"null\")",
        b"\x07\0\0\0\0\0\x14\0\x05\0\0\0null\0\0\0\0",
        &[],
    ),
    Row(
        UP,
        "wl_data_offer@8.accept(7, null)",
        b"\x08\0\0\0\0\0\x10\0\x07\0\0\0\0\0\0\0",
        &[],
    ),
    Row(
        UP,
        "xdg_toplevel@8.set_title(\"say \\\"hi\\\", (a)\\\\b~\")",
        b"\x08\0\0\0\x02\0\x20\0\x11\0\0\0say \"hi\", (a)\\b~\0\0\0\0",
        &[],
    ),
    Row(
        UP,
        "xdg_toplevel@8.set_title(\"\\x00\\x0a\\x1f\\x7f\\x80\\xff\")",
        b"\x08\0\0\0\x02\0\x14\0\x07\0\0\0\0\x0a\x1f\x7f\x80\xff\0\0",
        &[],
    ),
    Row(
        UP,
        "wl_data_device@4.start_drag(null, @5, null, 0)",
        b"\x04\0\0\0\0\0\x18\0\0\0\0\0\x05\0\0\0\0\0\0\0\0\0\0\0",
        &[],
    ),
    Row(
        DOWN,
        "wl_surface@5.enter(@3)",
        b"\x05\0\0\0\0\0\x0c\0\x03\0\0\0",
        &[],
    ),
];

#[test]
fn rows_both_ways(rt: HostRuntime) -> Result<(), Fail> {
    for Row(way, line, bytes, handles) in &ROWS {
        match again(rt.alloc(), line.as_bytes(), *way) {
            Ok((it, text)) => {
                assert_eq!(rt; it.message.bytes(), *bytes, "{line}");
                assert_eq!(rt; it.handles.as_slice(), *handles, "{line}");
                assert_eq!(rt; text.as_slice(), line.as_bytes(), "{line}");
            }
            Err(_) => assert!(rt; false, "{line}"),
        }
    }
    Ok(())
}

#[test]
fn one_text_behind_another(rt: HostRuntime) -> Result<(), Fail> {
    let mut text = Text::new(rt.alloc());
    let first = behind(&mut text, rt.alloc(), b"wl_surface@3.commit()", UP);
    assert!(rt; first.is_ok());
    let second = behind(&mut text, rt.alloc(), b"wl_surface@5.enter(@3)", DOWN);
    assert!(rt; second.is_ok());
    let both: &[u8] = b"wl_surface@3.commit()wl_surface@5.enter(@3)";
    assert_eq!(rt; text.as_slice(), both);
    Ok(())
}
