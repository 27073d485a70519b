//! The script of a trial.

ghost use Rattle.std.specs.Prelude.{◌≤◌};

use super::*;

const THREE: &str = "app file 1 65536
app wl_display@1.get_registry(new @2)
app wl_registry@2.bind(1, \"wl_compositor\" 6 new @3)
app wl_registry@2.bind(2, \"wl_shm\" 1 new @4)
app wl_compositor@3.create_surface(new @5)
app wl_shm@4.create_pool(new @6, fd %1, 65536)
app wl_shm_pool@6.create_buffer(new @7, 0, 128, 128, 512, 0)
app wl_surface@5.attach(@7, 0, 0)
app fill 1 3155 4 67
app wl_surface@5.damage_buffer(74, 52, 4, 32)
app wl_surface@5.commit()
connect
take app 100
up 64
down 64
app fill 1 3881 2 83
app wl_surface@5.damage_buffer(50, 104, 6, 7)
app wl_surface@5.commit()
connect
take app 100
up 64
down 64
app fill 1 8043 4 71
app wl_surface@5.damage_buffer(88, 101, 31, 28)
app wl_surface@5.commit()
settle
";

/// Whether a text asks for what the script of a trial of so many rounds asks for.
fn is_trial(alloc: Global, text: &str, count: u32) -> bool
    requires low { 1 ≤ count }
    requires high { count ≤ 500 }
{
    match (
        read_script(alloc, text.as_bytes()),
        trial_script(alloc, count),
    ) {
        (Ok(read), Ok(trial)) => read.steps == trial.steps,
        _ => false,
    }
}

/// The text was worked out by another program.
#[test]
fn trials(rt: HostRuntime) {
    assert_eq!(rt; is_trial(rt.alloc(), THREE, 3), true);
    assert_eq!(rt; trial_script(rt.alloc(), 500).is_ok(), true);
}
