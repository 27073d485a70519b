//! What a message does that matters to the sending half.

use shm_pools::Buffer;
use surface_damage::Rect;

/// What a message of a side's own peer does to the tables of its sending half.
///
/// The ids are those of wayland.xml's requests; the object that the message is for stands beside
/// it.
#[derive(Clone, Copy, Debug, PartialEq, Eq)]
pub enum Deed {
    /// `wl_shm.create_pool`, with the handle that it carries.
    MakePool { pool: u32, size: i32 },
    /// `wl_shm_pool.resize`.
    Resize { size: i32 },
    /// `wl_shm_pool.create_buffer`.
    MakeBuffer { buffer: u32, shape: Buffer },
    /// `wl_compositor.create_surface`.
    MakeSurface { surface: u32 },
    /// `wl_surface.destroy`.
    EndSurface,
    /// `wl_surface.attach`, with 0 for null.
    Attach { buffer: u32 },
    /// `wl_surface.damage`.
    DamageSurface { rect: Rect },
    /// `wl_surface.damage_buffer`.
    DamageBuffer { rect: Rect },
    /// `wl_surface.set_buffer_scale`.
    Scale { scale: i32 },
    /// `wl_surface.set_buffer_transform`.
    Transform { transform: i32 },
    /// `wl_surface.commit`.
    Commit,
    /// `wl_keyboard.keymap`, with the handle that it carries.
    Keymap { size: u32 },
    /// Any other message.
    Other,
}
