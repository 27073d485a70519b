//! What the application says, as the bytes of its messages.

/// `wl_display.get_registry` of object 2, its `bind` of `wl_compositor` as object 3, and
/// `create_surface` of object 4.
pub const SURFACE: [u8; 64] = [
    1, 0, 0, 0, 1, 0, 12, 0, 2, 0, 0, 0, 2, 0, 0, 0, 0, 0, 40, 0, 1, 0, 0, 0, 14, 0, 0, 0, b'w',
    b'l', b'_', b'c', b'o', b'm', b'p', b'o', b's', b'i', b't', b'o', b'r', 0, 0, 0, 1, 0, 0, 0, 3,
    0, 0, 0, 3, 0, 0, 0, 0, 0, 12, 0, 4, 0, 0, 0,
];

/// `bind` of `wl_shm` as object 5, its `create_pool` of object 6, and of that a buffer of 640 by 480
/// pixels of four bytes, object 7; `attach` of it to the surface.
pub const BUFFER: [u8; 100] = [
    2, 0, 0, 0, 0, 0, 32, 0, 2, 0, 0, 0, 7, 0, 0, 0, b'w', b'l', b'_', b's', b'h', b'm', 0, 0, 1,
    0, 0, 0, 5, 0, 0, 0, 5, 0, 0, 0, 0, 0, 16, 0, 6, 0, 0, 0, 0, 192, 18, 0, 6, 0, 0, 0, 0, 0, 32,
    0, 7, 0, 0, 0, 0, 0, 0, 0, 128, 2, 0, 0, 224, 1, 0, 0, 0, 10, 0, 0, 0, 0, 0, 0, 4, 0, 0, 0, 1,
    0, 20, 0, 7, 0, 0, 0, 0, 0, 0, 0, 0, 0, 0, 0,
];

/// `wl_surface.damage` of object 4, of 640 by 480 pixels.
pub const DAMAGE: [u8; 24] = [
    4, 0, 0, 0, 2, 0, 24, 0, 0, 0, 0, 0, 0, 0, 0, 0, 128, 2, 0, 0, 224, 1, 0, 0,
];

/// `wl_surface.commit` of object 4.
pub const COMMIT: [u8; 8] = [4, 0, 0, 0, 6, 0, 8, 0];
