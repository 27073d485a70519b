//! Where a buffer lies in its file (Wayland's core protocol, `wl_shm_pool.create_buffer`).

ghost use Rattle.std.specs.Prelude.{◌≡◌, ◌^◌, pos, ◌+ℤ◌, ◌*ℤ◌, ◌≤ℤ◌, ◌&&◌, int_lt, int_le};
ghost use Rattle.shm_pools.specs.Buffers.{has_pixels, image_fits, fits_in};

/// What `wl_shm_pool.create_buffer` says of a buffer, as the client sent it.
#[derive(Clone, Copy, Debug, PartialEq, Eq, Drop)]
pub struct Buffer {
    /// The first byte of the image in the file.
    pub offset: i32,
    /// Pixels in a row.
    pub width: i32,
    /// Rows.
    pub height: i32,
    /// Bytes from the beginning of a row to the beginning of the next.
    pub stride: i32,
    /// A value of `wl_shm.format`.
    pub format: u32,
}

/// Whether the buffer lies within the first `told` bytes of its file.
///
/// An image of four bytes a pixel (formats 0, argb8888, and 1, xrgb8888) has whole rows there. A
/// buffer of any other format begins there.
pub fn fits(b: &Buffer, told: u32) -> bool
    ensures { result ≡ fits_in b.now told }
{
    if has_pixels(b.format) {
        image_fits(b, told)
    } else {
        b.offset >= 0 && (b.offset as i64) < told as i64
    }
}

// Whether a pixel of this format has four bytes.
fn has_pixels(format: u32) -> bool
    ensures { result ≡ has_pixels format }
{
    format == 0 || format == 1
}

// Whether the rows of an image of four bytes a pixel lie within the first `told` bytes.
fn image_fits(b: &Buffer, told: u32) -> bool
    ensures { result ≡ image_fits b.now told }
{
    if !has_image(b) || !is_room_for_row(b.width, b.stride) {
        return false;
    }
    ends_within(b, told)
}

// Whether the image has pixels, from a byte of the file on.
fn has_image(b: &Buffer) -> bool
    ensures { result ≡ (int_le (pos 0) b.now.offset
        && (int_lt (pos 0) b.now.width && int_lt (pos 0) b.now.height)) }
{
    b.offset >= 0 && b.width > 0 && b.height > 0
}

// Whether the rows, one every `stride` bytes, do not overlap.
fn is_room_for_row(width: i32, stride: i32) -> bool
    ensures { result ≡ int_le (pos 4 *ℤ width) stride }
{
    4 * width as i64 <= stride as i64
}

// Whether the last row ends within the first `told` bytes.
fn ends_within(b: &Buffer, told: u32) -> bool
    ensures { result ≡ int_le (b.now.offset +ℤ b.now.stride *ℤ b.now.height) (pos told) }
{
    end_of_rows(b.offset, b.stride, b.height) <= told as i64
}

// The byte behind the last row.
fn end_of_rows(offset: i32, stride: i32, height: i32) -> i64
    ensures { result ≡ offset +ℤ stride *ℤ height }
{
    offset as i64 + bytes_of_rows(stride, height)
}

// The product of 32 bit numbers, which leaves room for one more in 64 bits.
fn bytes_of_rows(stride: i32, height: i32) -> i64
    ensures value { result ≡ stride *ℤ height }
    ensures low { pos 0 ≤ℤ (result +ℤ pos (2 ^ 62)) }
    ensures high { result ≤ℤ pos (2 ^ 62) }
{
    stride as i64 * height as i64
}
