// The shown picture as RGBA.
ghost use Rattle.std.specs.Prelude.{◌≡◌, ◌*◌, ◌-◌, ◌≤◌, ◌++◌, ◌∷◌, [], drop, length, take};
ghost use Rattle.psxgpu_c.specs.Shown.{PutsDue, rgba_due, with_alpha};

use crate::refusal::Refusal;
use crate::views::picture_in_memory;
use event_play::Rig;
use picture_out::shape;
use std::alloc::Global;

/// Writes the shown picture to the start of `out` as RGBA, and returns the number of bytes. Refuses with `NoPicture`,
/// `NoRoom` or `NoMemory`, and then writes nothing.
pub(crate) fn put_rgba(alloc: Global, rig: &Rig, out: &mut [u8]) -> Result<usize, Refusal>
    ensures { PutsDue (rgba_due rig.now) out.old out.new result }
{
    let Some((width, lines)) = shape(rig.gpu().regs()) else {
        return Err(Refusal::NoPicture);
    };
    let count = width as usize * lines as usize;
    if out.len() < 4 * count {
        return Err(Refusal::NoRoom);
    }
    let Ok(sink) = picture_in_memory(alloc, rig, (width, lines)) else {
        return Err(Refusal::NoMemory);
    };
    add_alpha(last_bytes(sink.bytes(), 3 * count), count, out);
    Ok(4 * count)
}

// Returns the last `count` bytes.
fn last_bytes(bytes: &[u8], count: usize) -> &[u8]
    requires { count ≤ length bytes.now }
    ensures { result.now ≡ drop (length bytes.now - count) bytes.now }
{
    &bytes[bytes.len() - count..]
}

// Writes `count` pixels of three bytes to the start of `out`, each followed by 255.
fn add_alpha(bytes: &[u8], count: usize, out: &mut [u8])
    requires bytes { 3 * count ≤ length bytes.now }
    requires room { 4 * count ≤ length out.old }
    ensures front { take (4 * count) out.new ≡ with_alpha bytes.now count }
    ensures after { drop (4 * count) out.new ≡ drop (4 * count) out.old }
{
    for k in 0..count {
        put_pixel(&bytes[3 * k..3 * k + 3], &mut out[4 * k..4 * k + 4]);
    }
}

// Writes the three bytes of a pixel, and 255.
fn put_pixel(bytes: &[u8], out: &mut [u8])
    requires bytes { length bytes.now ≡ 3 }
    requires room { length out.old ≡ 4 }
    ensures { out.new ≡ bytes.now ++ 255 ∷ [] }
{
    out.copy_from_slice(&[bytes[0], bytes[1], bytes[2], 255]);
}
