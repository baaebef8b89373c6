// Reads the shown picture of the machine of a handle, which stays as it is.
ghost use Rattle.std.specs.Prelude.{◌≡◌};
ghost use Rattle.psxgpu_c.specs.Shown.{SeesShape, Tells, Views, picture_due, rgba_due};

use crate::ended::code_for;
use crate::front::tell;
use crate::handle::Psxgpu;
use crate::refusal::Refusal;
use crate::rgba::put_rgba;
use crate::views::put_picture;
use picture_out::shape;
use std::alloc::Global;

/// Writes the shown picture to the start of `out` as PPM. `written`: the number of bytes. Refuses with `NoPicture`,
/// `NoRoom` or `NoMemory`; then `out` is unchanged and `written` is 0.
#[unsafe(no_mangle)]
pub extern "C" fn psxgpu_picture(
    alloc: Global,
    gpu: &mut Psxgpu,
    out: &mut [u8],
    written: &mut usize,
) -> u32
    ensures bytes { Tells (Views gpu.old.held.value picture_due out.old out.new) result written.new }
    ensures same { gpu.new.held.value ≡ gpu.old.held.value }
{
    tell(picture_of(alloc, gpu, out), written)
}

fn picture_of(alloc: Global, gpu: &mut Psxgpu, out: &mut [u8]) -> Result<usize, Refusal>
    ensures bytes { Views gpu.old.held.value picture_due out.old out.new result }
    ensures same { gpu.new.held.value ≡ gpu.old.held.value }
{
    match gpu.take(alloc) {
        Some(rig) => {
            let answer = put_picture(alloc, &rig, out);
            gpu.put(rig);
            answer
        }
        None => Err(Refusal::Closed),
    }
}

/// Writes the shown picture to the start of `out` as RGBA: four bytes per pixel, row by row from the top. `written`:
/// the number of bytes. Refuses as [`psxgpu_picture`] does.
#[unsafe(no_mangle)]
pub extern "C" fn psxgpu_picture_rgba(
    alloc: Global,
    gpu: &mut Psxgpu,
    out: &mut [u8],
    written: &mut usize,
) -> u32
    ensures bytes { Tells (Views gpu.old.held.value rgba_due out.old out.new) result written.new }
    ensures same { gpu.new.held.value ≡ gpu.old.held.value }
{
    tell(rgba_of(alloc, gpu, out), written)
}

fn rgba_of(alloc: Global, gpu: &mut Psxgpu, out: &mut [u8]) -> Result<usize, Refusal>
    ensures bytes { Views gpu.old.held.value rgba_due out.old out.new result }
    ensures same { gpu.new.held.value ≡ gpu.old.held.value }
{
    match gpu.take(alloc) {
        Some(rig) => {
            let answer = put_rgba(alloc, &rig, out);
            gpu.put(rig);
            answer
        }
        None => Err(Refusal::Closed),
    }
}

/// Sets `width` and `height` to those of the shown picture, in pixels. If it has no pixel, leaves both and returns the
/// code of `NoPicture`.
#[unsafe(no_mangle)]
pub extern "C" fn psxgpu_shape(
    alloc: Global,
    gpu: &mut Psxgpu,
    width: &mut u16,
    height: &mut u16,
) -> u32
    ensures shape { SeesShape gpu.old.held.value (width.old, height.old) (width.new, height.new) result }
    ensures same { gpu.new.held.value ≡ gpu.old.held.value }
{
    match gpu.take(alloc) {
        Some(rig) => {
            let found = shape(rig.gpu().regs());
            gpu.put(rig);
            match found {
                Some((w, h)) => {
                    *width = w;
                    *height = h;
                    0
                }
                None => code_for(Refusal::NoPicture),
            }
        }
        None => code_for(Refusal::Closed),
    }
}
