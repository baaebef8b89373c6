// Writes video memory and the shown picture as bytes.
ghost use Rattle.std.specs.Prelude.{◌≡◌, ◌<◌, IfOk, Some};
ghost use Rattle.gp1_status.specs.Shape.{shape_of};
ghost use Rattle.picture_out.specs.Dump.{dump};
ghost use Rattle.picture_out.specs.Picture.{picture};
ghost use Rattle.vram_store.specs.Vram.{at};
ghost use Rattle.psxgpu_c.specs.Shown.{PutsDue, picture_due};

use crate::front::put_front;
use crate::in_memory::{dump_in_memory, ppm_in_memory};
use crate::refusal::Refusal;
use crate::room_sink::RoomSink;
use event_play::Rig;
use picture_out::shape;
use px_num::OutOfMemory;
use std::alloc::Global;
use std::marker::Brand;
use std::sync::ledger::{Blank, Ledger};
use vram_store::Steps;

/// Writes the bytes of video memory to the start of `out`, and returns their number.
pub(crate) fn put_vram(alloc: Global, rig: &Rig, out: &mut [u8]) -> Result<usize, Refusal>
    ensures { PutsDue (Some (dump rig.now.gpu.parts.m)) out.old out.new result }
{
    put_dump::<Brand>(alloc, rig, out, Blank::new(1))
}

fn put_dump<L: Ledger>(
    alloc: Global,
    rig: &Rig,
    out: &mut [u8],
    blank: Blank,
) -> Result<usize, Refusal>
    requires name { blank.name ≡ L.name }
    requires parts { blank.parts ≡ L.parts }
    requires some { 0 < blank.parts }
    ensures { PutsDue (Some (dump rig.now.gpu.parts.m)) out.old out.new result }
{
    let mut steps = Steps::<L>::new(blank);
    match dump_in_memory(alloc, rig.gpu().vram(), &mut steps) {
        Ok(sink) => put_front(out, sink.bytes()),
        Err(_) => Err(Refusal::NoMemory),
    }
}

/// Writes the shown picture to the start of `out` as PPM, and returns the number of bytes. If it has no pixel, returns
/// `NoPicture`.
pub(crate) fn put_picture(alloc: Global, rig: &Rig, out: &mut [u8]) -> Result<usize, Refusal>
    ensures { PutsDue (picture_due rig.now) out.old out.new result }
{
    let Some(size) = shape(rig.gpu().regs()) else {
        return Err(Refusal::NoPicture);
    };
    match picture_in_memory(alloc, rig, size) {
        Ok(sink) => put_front(out, sink.bytes()),
        Err(_) => Err(Refusal::NoMemory),
    }
}

/// Returns the shown picture as PPM in memory of its own. `size`: its width and height in pixels. Fails only if memory
/// runs out.
pub(crate) fn picture_in_memory(
    alloc: Global,
    rig: &Rig,
    size: (u16, u16),
) -> Result<RoomSink, OutOfMemory>
    requires { shape_of rig.now.gpu.parts.regs ≡ Some size }
    ensures { IfOk result (λ sink. sink.held ≡ picture rig.now.gpu.parts.m rig.now.gpu.parts.regs) }
{
    write_picture::<Brand>(alloc, rig, size, Blank::new(1))
}

fn write_picture<L: Ledger>(
    alloc: Global,
    rig: &Rig,
    size: (u16, u16),
    blank: Blank,
) -> Result<RoomSink, OutOfMemory>
    requires name { blank.name ≡ L.name }
    requires parts { blank.parts ≡ L.parts }
    requires some { 0 < blank.parts }
    requires shown { shape_of rig.now.gpu.parts.regs ≡ Some size }
    ensures { IfOk result (λ sink. sink.held ≡ picture rig.now.gpu.parts.m rig.now.gpu.parts.regs) }
{
    let mut steps = Steps::<L>::new(blank);
    let gpu = rig.gpu();
    ppm_in_memory(alloc, gpu.vram(), gpu.regs(), size, &mut steps)
}

/// Returns a cell. Requires that column and row are in video memory.
pub(crate) fn cell_of(rig: &Rig, x: u16, y: u16) -> u16
    requires in_row { x < 1024 }
    requires in_height { y < rig.now.gpu.parts.regs.height }
    ensures { result ≡ at rig.now.gpu.parts.m x y }
{
    get::<Brand>(rig, x, y, Blank::new(1))
}

fn get<L: Ledger>(rig: &Rig, x: u16, y: u16, blank: Blank) -> u16
    requires name { blank.name ≡ L.name }
    requires parts { blank.parts ≡ L.parts }
    requires some { 0 < blank.parts }
    requires in_row { x < 1024 }
    requires in_height { y < rig.now.gpu.parts.regs.height }
    ensures { result ≡ at rig.now.gpu.parts.m x y }
{
    let mut steps = Steps::<L>::new(blank);
    let height = rig.gpu().height();
    let vram = rig.gpu().vram();
    let _ = height;
    vram.get(x, y, &mut steps)
}
