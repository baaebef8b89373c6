// Dumps and pictures in memory that is large enough for them.
ghost use Rattle.std.specs.Prelude.{◌≡◌, ◌≤◌, IfOk, Some, length};
ghost use Rattle.gp1_status.specs.Shape.{shape_of};
ghost use Rattle.picture_out.specs.Dump.{dump};
ghost use Rattle.picture_out.specs.Picture.{picture};

use crate::room_sink::RoomSink;
use gp1_status::Regs;
use picture_out::{write_ppm, write_vram};
use px_num::OutOfMemory;
use std::alloc::Global;
use std::sync::ledger::Ledger;
use vram_store::{Steps, Vram};

/// At least the size in bytes of a PPM header.
const MOST_HEAD: usize = 32;

/// Returns the bytes of video memory in memory of their own. Fails only if memory runs out.
pub(crate) fn dump_in_memory<L: Ledger>(
    alloc: Global,
    vram: &Vram,
    steps: &mut Steps<L>,
) -> Result<RoomSink, OutOfMemory>
    ensures { IfOk result (λ sink. sink.held ≡ dump vram.now) }
{
    let mut sink = RoomSink::new(alloc, dump_size(vram))?;
    let result = write_vram(vram, &mut sink, steps);
    let _ = sink.bytes();
    let Ok(()) = result else { unreachable!() };
    Ok(sink)
}

// Returns the number of bytes of video memory.
fn dump_size(vram: &Vram) -> usize
    ensures { result ≡ length (dump vram.now) }
{
    2048 * vram.height() as usize
}

/// Returns the shown picture as PPM in memory of its own. `size`: its width and height in pixels. Fails only if memory
/// runs out.
pub(crate) fn ppm_in_memory<L: Ledger>(
    alloc: Global,
    vram: &Vram,
    regs: &Regs,
    size: (u16, u16),
    steps: &mut Steps<L>,
) -> Result<RoomSink, OutOfMemory>
    requires { shape_of regs.now ≡ Some size }
    ensures { IfOk result (λ sink. sink.held ≡ picture vram.now regs.now) }
{
    let mut sink = RoomSink::new(alloc, picture_room(vram, regs, size))?;
    let result = write_ppm(vram, regs, &mut sink, steps);
    let _ = sink.bytes();
    let Ok(()) = result else { unreachable!() };
    Ok(sink)
}

// Returns a size in bytes that the shown picture fits in as PPM. `size`: its width and height in pixels.
fn picture_room(_vram: &Vram, _regs: &Regs, size: (u16, u16)) -> usize
    requires { shape_of _regs.now ≡ Some size }
    ensures { length (picture _vram.now _regs.now) ≤ result }
{
    3 * size.0 as usize * size.1 as usize + MOST_HEAD
}
