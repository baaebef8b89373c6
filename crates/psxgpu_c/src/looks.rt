// Reads the machine of a handle without changing it.
ghost use Rattle.std.specs.Prelude.{◌≡◌, ◌<◌, ◌^◌, IsTrue, Some};
ghost use Rattle.gp1_status.specs.Words.{words_of};
ghost use Rattle.picture_out.specs.Dump.{dump};
ghost use Rattle.psxgpu_c.specs.Shown.{Answers, SeesCell, SeesWords, Tells, Views, cell_due, has_cell};

use crate::ended::code_for;
use crate::front::{code_of, put_words, tell};
use crate::handle::Psxgpu;
use crate::refusal::Refusal;
use crate::views::{cell_of, put_vram};
use event_play::Rig;
use std::alloc::Global;

/// Writes the cells of video memory to the start of `out`, row by row, the low byte of each cell first. `written`: the
/// number of bytes. Refuses with `NoRoom` or `NoMemory`; then `out` is unchanged and `written` is 0.
#[unsafe(no_mangle)]
pub extern "C" fn psxgpu_vram(
    alloc: Global,
    gpu: &mut Psxgpu,
    out: &mut [u8],
    written: &mut usize,
) -> u32
    ensures bytes { Tells (Views gpu.old.held.value (λ rig. Some (dump rig.gpu.parts.m)) out.old out.new)
        result written.new }
    ensures same { gpu.new.held.value ≡ gpu.old.held.value }
{
    tell(vram_of(alloc, gpu, out), written)
}

fn vram_of(alloc: Global, gpu: &mut Psxgpu, out: &mut [u8]) -> Result<usize, Refusal>
    ensures bytes { Views gpu.old.held.value (λ rig. Some (dump rig.gpu.parts.m)) out.old out.new result }
    ensures same { gpu.new.held.value ≡ gpu.old.held.value }
{
    match gpu.take(alloc) {
        Some(rig) => {
            let answer = put_vram(alloc, &rig, out);
            gpu.put(rig);
            answer
        }
        None => Err(Refusal::Closed),
    }
}

/// Sets `cell` to the cell in column `x` and row `y`. If there is none, leaves `cell` and returns the code of `NoCell`.
#[unsafe(no_mangle)]
pub extern "C" fn psxgpu_cell(
    alloc: Global,
    gpu: &mut Psxgpu,
    x: u32,
    y: u32,
    cell: &mut u16,
) -> u32
    ensures cell { SeesCell gpu.old.held.value (cell_due x y) cell.old cell.new result }
    ensures same { gpu.new.held.value ≡ gpu.old.held.value }
{
    match gpu.take(alloc) {
        Some(rig) => {
            let code = see_cell(&rig, x, y, cell);
            gpu.put(rig);
            code
        }
        None => code_for(Refusal::Closed),
    }
}

fn see_cell(rig: &Rig, x: u32, y: u32, cell: &mut u16) -> u32
    ensures { SeesCell (Some rig.now) (cell_due x y) cell.old cell.new result }
{
    if has_cell(rig, x, y) {
        *cell = cell_of(rig, x as u16, y as u16);
        0
    } else {
        code_for(Refusal::NoCell)
    }
}

// Whether video memory has a cell in column `x` and row `y`.
fn has_cell(rig: &Rig, x: u32, y: u32) -> bool
    ensures value { result ≡ has_cell rig.now x y }
    ensures in_row { IsTrue result → x < 1024 }
    ensures in_height { IsTrue result → y < rig.now.gpu.parts.regs.height }
    ensures high { rig.now.gpu.parts.regs.height < 2 ^ 16 }
{
    let height = rig.gpu().height();
    let in_row = x < 1024;
    let in_height = y < u32::from(height);
    in_row && in_height
}

/// Writes the registers as 13 words to the start of `words`. If it is shorter, writes nothing and returns the code of
/// `NoRoom`.
#[unsafe(no_mangle)]
pub extern "C" fn psxgpu_registers(alloc: Global, gpu: &mut Psxgpu, words: &mut [u32]) -> u32
    ensures words { Answers (SeesWords gpu.old.held.value (λ rig. words_of rig.gpu.parts.regs) words.old words.new)
        result }
    ensures same { gpu.new.held.value ≡ gpu.old.held.value }
{
    code_of(registers_of(alloc, gpu, words))
}

fn registers_of(alloc: Global, gpu: &mut Psxgpu, words: &mut [u32]) -> Result<usize, Refusal>
    ensures words { SeesWords gpu.old.held.value (λ rig. words_of rig.gpu.parts.regs) words.old words.new result }
    ensures same { gpu.new.held.value ≡ gpu.old.held.value }
{
    match gpu.take(alloc) {
        Some(rig) => {
            let answer = put_words(words, &rig.gpu().regs().to_words());
            gpu.put(rig);
            answer
        }
        None => Err(Refusal::Closed),
    }
}
