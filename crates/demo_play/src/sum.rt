// The sum of all cells of video memory.
ghost use Rattle.std.specs.Prelude.{◌≡◌, ◌≤◌, ◌<◌, ◌+◌, ◌*◌, slice_range, sum};
ghost use Rattle.vram_store.specs.Vram.{height_of};

use gpu_core::Gpu;
use std::sync::ledger::Ledger;
use vram_store::{Steps, Vram};

/// Returns the sum of all cells. Reads sixteen cells per step.
pub fn sum_of_cells<L: Ledger>(gpu: &Gpu, steps: &mut Steps<L>) -> u64
    ensures value { result ≡ sum gpu.now.parts.m }
    ensures cost { steps.new ≡ steps.old + 64 * gpu.now.parts.regs.height }
{
    let mut total = 0;
    for y in 0..gpu.height() {
        total += row_sum(gpu.vram(), y, steps);
    }
    total
}

/// Returns the sum of the cells of row `y`.
fn row_sum<L: Ledger>(vram: &Vram, y: u16, steps: &mut Steps<L>) -> u64
    requires { y < height_of vram.now }
    ensures value { result ≡ sum (slice_range vram.now (1024 * y) (1024 * y + 1024)) }
    ensures bounds { result ≤ 67107840 }
    ensures cost { steps.new ≡ steps.old + 64 }
{
    let mut total = 0;
    for k in 0..64 {
        total += lanes_sum(&vram.load16(16 * k, y, 16, steps).to_array());
    }
    total
}

fn lanes_sum(lanes: &[u16; 16]) -> u64
    ensures value { result ≡ sum lanes.now }
    ensures bounds { result ≤ 1048560 }
{
    let mut total = 0;
    for lane in lanes {
        total += *lane as u64;
    }
    total
}
