// The bytes of video memory.
ghost use Rattle.std.specs.Prelude.{◌≡◌, ◌<◌, ◌≤◌, ◌+◌, ◌*◌, length, slice_range, OnOk};
ghost use Rattle.dev_io.specs.Device.{Writes, side};
ghost use Rattle.vram_store.specs.Vram.{height_of};
ghost use Rattle.picture_out.specs.Dump.{dump, dump_cost};

use dev_io::{Failed, Sink, write_all};
use std::sync::ledger::Ledger;
use vram_store::{Steps, Vram};

/// Writes all cells row by row, the low byte of each cell first: 2,048 bytes and 64 store steps per row.
///
/// Fails only if the sink fails. A proper prefix of these bytes was then written.
pub fn write_vram<K: Sink, L: Ledger>(
    vram: &Vram,
    out: &mut K,
    steps: &mut Steps<L>,
) -> Result<(), Failed>
    ensures writes { Writes (side K.held K.faults) out.old out.new (dump vram.now) result }
    ensures cost { OnOk result (steps.new ≡ steps.old + dump_cost vram.now) }
    ensures cost_at_most { steps.new ≤ steps.old + dump_cost vram.now }
{
    for y in 0..vram.height() {
        let bytes = row_bytes(vram, y, steps);
        write_all(out, &bytes)?;
    }
    Ok(())
}

/// Returns the bytes of row `y`. Costs 64 store steps.
pub(crate) fn row_bytes<L: Ledger>(vram: &Vram, y: u16, steps: &mut Steps<L>) -> [u8; 2048]
    requires { y < height_of vram.now }
    ensures bytes { result ≡ dump (slice_range vram.now (1024 * y) (1024 * y + 1024)) }
    ensures cost { steps.new ≡ steps.old + 64 }
{
    let mut bytes = [0u8; 2048];
    for k in 0..64 {
        let lanes = vram.load16(16 * k, y, 16, steps).to_array();
        let at = 32 * k as usize;
        put_lanes(&lanes, &mut bytes[at..at + 32]);
    }
    bytes
}

// Writes 16 cells as 32 bytes, the low byte of each cell first.
fn put_lanes(lanes: &[u16; 16], bytes: &mut [u8])
    requires { length bytes.old ≡ 32 }
    ensures lanes { bytes.new ≡ dump lanes.now }
    ensures count { length bytes.new ≡ 32 }
{
    for j in 0..16 {
        let lane = lanes[j];
        bytes[2 * j] = (lane % 256) as u8;
        bytes[2 * j + 1] = (lane / 256) as u8;
    }
}
