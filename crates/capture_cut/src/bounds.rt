// The written state of a rig can be read again.
ghost use Rattle.std.specs.Prelude.{◌<◌, ◌^◌, ℕ, None, slice_index};
ghost use Rattle.gp0_words.specs.Next.{IsPending};
ghost use Rattle.gpu_capture.specs.Whole.{AreWords};
ghost use Rattle.snapshot_words.specs.Outline.{AreCells};
ghost use Rattle.snapshot_words.specs.Values.{half_words, pending_words};
ghost use Rattle.capture_cut.specs.File.{IsWritable};

use crate::state::keep_widths;
use event_play::Rig;
use gp0_words::Pending;

/// Proves that the state of a rig is in its bounds and its values fit their words, if fewer than 2^63 events were
/// played. Requires cells of 16 bits. Does nothing.
pub fn keep_bounds(rig: &Rig)
    requires cells { AreCells rig.now.gpu.parts.m }
    ensures { rig.now.played < 2 ^ 63 → IsWritable rig.now }
{
    let gpu = rig.gpu();
    let _ = (gpu.height(), gpu.load_job(), gpu.store_job(), rig.running());
    keep_widths(gpu.regs());
    keep_pending(&gpu.pending());
    let ram = rig.ram();
    ram.words_fit();
    let _ = ram.get(0);
}

// Proves that the values of what is pending fit their words, except those of an open load. Does nothing.
fn keep_pending(pending: &Pending)
    requires { IsPending pending.now }
    ensures { AreWords (pending_words pending.now None) }
{
    match pending {
        Pending::Idle => {}
        Pending::Packet { words } => keep_words(words.as_slice()),
        Pending::Pixels { .. } => {}
        Pending::Poly {
            command,
            color,
            vertex,
            half,
        } => {
            let _ = (*command, *color, *vertex);
            keep_half(*half);
        }
    }
}

// Proves that the colour word already received, if any, has 32 bits. Does nothing.
fn keep_half(half: Option<u32>)
    ensures { AreWords (half_words half) }
{
    match half {
        None => {}
        Some(word) => {
            let _ = word;
        }
    }
}

// Proves that each word has 32 bits. Does nothing.
fn keep_words(words: &[u32])
    ensures { (k : ℕ) → slice_index words.now k < 2 ^ 32 }
{
    let _ = words.len();
}
