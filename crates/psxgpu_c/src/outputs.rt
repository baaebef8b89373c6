// Plays a whole capture or snapshot and keeps the output in a handle.
ghost use Rattle.std.specs.Prelude.{◌≡◌, None};
ghost use Rattle.psxgpu_c.specs.Whole.{Copies, KeepsMode, mode_named};

use crate::ended::{Ended, of_refusal};
use crate::front::put_all;
use crate::output_handle::PsxgpuOutput;
use crate::refusal::Refusal;
use crate::run::play_kept;
use crate::whole::mode_of;
use event_play::Mode;
use std::alloc::Global;

/// Plays a capture or a snapshot as `psxgpu_play` does and keeps the output in `output`, which must be empty. Sets
/// `ended` in every case and returns its code. If it refuses with `Open`, `BadMode` or `NoMemory`, `output` is
/// unchanged.
#[unsafe(no_mangle)]
pub extern "C" fn psxgpu_play_output(
    alloc: Global,
    mode: u32,
    cell: u32,
    capture: &[u8],
    output: &mut PsxgpuOutput,
    ended: &mut Ended,
) -> u32
    ensures kept { KeepsMode (mode_named mode cell) capture.now output.old.held.value output.new.held.value ended.new }
    ensures code { result ≡ ended.new.code }
{
    *ended = keep_mode(alloc, mode_of(mode, cell), capture, output);
    ended.code
}

fn keep_mode(alloc: Global, mode: Option<Mode>, capture: &[u8], output: &mut PsxgpuOutput) -> Ended
    ensures { KeepsMode mode capture.now output.old.held.value output.new.held.value result }
{
    match output.take(alloc) {
        Some(kept) => {
            output.put(kept);
            of_refusal(Refusal::Open)
        }
        None => keep_new(alloc, mode, capture, output),
    }
}

// Does the same for an empty handle.
fn keep_new(alloc: Global, mode: Option<Mode>, capture: &[u8], output: &mut PsxgpuOutput) -> Ended
    requires { output.old.held.value ≡ None }
    ensures { KeepsMode mode capture.now None output.new.held.value result }
{
    let Some(mode) = mode else {
        return of_refusal(Refusal::BadMode);
    };
    let Some((kept, told)) = play_kept(alloc, mode, capture) else {
        return of_refusal(Refusal::NoMemory);
    };
    let Ok(boxed) = Box::new(alloc, kept) else {
        return of_refusal(Refusal::NoMemory);
    };
    output.put(boxed);
    told
}

/// Writes the bytes of the output from `offset` on to the start of `out`, as many as there is room for, and returns
/// their number. It is 0 if there are none, or no output.
#[unsafe(no_mangle)]
pub extern "C" fn psxgpu_output_copy(
    alloc: Global,
    output: &mut PsxgpuOutput,
    offset: usize,
    out: &mut [u8],
) -> usize
    ensures bytes { Copies output.old.held.value offset out.old out.new result }
    ensures same { output.new.held.value ≡ output.old.held.value }
{
    match output.take(alloc) {
        Some(kept) => {
            let piece = kept.piece(offset, out.len());
            put_all(out, piece);
            let count = piece.len();
            output.put(kept);
            count
        }
        None => 0,
    }
}

/// Frees the output, if there is one. The handle is then empty.
#[unsafe(no_mangle)]
pub extern "C" fn psxgpu_output_free(alloc: Global, output: &mut PsxgpuOutput)
    ensures { output.new.held.value ≡ None }
{
    drop(output.take(alloc));
}
