// Writes the machine of a handle as a snapshot, and reads one.
ghost use Rattle.std.specs.Prelude.{◌≡◌};
ghost use Rattle.psxgpu_c.specs.Codes.{told_by};
ghost use Rattle.psxgpu_c.specs.Saved.{LoadsHeld, SavesHeld, TellsLoad};
ghost use Rattle.psxgpu_c.specs.Shown.{Tells};

use crate::ended::{Ended, numbers, of_refusal};
use crate::front::tell;
use crate::handle::Psxgpu;
use crate::refusal::Refusal;
use crate::state::{load, put_saved};
use std::alloc::Global;

/// Writes the machine to the start of `out` as a snapshot with no record after its state. `written`: the number of
/// bytes. Refuses with `TooManyEvents`, `NoRoom` or `NoMemory`; then `out` is unchanged and `written` is 0.
#[unsafe(no_mangle)]
pub extern "C" fn psxgpu_save(
    alloc: Global,
    gpu: &mut Psxgpu,
    out: &mut [u8],
    written: &mut usize,
) -> u32
    ensures bytes { Tells (SavesHeld gpu.old.held.value out.old out.new) result written.new }
    ensures same { gpu.new.held.value ≡ gpu.old.held.value }
{
    tell(saved_of(alloc, gpu, out), written)
}

fn saved_of(alloc: Global, gpu: &mut Psxgpu, out: &mut [u8]) -> Result<usize, Refusal>
    ensures bytes { SavesHeld gpu.old.held.value out.old out.new result }
    ensures same { gpu.new.held.value ≡ gpu.old.held.value }
{
    match gpu.take(alloc) {
        Some(rig) => {
            let answer = put_saved(alloc, &rig, out);
            gpu.put(rig);
            answer
        }
        None => Err(Refusal::Closed),
    }
}

/// Replaces the machine by the state of a snapshot, or by the first state of a capture. Sets `ended` in every case and
/// returns its code. If the bytes are neither, or memory runs out, the machine is unchanged.
#[unsafe(no_mangle)]
pub extern "C" fn psxgpu_load(
    alloc: Global,
    gpu: &mut Psxgpu,
    bytes: &[u8],
    ended: &mut Ended,
) -> u32
    ensures told { TellsLoad gpu.old.held.value gpu.new.held.value bytes.now ended.new }
    ensures code { result ≡ ended.new.code }
{
    *ended = told_by(load_held(alloc, gpu, bytes));
    ended.code
}

// Does the same. Returns why it failed, or `None`.
fn load_held(alloc: Global, gpu: &mut Psxgpu, bytes: &[u8]) -> Option<Refusal>
    ensures { LoadsHeld gpu.old.held.value gpu.new.held.value bytes.now result }
{
    match gpu.take(alloc) {
        Some(mut rig) => {
            let why = load(alloc, &mut rig, bytes);
            gpu.put(rig);
            why
        }
        None => Some(Refusal::Closed),
    }
}

// Returns the details of a refusal, or of success.
fn told_by(why: Option<Refusal>) -> Ended
    ensures { result ≡ told_by why }
{
    match why {
        None => numbers(0, 0, 0, 0),
        Some(why) => of_refusal(why),
    }
}
