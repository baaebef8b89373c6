// Creates, resets and frees a machine.
ghost use Rattle.std.specs.Prelude.{◌≡◌, None};
ghost use Rattle.psxgpu_c.specs.Calls.{Begins, Changes, Grows, Makes};

use crate::ended::code_for;
use crate::handle::Psxgpu;
use crate::refusal::Refusal;
use event_play::Rig;
use std::alloc::Global;

/// Creates a machine in its first state. If there is one already, returns the code of `Open`; if memory runs out, that
/// of `NoMemory`.
#[unsafe(no_mangle)]
pub extern "C" fn psxgpu_new(alloc: Global, gpu: &mut Psxgpu) -> u32
    ensures { Makes gpu.old.held.value gpu.new.held.value result }
{
    match gpu.take(alloc) {
        Some(rig) => {
            gpu.put(rig);
            code_for(Refusal::Open)
        }
        None => make(alloc, gpu),
    }
}

// Creates a machine in an empty handle.
fn make(alloc: Global, gpu: &mut Psxgpu) -> u32
    requires { gpu.old.held.value ≡ None }
    ensures { Makes None gpu.new.held.value result }
{
    let Ok(rig) = Rig::new(alloc) else {
        return code_for(Refusal::NoMemory);
    };
    let Ok(boxed) = Box::new(alloc, rig) else {
        return code_for(Refusal::NoMemory);
    };
    gpu.put(boxed);
    0
}

/// Frees the machine, if there is one. The handle is then empty.
#[unsafe(no_mangle)]
pub extern "C" fn psxgpu_free(alloc: Global, gpu: &mut Psxgpu)
    ensures { gpu.new.held.value ≡ None }
{
    drop(gpu.take(alloc));
}

/// Resets the machine to its first state, with no event played. If memory runs out, leaves it and returns the code of
/// `NoMemory`.
#[unsafe(no_mangle)]
pub extern "C" fn psxgpu_clear(alloc: Global, gpu: &mut Psxgpu) -> u32
    ensures { Changes gpu.old.held.value gpu.new.held.value result Begins }
{
    match gpu.take(alloc) {
        Some(mut rig) => {
            let code = begin(alloc, &mut rig);
            gpu.put(rig);
            code
        }
        None => code_for(Refusal::Closed),
    }
}

// Replaces the machine by a new one.
fn begin(alloc: Global, rig: &mut Rig) -> u32
    ensures { Begins rig.old rig.new result }
{
    match Rig::new(alloc) {
        Ok(first) => {
            *rig = first;
            0
        }
        Err(_) => code_for(Refusal::NoMemory),
    }
}

/// Extends video memory to 1024 rows; the new rows are 0. Does nothing if it has them already. No event.
#[unsafe(no_mangle)]
pub extern "C" fn psxgpu_set_tall(alloc: Global, gpu: &mut Psxgpu) -> u32
    ensures { Changes gpu.old.held.value gpu.new.held.value result Grows }
{
    match gpu.take(alloc) {
        Some(mut rig) => {
            rig.set_tall();
            gpu.put(rig);
            0
        }
        None => code_for(Refusal::Closed),
    }
}
