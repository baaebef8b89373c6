// Writes a machine as a snapshot in memory, and reads one.
ghost use Rattle.std.specs.Prelude.{◌≡◌, ◌<◌, OnOk, length};
ghost use Rattle.dev_io.specs.Device.{Writes, side};
ghost use Rattle.psxgpu_c.specs.Saved.{Loads, Saves, saved};
ghost use Rattle.snapshot_words.specs.Outline.{AreCells};

use crate::front::put_all;
use crate::refusal::Refusal;
use crate::room_sink::RoomSink;
use crate::slice_source::SliceSource;
use capture_cut::{keep_bounds, state_size, write_state};
use dev_io::{Failed, Sink};
use event_play::Rig;
use gpu_capture::write_end;
use gpu_snapshot::open;
use std::alloc::Global;
use std::marker::Brand;
use std::sync::ledger::{Blank, Ledger};
use vram_store::Steps;

/// The maximum number of events that a snapshot counts.
const MOST_EVENTS: u64 = 0x7fff_ffff_ffff_ffff;

/// The size in bytes of an End record.
const END_SIZE: usize = 4;

/// Writes a snapshot of a machine to the start of `out`, with no record after its state. Returns its size in bytes.
pub(crate) fn put_saved(alloc: Global, rig: &Rig, out: &mut [u8]) -> Result<usize, Refusal>
    ensures { Saves rig.now out.old out.new result }
{
    put_snapshot::<Brand>(alloc, rig, out, Blank::new(1))
}

fn put_snapshot<L: Ledger>(
    alloc: Global,
    rig: &Rig,
    out: &mut [u8],
    blank: Blank,
) -> Result<usize, Refusal>
    requires name { blank.name ≡ L.name }
    requires parts { blank.parts ≡ L.parts }
    requires some { 0 < blank.parts }
    ensures { Saves rig.now out.old out.new result }
{
    if rig.played() > MOST_EVENTS {
        return Err(Refusal::TooManyEvents);
    }
    let size = saved_size(rig);
    if size > out.len() {
        return Err(Refusal::NoRoom);
    }
    let mut steps = Steps::<L>::new(blank);
    let Ok(mut sink) = RoomSink::new(alloc, size) else {
        return Err(Refusal::NoMemory);
    };
    let result = write_saved(rig, &mut sink, &mut steps);
    let bytes = sink.bytes();
    let Ok(()) = result else { unreachable!() };
    keep_bounds(rig);
    put_all(out, bytes);
    Ok(size)
}

// Returns the size in bytes of the snapshot of a machine.
fn saved_size(rig: &Rig) -> usize
    ensures { result ≡ length (saved rig.now) }
{
    state_size(rig) as usize + END_SIZE
}

// Writes the snapshot of a machine.
fn write_saved<K: Sink, L: Ledger>(
    rig: &Rig,
    out: &mut K,
    steps: &mut Steps<L>,
) -> Result<(), Failed>
    ensures writes { Writes (side K.held K.faults) out.old out.new (saved rig.now) result }
    ensures cells { OnOk result (AreCells rig.now.gpu.parts.m) }
{
    write_state(rig, out, steps)?;
    write_end(out)
}

/// Replaces a machine by the state of a snapshot, or by the first state of a capture. Returns why it failed, or `None`.
pub(crate) fn load(alloc: Global, rig: &mut Rig, bytes: &[u8]) -> Option<Refusal>
    ensures { Loads bytes.now rig.old rig.new result }
{
    open_over::<Brand>(alloc, rig, bytes, Blank::new(1))
}

fn open_over<L: Ledger>(alloc: Global, rig: &mut Rig, bytes: &[u8], blank: Blank) -> Option<Refusal>
    requires name { blank.name ≡ L.name }
    requires parts { blank.parts ≡ L.parts }
    requires some { 0 < blank.parts }
    ensures { Loads bytes.now rig.old rig.new result }
{
    let mut steps = Steps::<L>::new(blank);
    let Ok(first) = Rig::new(alloc) else {
        return Some(Refusal::NoMemory);
    };
    let mut source = SliceSource::new(bytes);
    match open(first, &mut source, &mut steps) {
        Ok((opened, _)) => {
            *rig = opened;
            None
        }
        Err(fault) => Some(Refusal::Unopened { fault }),
    }
}
