// Plays bytes of a caller.
ghost use Rattle.std.specs.Prelude.{◌≡◌, ◌<◌, ◌↔◌, IfSome, IsTrue, map};
ghost use Rattle.std.specs.Option.{MatchOption};
ghost use Rattle.dev_io.specs.Device.{side};
ghost use Rattle.event_play.specs.Causes.{MayWriteFault};
ghost use Rattle.gpu_snapshot.specs.PlayAny.{AnyMayWriteFault};
ghost use Rattle.psxgpu_c.specs.Whole.{IsCounted, Keeps, PlaysInto, PlaysSink, at_end, new_taps};

use crate::count_sink::CountSink;
use crate::ended::Ended;
use crate::front::put_all;
use crate::growing_sink::GrowingSink;
use crate::output::Output;
use crate::room_sink::RoomSink;
use crate::slice_source::SliceSource;
use crate::whole::at_end;
use dev_io::Sink;
use event_play::{Ending, Mode, Rig};
use gpu_snapshot::{AnyEnding, play_any};
use gpu_taps::{Counts, Cover, Listener, Tap, Trace};
use std::alloc::Global;
use std::marker::Brand;
use std::sync::ledger::{Blank, Ledger};
use vram_store::Steps;

/// Plays a capture or a snapshot with a new machine and writes the output to the start of `out`. Returns `None` if
/// memory runs out before; then nothing is written.
pub(crate) fn play_over(alloc: Global, mode: Mode, capture: &[u8], out: &mut [u8]) -> Option<Ended>
    ensures { MatchOption result (out.new ≡ out.old) (λ told.
        PlaysInto mode capture.now out.old out.new told) }
{
    let Ok(mut sink) = RoomSink::new(alloc, out.len()) else {
        return None;
    };
    let Some(end) = play_to(alloc, mode, capture, &mut sink) else {
        return None;
    };
    let bytes = sink.bytes();
    put_all(out, bytes);
    Some(told(end, bytes.len()))
}

/// Plays in the same way and counts the bytes of the output. Returns `None` if memory runs out.
pub(crate) fn play_counted(alloc: Global, mode: Mode, capture: &[u8]) -> Option<Ended>
    ensures { IfSome result (λ told. IsCounted mode capture.now told) }
{
    let mut sink = CountSink::new();
    let Some(end) = play_to(alloc, mode, capture, &mut sink) else {
        return None;
    };
    Some(told(end, sink.count()))
}

/// Plays in the same way and returns the output in memory of its own. Returns `None` if memory runs out.
pub(crate) fn play_kept(alloc: Global, mode: Mode, capture: &[u8]) -> Option<(Output, Ended)>
    ensures { IfSome result (λ kept. Keeps mode capture.now kept.0 kept.1) }
{
    let mut sink = GrowingSink::new(alloc);
    let Some(end) = play_to(alloc, mode, capture, &mut sink) else {
        return None;
    };
    if write_failed(end) {
        return None;
    }
    let output = sink.into_output();
    let written = output.len();
    Some((output, told(end, written)))
}

// Plays in the same way to any sink. Returns `None` if memory runs out before.
fn play_to<K: Sink>(alloc: Global, mode: Mode, capture: &[u8], out: &mut K) -> Option<AnyEnding>
    ensures { IfSome result (λ end. PlaysSink mode new_taps capture.now (side K.held K.faults out.old)
        (side K.held K.faults out.new) end) }
{
    play_report::<K, Brand>(alloc, mode, capture, out, Blank::new(1))
}

// Does the same with the taps of `report`. The count of steps is dropped.
fn play_report<K: Sink, L: Ledger>(
    alloc: Global,
    mode: Mode,
    capture: &[u8],
    out: &mut K,
    blank: Blank,
) -> Option<AnyEnding>
    requires name { blank.name ≡ L.name }
    requires parts { blank.parts ≡ L.parts }
    requires some { 0 < blank.parts }
    ensures { IfSome result (λ end. PlaysSink mode new_taps capture.now (side K.held K.faults out.old)
        (side K.held K.faults out.new) end) }
{
    let mut steps = Steps::<L>::new(blank);
    let Ok(trace) = Trace::new(alloc) else {
        return None;
    };
    let Ok(first) = Box::new(alloc, Counts::new()) else {
        return None;
    };
    let Ok(second) = Box::new(alloc, trace) else {
        return None;
    };
    let Ok(third) = Box::new(alloc, Cover::new()) else {
        return None;
    };
    let mut taps: Vec<Box<dyn Tap>> = Vec::new(alloc);
    let Ok(()) = taps.push(first) else {
        return None;
    };
    let Ok(()) = taps.push(second) else {
        return None;
    };
    let Ok(()) = taps.push(third) else {
        return None;
    };
    play_with(alloc, mode, capture, out, &mut taps, &mut steps)
}

// Does the same with any taps.
fn play_with<K: Sink, T: Listener, L: Ledger>(
    alloc: Global,
    mode: Mode,
    capture: &[u8],
    out: &mut K,
    taps: &mut Vec<T>,
    steps: &mut Steps<L>,
) -> Option<AnyEnding>
    ensures { IfSome result (λ end. PlaysSink mode (map T.heard taps.old.items) capture.now
        (side K.held K.faults out.old) (side K.held K.faults out.new) end) }
{
    let Ok(rig) = Rig::new(alloc) else {
        return None;
    };
    let mut source = SliceSource::new(capture);
    let end = play_any(rig, &mut source, out, mode, taps, steps);
    Some(end)
}

// Whether playing ended at a failed write.
fn write_failed(end: AnyEnding) -> bool
    ensures { IsTrue result ↔ AnyMayWriteFault end }
{
    match end {
        AnyEnding::Played { ending } => is_write_failed(ending),
        AnyEnding::BadSnapshot { .. } => false,
    }
}

fn is_write_failed(ending: Ending) -> bool
    ensures { IsTrue result ↔ MayWriteFault ending }
{
    match ending {
        Ending::WriteFailed { .. } => true,
        Ending::Done | Ending::Stopped { .. } | Ending::Faulted { .. } | Ending::NoPicture { .. } =>
            false,
    }
}

// Returns the details of the ending, with the number of bytes written.
fn told(end: AnyEnding, written: usize) -> Ended
    ensures { result ≡ record (at_end end) { written = written } }
{
    let ended = at_end(end);
    Ended {
        written,
        event: ended.event,
        place: ended.place,
        word: ended.word,
        code: ended.code,
    }
}
