// Writes the waiting events at the end of reading.
ghost use Rattle.std.specs.Prelude.{◌≡◌, ◌≤◌, ◌+◌, ◌++◌, ◌^◌, List, ℕ, Option, drop, take, length, IfErr, OnOk};
ghost use Rattle.std.specs.Prelude.{MatchResult};
ghost use Rattle.gpu_capture.specs.declared.event.Event.{Event as SpecEvent};
ghost use Rattle.gpu_capture.specs.Draft.{IsOpen};
ghost use Rattle.capture_slim.specs.Came.{BuffersFrom};
ghost use Rattle.capture_slim.specs.File.{AreFrom, FailsFirst, FailsRest, IsDraft, IsFile, LacksFrom};
ghost use Rattle.capture_slim.specs.File.{output_of};
ghost use Rattle.capture_slim.specs.Passing.{EndsWriting};
ghost use Rattle.capture_slim.specs.Places.{kept_of};
ghost use Rattle.capture_slim.specs.Stream.{first_left};
ghost use Rattle.capture_slim.specs.Window.{all_left, waiting};

use crate::ending::SlimEnding;
use crate::record::add_record;
use crate::waiting::Waiting;
use dev_io::Sink;
use gpu_capture::Draft;

// Removes the first waiting event, which has number `number`, and buffers its record unless it was dropped.
fn add_next<K: Sink>(
    window: &mut Waiting,
    draft: &mut Draft,
    number: u64,
    out: &mut K,
) -> Result<(), SlimEnding>
    requires file { IsOpen draft.old.file }
    ensures window { window.new ≡ record window.old { slots = drop 1 window.old.slots } }
    ensures ok { (base : Option (List ℕ)) (outs : List (Option SpecEvent))
        → IsDraft draft.old base (K.held out.old) outs
        → number ≡ length outs + 1
        → OnOk result (IsDraft draft.new base (K.held out.new) (outs ++ all_left (take 1 window.old.slots))) }
    ensures ends { (base : Option (List ℕ)) (outs : List (Option SpecEvent))
        → IsDraft draft.old base (K.held out.old) outs
        → number ≡ length outs + 1 → IfErr result
        (FailsFirst (output_of draft.old base (K.held out.new)) outs (first_left window.old.slots)) }
    ensures late { (least : ℕ) → AreFrom least draft.old.buffered → least ≤ number
        → MatchResult result (λ _. AreFrom least draft.new.buffered) (LacksFrom least) }
    ensures few { OnOk result (draft.new.file.size + 4 ≤ 2 ^ 30) }
    ensures version { draft.new.file.version ≡ draft.old.file.version }
    ensures writing { EndsWriting (K.faults out.old) (K.faults out.new) result }
{
    match window.pop() {
        None => Ok(()),
        Some(event) => add_record(draft, number, &event, out),
    }
}

// Buffers the records of all waiting events that stay when no event follows. `count`: the number of events read.
fn add_rest<K: Sink>(
    window: &mut Waiting,
    draft: &mut Draft,
    count: u64,
    out: &mut K,
) -> Result<(), SlimEnding>
    requires file { IsOpen draft.old.file }
    requires few { length (waiting window.old) ≤ count }
    ensures ok { (base : Option (List ℕ)) (outs : List (Option SpecEvent))
        → IsDraft draft.old base (K.held out.old) outs
        → count ≡ length outs + length (waiting window.old)
        → OnOk result (IsDraft draft.new base (K.held out.new) (outs ++ all_left (waiting window.old))) }
    ensures ends { (base : Option (List ℕ)) (outs : List (Option SpecEvent))
        → IsDraft draft.old base (K.held out.old) outs
        → count ≡ length outs + length (waiting window.old) → IfErr result
        (FailsRest (output_of draft.old base (K.held out.new)) outs (all_left (waiting window.old))) }
    ensures late { (least : ℕ) → BuffersFrom least window.old draft.old count
        → MatchResult result (λ _. AreFrom least draft.new.buffered) (LacksFrom least) }
    ensures most { length (waiting window.old) ≤ 4096 }
    ensures version { draft.new.file.version ≡ draft.old.file.version }
    ensures writing { EndsWriting (K.faults out.old) (K.faults out.new) result }
{
    window.close();
    let left = window.len();
    let gone = count - left as u64;
    'slots: for i in 0..left {
        match add_next(window, draft, gone + i as u64 + 1, out) {
            Ok(()) => {}
            Err(ending) => return Err(ending),
        }
    }
    Ok(())
}

/// Writes the buffer and the records of all waiting events that stay when no event follows. `count`: the number of
/// events read. Requires room for an End record.
pub(crate) fn write_rest<K: Sink>(
    window: &mut Waiting,
    draft: &mut Draft,
    count: u64,
    out: &mut K,
) -> Result<(), SlimEnding>
    requires file { IsOpen draft.old.file }
    requires few { length (waiting window.old) ≤ count }
    ensures ok { (base : Option (List ℕ)) (outs : List (Option SpecEvent))
        → IsDraft draft.old base (K.held out.old) outs
        → count ≡ length outs + length (waiting window.old) → OnOk result
        (IsFile draft.new.file base (K.held out.new) (kept_of (outs ++ all_left (waiting window.old)))) }
    ensures ends { (base : Option (List ℕ)) (outs : List (Option SpecEvent))
        → IsDraft draft.old base (K.held out.old) outs
        → count ≡ length outs + length (waiting window.old) → IfErr result
        (FailsRest (output_of draft.old base (K.held out.new)) outs (all_left (waiting window.old))) }
    ensures late { (least : ℕ) → BuffersFrom least window.old draft.old count → IfErr result (LacksFrom least) }
    ensures most { length (waiting window.old) ≤ 4096 }
    ensures version { draft.new.file.version ≡ draft.old.file.version }
    ensures writing { EndsWriting (K.faults out.old) (K.faults out.new) result }
{
    match add_rest(window, draft, count, out) {
        Ok(()) => write_buffered(draft, out),
        Err(ending) => Err(ending),
    }
}

// Flushes the buffer.
fn write_buffered<K: Sink>(draft: &mut Draft, out: &mut K) -> Result<(), SlimEnding>
    ensures ok { (base : Option (List ℕ)) (outs : List (Option SpecEvent))
        → IsDraft draft.old base (K.held out.old) outs
        → OnOk result (IsFile draft.new.file base (K.held out.new) (kept_of outs)) }
    ensures ends { (base : Option (List ℕ)) (outs last : List (Option SpecEvent))
        → IsDraft draft.old base (K.held out.old) (outs ++ last)
        → IfErr result (FailsRest (output_of draft.old base (K.held out.new)) outs last) }
    ensures late { (least : ℕ) → AreFrom least draft.old.buffered → IfErr result (LacksFrom least) }
    ensures version { draft.new.file.version ≡ draft.old.file.version }
    ensures writing { EndsWriting (K.faults out.old) (K.faults out.new) result }
{
    match draft.buffered.write(out) {
        Ok(()) => Ok(()),
        Err(event) => Err(SlimEnding::WriteFailed { event }),
    }
}
