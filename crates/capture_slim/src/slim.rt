// Processes each event of a capture, and its end.
ghost use Rattle.std.specs.Prelude.{◌≡◌, ◌≤◌, ◌<◌, ◌+◌, ◌++◌, ◌∷◌, [], ◌^◌, ◌↔◌, IsTrue, List, ℕ, Option, length};
ghost use Rattle.std.specs.Prelude.{IfErr, MatchResult, OnOk};
ghost use Rattle.gathered_out.specs.Causes.{Causes};
ghost use Rattle.gpu_capture.specs.Capture.{IsVersion};
ghost use Rattle.gpu_capture.specs.Draft.{IsOpen};
ghost use Rattle.gpu_capture.specs.Written.{HoldsWords};
ghost use Rattle.gpu_capture.specs.declared.event.Event.{Event as SpecEvent};
ghost use Rattle.gpu_capture.specs.Reader.{IsReadFault};
ghost use Rattle.event_play.specs.Ports.{IsAtPorts};
ghost use Rattle.capture_slim.specs.Came.{Came, ClosesFile, EndsEvent, EndsPushed, EndsRefused, EndsStop};
ghost use Rattle.capture_slim.specs.Came.{BuffersFrom, HasCount, StopsAs, and_event};
ghost use Rattle.capture_slim.specs.File.{AreFrom, LacksFrom};
ghost use Rattle.capture_slim.specs.Passing.{EndsWriting, MayReadFault, MayWriteFault, IsEnding, IsWriteEnding};
ghost use Rattle.capture_slim.specs.Passing.{Passed};
ghost use Rattle.capture_slim.specs.Window.{waiting};

use crate::ending::SlimEnding;
use crate::record::{add_record, write_last};
use crate::rest::write_rest;
use crate::waiting::Waiting;
use dev_io::Sink;
use gpu_capture::{CaptureFile, Draft, Event, Stop};

// Whether an event is one of the ports.
fn is_at_ports(event: &Event) -> bool
    ensures { IsTrue result ↔ IsAtPorts event.now }
{
    matches!(
        *event,
        Event::Gp0 { .. } | Event::Gp1 { .. } | Event::Read | Event::Skip | Event::Stat
    )
}

// Shows to the prover that the values of a port event are 32-bit words. Does nothing.
fn holds_words(event: Event)
    requires { IsAtPorts event }
    ensures { HoldsWords event }
{
    match event {
        Event::Gp0 { word } => {
            let _ = word;
        }
        Event::Gp1 { word } => {
            let _ = word;
        }
        _ => {}
    }
}

// Pushes a port event after `count` events. If that makes an event leave the window and it stays, buffers its record.
fn push_event<K: Sink>(
    window: &mut Waiting,
    event: Event,
    draft: &mut Draft,
    count: u64,
    out: &mut K,
) -> Result<(), SlimEnding>
    requires file { IsOpen draft.old.file }
    requires port { IsAtPorts event }
    requires count { HasCount window.old count }
    ensures ok { (passed : Passed) → Came passed window.old draft.old count (K.held out.old)
        → OnOk result (Came (and_event passed event) window.new draft.new (count + 1) (K.held out.new)) }
    ensures room { OnOk result (IsOpen draft.new.file) }
    ensures ends { (passed : Passed) → Came passed window.old draft.old count (K.held out.old)
        → IfErr result (EndsPushed (and_event passed event) (K.held out.new)) }
    ensures late { (passed : Passed) (least : ℕ) → Came passed window.old draft.old count (K.held out.old)
        → BuffersFrom least window.old draft.old count
        → MatchResult result (λ _. AreFrom least draft.new.buffered) (LacksFrom least) }
    ensures writing { EndsWriting (K.faults out.old) (K.faults out.new) result }
{
    holds_words(event);
    match window.push(event) {
        None => Ok(()),
        Some(left) => {
            let number = count + 1 - window.len() as u64;
            add_record(draft, number, &left, out)
        }
    }
}

// Ends after `count` events at an event that is not at the ports. Writes the waiting events as if none followed.
fn refuse<K: Sink>(window: &mut Waiting, draft: &mut Draft, count: u64, out: &mut K) -> SlimEnding
    requires file { IsOpen draft.old.file }
    requires count { HasCount window.old count }
    ensures ends { (passed : Passed) → Came passed window.old draft.old count (K.held out.old)
        → EndsRefused passed (K.held out.new) result }
    ensures late { (least : ℕ) → BuffersFrom least window.old draft.old count → LacksFrom least result }
    ensures known { IsWriteEnding result }
    ensures causes { Causes (MayWriteFault result) (K.faults out.old) (K.faults out.new) }
{
    match write_rest(window, draft, count, out) {
        Ok(()) => SlimEnding::NotFlat { event: count + 1 },
        Err(ending) => ending,
    }
}

/// Processes any event after `count` events: pushes a port event, and returns the ending at any other.
pub(crate) fn take_event<K: Sink>(
    window: &mut Waiting,
    event: Event,
    draft: &mut Draft,
    count: u64,
    out: &mut K,
) -> Result<(), SlimEnding>
    requires file { IsOpen draft.old.file }
    requires count { HasCount window.old count }
    ensures ok { (passed : Passed) → Came passed window.old draft.old count (K.held out.old)
        → OnOk result (Came (and_event passed event) window.new draft.new (count + 1) (K.held out.new)) }
    ensures room { OnOk result (IsOpen draft.new.file) }
    ensures ends { (passed : Passed) → Came passed window.old draft.old count (K.held out.old)
        → IfErr result (EndsEvent passed event (K.held out.new)) }
    ensures late { (passed : Passed) (least : ℕ) → Came passed window.old draft.old count (K.held out.old)
        → BuffersFrom least window.old draft.old count
        → MatchResult result (λ _. AreFrom least draft.new.buffered) (LacksFrom least) }
    ensures writing { EndsWriting (K.faults out.old) (K.faults out.new) result }
{
    if is_at_ports(&event) {
        push_event(window, event, draft, count, out)
    } else {
        Err(refuse(window, draft, count, out))
    }
}

/// Writes the waiting events after `count` events, and End if `stop` is End. Returns the ending.
pub(crate) fn finish<K: Sink>(
    window: &mut Waiting,
    stop: Stop,
    draft: &mut Draft,
    count: u64,
    out: &mut K,
) -> SlimEnding
    requires file { IsOpen draft.old.file }
    requires count { HasCount window.old count }
    ensures ends { (passed : Passed) → Came passed window.old draft.old count (K.held out.old)
        → EndsStop passed stop (K.held out.new) result }
    ensures late { (least : ℕ) → BuffersFrom least window.old draft.old count → LacksFrom least result }
    ensures known { IsEnding result }
    ensures read { MayReadFault result → IsReadFault stop }
    ensures causes { Causes (MayWriteFault result) (K.faults out.old) (K.faults out.new) }
{
    match write_rest(window, draft, count, out) {
        Ok(()) => close_file(draft.file, stop, count + 1, out),
        Err(ending) => ending,
    }
}

// Writes the End record if `stop` is End. `number`: the number of events plus 1.
fn close_file<K: Sink>(file: CaptureFile, stop: Stop, number: u64, out: &mut K) -> SlimEnding
    requires { IsVersion file.version }
    ensures ends { StopsAs stop number result }
    ensures writes { ClosesFile file (K.held out.old) (K.held out.new) result }
    ensures known { IsEnding result }
    ensures read { MayReadFault result → IsReadFault stop }
    ensures causes { Causes (MayWriteFault result) (K.faults out.old) (K.faults out.new) }
{
    match stop {
        Stop::End => match write_last(out, file) {
            Ok(()) => SlimEnding::Done,
            Err(_) => SlimEnding::WriteFailed { event: number },
        },
        _ => SlimEnding::Stopped {
            event: number,
            stop,
        },
    }
}
