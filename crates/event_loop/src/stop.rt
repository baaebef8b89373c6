// The loop ends and writes what is buffered.
ghost use Rattle.std.specs.Prelude.{◌≡◌, ◌≤◌, ◌⊎◌, [], ℕ, List};
ghost use Rattle.dev_io.specs.Device.{Rose};
ghost use Rattle.gathered_out.specs.Causes.{Causes};
ghost use Rattle.gathered_out.specs.Puts.{holding};
ghost use Rattle.gpu_capture.specs.Reader.{IsReadFault};
ghost use Rattle.gpu_capture.specs.declared.event.Event.{Event as SpecEvent};
ghost use Rattle.event_loop.specs.Closing.{ClosesFrom, EndsAfter, EndsReading, WritesBefore, closing_of};
ghost use Rattle.event_loop.specs.Ending.{MayReadFault, MayWriteFault, IsEnding};
ghost use Rattle.event_loop.specs.Halting.{MayLack};

use crate::ended::{Ended, Halt, closed, ended_by};
use crate::passage::Passage;
use dev_io::Sink;
use gathered_out::OutputBuffer;
use gpu_capture::Stop;

/// Ends at an event that is refused, or whose output is not complete. Flushes `buffered` first, unless a write has
/// failed already.
pub fn end_after<R: Copy, K: Sink>(
    halt: Halt<R>,
    buffered: &mut OutputBuffer,
    out: &mut K,
) -> Ended<R>
    ensures ends { EndsAfter halt buffered.old (K.held out.old) (K.held out.new) result }
    ensures known { IsEnding result × (MayReadFault result → ⊥) }
    ensures cause { MayWriteFault result → MayLack halt ⊎ Rose (K.faults out.old) (K.faults out.new) }
    ensures faults { K.faults out.old ≤ K.faults out.new }
{
    match halt {
        Halt::Lacks { event } => Ended::WriteFailed { event },
        Halt::Refuses { why } => match buffered.write(out) {
            Ok(()) => Ended::Refused { why },
            Err(event) => Ended::WriteFailed { event },
        },
    }
}

/// Ends at a stop of the reader. Flushes `buffered`, and then writes the output of the stop.
pub(crate) fn end_reading<P: Passage, K: Sink>(
    passage: &mut P,
    stop: Stop,
    buffered: &mut OutputBuffer,
    out: &mut K,
) -> Ended<P::Refusal>
    requires { P.ready passage.old buffered.old }
    ensures ends { (s : P.Start) (version : ℕ) (events : List SpecEvent) → P.stands passage.old s version events
        → EndsReading (closing_of (P.closing s version events stop)
        (P.refuses_stop s version events stop passage.new) (P.stands passage.new s version events)
        (P.closes s version events stop passage.new) (P.number s version events) stop)
        buffered.old (K.held out.old) (K.held out.new) result }
    ensures known { IsEnding result }
    ensures stopped { MayReadFault result → IsReadFault stop }
    ensures causes { Causes (MayWriteFault result) (K.faults out.old) (K.faults out.new) }
    ensures same { P.same passage.old passage.new }
{
    match buffered.write(out) {
        Ok(()) => close_at(passage, stop, buffered, out),
        Err(event) => Ended::WriteFailed { event },
    }
}

// Ends at a stop of the reader, with nothing buffered.
fn close_at<P: Passage, K: Sink>(
    passage: &mut P,
    stop: Stop,
    buffered: &mut OutputBuffer,
    out: &mut K,
) -> Ended<P::Refusal>
    requires none { buffered.old ≡ [] }
    requires ready { P.ready passage.old [] }
    ensures ends { (s : P.Start) (version : ℕ) (events : List SpecEvent) → P.stands passage.old s version events
        → ClosesFrom (closing_of (P.closing s version events stop)
        (P.refuses_stop s version events stop passage.new) (P.stands passage.new s version events)
        (P.closes s version events stop passage.new) (P.number s version events) stop)
        (K.held out.old) (K.held out.new) result }
    ensures known { IsEnding result }
    ensures stopped { MayReadFault result → IsReadFault stop }
    ensures causes { Causes (MayWriteFault result) (K.faults out.old) (K.faults out.new) }
    ensures same { P.same passage.old passage.new }
{
    let number = passage.next_number();
    match passage.close(stop, buffered, out) {
        Ok(()) => write_closing(closed(stop, number), buffered, out),
        Err(halt) => ended_by(halt),
    }
}

// Flushes `buffered` and returns `ending`, or the write failure.
fn write_closing<R: Copy, K: Sink>(
    ending: Ended<R>,
    buffered: &mut OutputBuffer,
    out: &mut K,
) -> Ended<R>
    requires known { IsEnding ending }
    requires wrote { MayWriteFault ending → ⊥ }
    ensures ends { WritesBefore ending buffered.old (K.held out.old) (K.held out.new) result }
    ensures known { IsEnding result }
    ensures stopped { MayReadFault result → MayReadFault ending }
    ensures causes { Causes (MayWriteFault result) (K.faults out.old) (K.faults out.new) }
{
    match buffered.write(out) {
        Ok(()) => ending,
        Err(event) => Ended::WriteFailed { event },
    }
}
