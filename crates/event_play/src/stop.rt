// Ends playing when the reader stops.
ghost use Rattle.std.specs.Prelude.{◌≡◌, map};
ghost use Rattle.gathered_out.specs.Causes.{Causes};
ghost use Rattle.gpu_capture.specs.Reader.{IsReadFault};
ghost use Rattle.gpu_core.specs.Kept.{kept_of};
ghost use Rattle.gpu_core.specs.Machine.{State};
ghost use Rattle.event_play.specs.Causes.{MayReadFault, MayWriteFault, IsEnding};
ghost use Rattle.event_play.specs.Ends.{EndsAt, EndsReading, final_output};
ghost use Rattle.event_play.specs.Replay.{next_number};
ghost use Rattle.event_play.specs.Streams.{buffering, outlets};
ghost use Rattle.event_play.specs.Feeding.{AreSameLines};

use crate::ending::{Ending, Mode};
use crate::finals::lacks_picture;
use crate::outlet::Lines;
use crate::rig::Rig;
use dev_io::Sink;
use gpu_capture::Stop;
use gpu_taps::Listener;
use std::sync::ledger::Ledger;
use vram_store::Steps;

impl Rig {
    /// Flushes the buffer, then ends playing at a stop of the reader. If the stop is `End`, writes the final output.
    pub(crate) fn end_reading<K: Sink, T: Listener, L: Ledger>(
        &self,
        stop: Stop,
        lines: &mut Lines<K>,
        taps: &Vec<T>,
        steps: &mut Steps<L>,
    ) -> Ending
        ensures ends { (s : State) → kept_of s ≡ self.now.gpu →
            EndsReading (final_output lines.old.mode s (next_number self.now.played)) stop
            (buffering lines.old.buffered.now (outlets (K.held lines.old.out.now) (K.faults lines.old.out.now)
            (map T.heard taps.now.items) steps.old))
            (outlets (K.held lines.new.out.now) (K.faults lines.new.out.now)
            (map T.heard taps.now.items) steps.new) result }
        ensures known { IsEnding result }
        ensures stopped { MayReadFault result → IsReadFault stop }
        ensures causes { Causes (MayWriteFault result)
            (K.faults lines.old.out.now) (K.faults lines.new.out.now) }
        ensures same { AreSameLines lines.old lines.new }
    {
        match lines.buffered.write(lines.out) {
            Ok(()) => match stop {
                Stop::End => self.finish(lines.out, lines.mode, taps, steps),
                _ => Ending::Stopped {
                    event: self.next_number(),
                    stop,
                },
            },
            Err(event) => Ending::WriteFailed { event },
        }
    }

    // Ends playing at End with an empty buffer: writes the final output, unless the mode lacks its picture.
    fn finish<K: Sink, T: Listener, L: Ledger>(
        &self,
        out: &mut K,
        mode: Mode,
        taps: &Vec<T>,
        steps: &mut Steps<L>,
    ) -> Ending
        ensures ends { (s : State) → kept_of s ≡ self.now.gpu →
            EndsAt (final_output mode s (next_number self.now.played)) Stop.End
            (outlets (K.held out.old) (K.faults out.old) (map T.heard taps.now.items) steps.old)
            (outlets (K.held out.new) (K.faults out.new) (map T.heard taps.now.items) steps.new) result }
        ensures known { IsEnding result }
        ensures unread { MayReadFault result → ⊥ }
        ensures causes { Causes (MayWriteFault result) (K.faults out.old) (K.faults out.new) }
    {
        let event = self.next_number();
        if lacks_picture(&self.gpu, mode) {
            return Ending::NoPicture { event };
        }
        match self.write_finals(out, mode, taps, steps) {
            Ok(()) => Ending::Done,
            Err(_) => Ending::WriteFailed { event },
        }
    }
}
