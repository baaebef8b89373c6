// A minimal passage: it copies the records of a capture.
ghost use Rattle.std.specs.Prelude.{◌≡◌};
ghost use Rattle.event_loop.specs.Ending.{held_at};
ghost use Rattle.gpu_capture.specs.Written.{spelled_end};
ghost use Rattle.crate_tests.specs.Copies.{EndsCopy};

use dev_io::{Sink, Source};
use event_loop::{Ended, Halt, Passage, pass_all};
use gathered_out::OutputBuffer;
use gpu_capture::{Event, EventReader, Stop, record_bytes};

// Copies the records of at most `limit` events. `count` is the number of events so far.
#[derive(Drop)]
struct Copying<'a> {
    limit: u32,
    count: &'a mut u32,
}

// Returns an End record.
#[tactic(auto, unfolding(gpu_capture::specs::Written::word_bytes))]
fn end_record() -> [u8; 4]
    ensures { result ≡ spelled_end }
{
    0u32.to_le_bytes()
}

impl<'a> Passage for Copying<'a> {
    ghost use Rattle.std.specs.Prelude.{refl, ℕ};
    ghost use Rattle.std.proofs.Common.{◌∙◌};
    ghost use Rattle.crate_tests.specs.Copies.{IsCounted, copy_closing, copy_due, next_number};
    ghost use Rattle.event_loop.specs.Pausing.{most_after};

    type Refusal = u64;

    ghost Start = { ℕ };

    ghost begins = { λ x limit. x.limit ≡ limit };

    ghost stands = { λ x limit _ events. (x.limit ≡ limit) × IsCounted limit events x.count.now };

    ghost closes = { λ limit _ events _ x. IsCounted limit events x.count.now };

    ghost breaks = { λ limit _ events x. IsCounted limit events x.count.now };

    ghost number = { λ _ _. next_number };

    ghost due = { λ _ _. copy_due };

    ghost knows = { λ _ _ _ _. Unit {0} };

    ghost closing = { λ _ _. copy_closing };

    ghost refuses = { λ limit _ events _ x why. IsCounted limit events x.count.now × (x.count.now ≡ limit)
        × (why ≡ next_number events) };

    ghost refuses_stop = { λ _ _ _ _ _ _. ⊥ };

    ghost most = { λ _ _ _ _. most_after };

    ghost ready = { λ _ _. Unit {0} };

    ghost may_take = { λ _ n. n ≡ 0 };

    ghost same = { λ x y. x.count.ghost_name ≡ y.count.ghost_name };

    fn begin(&mut self, version: u8) {
        let _ = version;
        *self.count = 0;
    }

    fn take<K: Sink>(
        &mut self,
        event: &Event,
        buffered: &mut OutputBuffer,
        out: &mut K,
    ) -> Result<(), Halt<u64>> {
        let number = self.next_number();
        if *self.count >= self.limit {
            return Err(Halt::Refuses { why: number });
        }
        *self.count += 1;
        match buffered.put(number, record_bytes(event).as_slice(), out) {
            Ok(()) => Ok(()),
            Err(event) => Err(Halt::Lacks { event }),
        }
    }

    fn most_words(&self, at_hand: usize) -> usize {
        let _ = at_hand;
        0
    }

    fn take_words<K: Sink>(
        &mut self,
        words: &[u32],
        buffered: &mut OutputBuffer,
        out: &mut K,
    ) -> Result<(), u64> {
        Ok(())
    }

    fn close<K: Sink>(
        &mut self,
        stop: Stop,
        buffered: &mut OutputBuffer,
        out: &mut K,
    ) -> Result<(), Halt<u64>> {
        match buffered.put(self.next_number(), &end_record(), out) {
            Ok(()) => Ok(()),
            Err(event) => Err(Halt::Lacks { event }),
        }
    }

    fn next_number(&self) -> u64 {
        *self.count as u64 + 1
    }

    ghost same_at_first = { λ x. refl };

    ghost same_on = { λ x y z first then. first ∙ then };

    ghost ready_after = { λ x pieces ready. ready };
}

/// Writes the records of the events of `source` to `out`, each with count 1, and an End record at any stop. Refuses the
/// event after the first `limit` ones. Sets `count` to the number of accepted events.
pub(crate) fn copy_records<S: Source, K: Sink>(
    source: &mut S,
    out: &mut K,
    limit: u32,
    count: &mut u32,
) -> Ended<u64>
    ensures { EndsCopy (S.left source.old) (S.left source.new) limit count.new
        (held_at (K.held out.old) (K.held out.new)) result }
{
    copy_all(&mut Copying { limit, count }, source, out)
}

// Does the same, with the limit and the count in `copying`.
fn copy_all<S: Source, K: Sink>(copying: &mut Copying, source: &mut S, out: &mut K) -> Ended<u64>
    ensures ends { EndsCopy (S.left source.old) (S.left source.new) copying.old.limit copying.new.count.now
        (held_at (K.held out.old) (K.held out.new)) result }
    ensures same { copying.new.count.ghost_name ≡ copying.old.count.ghost_name }
{
    pass_all(copying, &mut EventReader::new(), source, out)
}
