// What happens at the events of a source.
ghost use Rattle.std.specs.Prelude.{◌≡◌, ◌≤◌, ◌⊎◌, ℕ, List, [], ◌∷◌, ◌++◌, OnOk, IfErr, length};
ghost use Rattle.gathered_out.specs.Causes.{Causes, Fails};
ghost use Rattle.gathered_out.specs.Pieces.{Piece};
ghost use Rattle.gathered_out.specs.Puts.{holding};
ghost use Rattle.gpu_capture.specs.Record.{IsEvent};
ghost use Rattle.gpu_capture.specs.declared.event.Event.{Event as SpecEvent};
ghost use Rattle.gpu_capture.specs.declared.event.Stop.{Stop as SpecStop};
ghost use Rattle.gpu_capture.specs.Words.{word_events};
ghost use Rattle.event_loop.specs.Due.{pieces_after};
ghost use Rattle.event_loop.specs.Puts.{ArePut, BreakPut};
ghost use Rattle.event_loop.specs.Halting.{Halts, FailsWriting};
ghost use Rattle.event_loop.specs.Pausing.{KnowsEach, WaitsAfter, most_after};

use crate::ended::Halt;
use dev_io::Sink;
use gathered_out::OutputBuffer;
use gpu_capture::{Event, Stop};

/// A consumer of the events of a source: what it does at each event, and what output the event has.
///
/// Its start value, the version of the capture and the events so far determine all output. The ghost members say, in
/// this order: what it began from, its state, its output, its refusals, its limits, and its loans.
pub trait Passage {
    /// The reasons for which it refuses an event or a stop.
    type Refusal: Copy;

    // ---- what it began from

    /// The type of its start values.
    ghost Start: { Type 0 };

    /// It begins from this start value.
    ghost begins: { Self → Self.Start → Type 0 };

    // ---- its state

    /// It has taken these events of a capture of this version, and no other.
    ghost stands: { Self → Self.Start → ℕ → List SpecEvent → Type 0 };

    /// It has taken these events, and has put the output of this stop, completely or not. It has not refused the stop.
    ghost closes: { Self.Start → ℕ → List SpecEvent → SpecStop → Self → Type 0 };

    /// It has taken these events, and the output of the last one is not complete.
    ghost breaks: { Self.Start → ℕ → List SpecEvent → Self → Type 0 };

    // ---- its output

    /// The number of the event after these.
    ghost number: { Self.Start → ℕ → List SpecEvent → ℕ };

    /// The output of an event after these.
    ghost due: { Self.Start → ℕ → List SpecEvent → SpecEvent → List Piece };

    /// What else is known of an event after these, once it was accepted.
    ghost knows: { Self.Start → ℕ → List SpecEvent → SpecEvent → Type 0 };

    /// The output at a stop of the reader after these events.
    ghost closing: { Self.Start → ℕ → List SpecEvent → SpecStop → List Piece };

    // ---- its refusals

    /// It has refused an event after these, for this reason.
    ghost refuses: { Self.Start → ℕ → List SpecEvent → SpecEvent → Self → Self.Refusal → Type 0 };

    /// It has refused a stop of the reader after these events, for this reason.
    ghost refuses_stop: { Self.Start → ℕ → List SpecEvent → SpecStop → Self → Self.Refusal → Type 0 };

    // ---- its limits

    /// The most bytes that are read after an event before its output is written: 0, or 4,112 if it may be buffered.
    ghost most: { Self.Start → ℕ → List SpecEvent → SpecEvent → ℕ };

    /// Its own limits hold, and it accepts an event while this output is buffered.
    ghost ready: { Self → List Piece → Type 0 };

    /// It accepts this number of words at once.
    ghost may_take: { Self → ℕ → Type 0 };

    // ---- its loans

    /// It holds the same loans at both times.
    ghost same: { Self → Self → Type 0 };

    /// Begins a capture of this version, from 1 to 3. `version` is 0 if the source stopped before its first event.
    fn begin(&mut self, version: u8)
        requires { version ≤ 3 }
        ensures stands { (s : Self.Start) → begins self.old s → stands self.new s version [] }
        ensures ready { ready self.new [] }
        ensures same { same self.old self.new };

    /// Takes an event, and puts its output. If it refuses the event, it puts nothing.
    fn take<K: Sink>(
        &mut self,
        event: &Event,
        buffered: &mut OutputBuffer,
        out: &mut K,
    ) -> Result<(), Halt<Self::Refusal>>
        requires event { IsEvent event.now }
        requires ready { ready self.old buffered.old }
        ensures stands { (s : Self.Start) (version : ℕ) (events : List SpecEvent) → stands self.old s version events
            → OnOk result (stands self.new s version (events ++ event.now ∷ [])) }
        ensures put { (s : Self.Start) (version : ℕ) (events : List SpecEvent) → stands self.old s version events
            → OnOk result (ArePut (due s version events event.now)
            (holding (K.held out.old) buffered.old) (holding (K.held out.new) buffered.new)) }
        ensures near { (s : Self.Start) (version : ℕ) (events : List SpecEvent) → stands self.old s version events
            → OnOk result ((buffered.new ≡ []) ⊎ (most_after ≤ most s version events event.now)) }
        ensures knows { (s : Self.Start) (version : ℕ) (events : List SpecEvent) → stands self.old s version events
            → OnOk result (knows s version events event.now) }
        ensures ready { OnOk result (ready self.new buffered.new) }
        ensures halts { (s : Self.Start) (version : ℕ) (events : List SpecEvent) → stands self.old s version events
            → IfErr result (Halts (λ lacking. BreakPut (due s version events event.now)
            (holding (K.held out.old) buffered.old) (K.held out.new) lacking
            × breaks s version (events ++ event.now ∷ []) self.new × knows s version events event.now)
            (λ why. refuses s version events event.now self.new why
            × (buffered.new ≡ buffered.old) × (K.held out.new ≡ K.held out.old))) }
        ensures causes { Causes (FailsWriting result) (K.faults out.old) (K.faults out.new) }
        ensures same { same self.old self.new };

    /// Returns the most words of an open record that it takes at once. `at_hand` is how many the source has without
    /// waiting. The result is at most `at_hand`, unless it buffers no output at any time.
    fn most_words(&self, at_hand: usize) -> usize
        requires { ready self.now [] }
        ensures may { (n : ℕ) → n ≤ result → may_take self.now n }
        ensures waits { (result ≤ at_hand) ⊎ ((pieces : List Piece) → ready self.now pieces → pieces ≡ []) };

    /// Takes `words` as writes to GP0, one event per word, and puts their output. On failure it has taken all of them,
    /// and returns the first event whose output is incomplete.
    fn take_words<K: Sink>(
        &mut self,
        words: &[u32],
        buffered: &mut OutputBuffer,
        out: &mut K,
    ) -> Result<(), u64>
        requires may { may_take self.old (length words.now) }
        requires ready { ready self.old buffered.old }
        ensures stands { (s : Self.Start) (version : ℕ) (events : List SpecEvent) → stands self.old s version events
            → 1 ≤ length events → stands self.new s version (events ++ word_events words.now) }
        ensures put { (s : Self.Start) (version : ℕ) (events : List SpecEvent) → stands self.old s version events
            → 1 ≤ length events → OnOk result (ArePut (pieces_after (due s version) events (word_events words.now))
            (holding (K.held out.old) buffered.old) (holding (K.held out.new) buffered.new)) }
        ensures near { (s : Self.Start) (version : ℕ) (events : List SpecEvent) → stands self.old s version events
            → 1 ≤ length events → OnOk result ((buffered.new ≡ []) ⊎ WaitsAfter (most s version) events) }
        ensures knows { (s : Self.Start) (version : ℕ) (events : List SpecEvent) → stands self.old s version events
            → 1 ≤ length events → KnowsEach (knows s version) events (word_events words.now) }
        ensures ready { OnOk result (ready self.new buffered.new) }
        ensures lacks { (s : Self.Start) (version : ℕ) (events : List SpecEvent) → stands self.old s version events
            → 1 ≤ length events → IfErr result (λ lacking.
            BreakPut (pieces_after (due s version) events (word_events words.now))
            (holding (K.held out.old) buffered.old) (K.held out.new) lacking × WaitsAfter (most s version) events) }
        ensures causes { Causes (Fails result) (K.faults out.old) (K.faults out.new) }
        ensures same { same self.old self.new };

    /// Puts the output of a stop of the reader. If it refuses the stop, it puts nothing.
    fn close<K: Sink>(
        &mut self,
        stop: Stop,
        buffered: &mut OutputBuffer,
        out: &mut K,
    ) -> Result<(), Halt<Self::Refusal>>
        requires none { buffered.old ≡ [] }
        requires ready { ready self.old [] }
        ensures closes { (s : Self.Start) (version : ℕ) (events : List SpecEvent) → stands self.old s version events
            → OnOk result (closes s version events stop self.new) }
        ensures put { (s : Self.Start) (version : ℕ) (events : List SpecEvent) → stands self.old s version events
            → OnOk result (ArePut (closing s version events stop)
            (holding (K.held out.old) buffered.old) (holding (K.held out.new) buffered.new)) }
        ensures halts { (s : Self.Start) (version : ℕ) (events : List SpecEvent) → stands self.old s version events
            → IfErr result (Halts (λ lacking. BreakPut (closing s version events stop)
            (holding (K.held out.old) buffered.old) (K.held out.new) lacking × closes s version events stop self.new)
            (λ why. refuses_stop s version events stop self.new why
            × (buffered.new ≡ buffered.old) × (K.held out.new ≡ K.held out.old))) }
        ensures causes { Causes (FailsWriting result) (K.faults out.old) (K.faults out.new) }
        ensures same { same self.old self.new };

    /// Returns the number of the next event.
    fn next_number(&self) -> u64
        ensures { (s : Self.Start) (version : ℕ) (events : List SpecEvent) → stands self.now s version events
            → result ≡ number s version events };

    // ---- laws

    ghost same_at_first: { (x : Self) → same x x };

    ghost same_on: { (x y z : Self) → same x y → same y z → same x z };

    ghost ready_after: { (x : Self) (pieces : List Piece) → ready x pieces → ready x [] };
}
