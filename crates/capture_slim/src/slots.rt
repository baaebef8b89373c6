// The slots of the waiting events: one list, in two parts. The marks of the first part are final.
ghost use Rattle.std.specs.Prelude.{◌≡◌, ◌<◌, ◌≤◌, ◌+◌, ◌++◌, ◌∷◌, [], IfOk, length, drop, slice_get};
ghost use Rattle.capture_slim.specs.Settling.{mark_of, room, settled_by};
ghost use Rattle.capture_slim.specs.Window.{packet_slots, kept_words};

use crate::effect::Effect;
use crate::settling::{is_first_settled, settle_all, shut_all};
use crate::slot::{Mark, Slot};
use circular_buffer::HeapCircularBuffer;
use gpu_capture::Event;
use px_num::{Box2, OutOfMemory};
use std::alloc::Global;
use std::marker::Model;

// The capacity of either part: the window's 4,096 events and 32 more, enough for the words of a packet.
const ROOM: usize = 4128;

/// The slots of the waiting events. In contracts, one list.
#[derive(Drop)]
pub(crate) struct Slots {
    settled: HeapCircularBuffer<Slot>,
    recent: HeapCircularBuffer<Slot>,
}

impl Model for Slots {
    ghost use Rattle.std.specs.Prelude.{List, ◌++◌};
    ghost use Rattle.capture_slim.specs.declared.slot.Slot.{Slot};

    ghost Value = { List Slot };

    ghost use Rattle.capture_slim.specs.Settling.{KeepsSlots};

    ghost view = { λ s. s.settled.items ++ s.recent.items };

    ghost invariant = { λ s. KeepsSlots s.settled s.recent };
}

impl Slots {
    /// Creates an empty list and allocates room for all slots.
    pub(crate) fn new(alloc: Global) -> Result<Slots, OutOfMemory>
        ensures { IfOk result (λ slots. slots ≡ []) }
    {
        match (
            HeapCircularBuffer::with_capacity(alloc, ROOM),
            HeapCircularBuffer::with_capacity(alloc, ROOM),
        ) {
            (Ok(settled), Ok(recent)) => Ok(Slots { settled, recent }),
            _ => Err(OutOfMemory),
        }
    }

    /// Returns the number of slots.
    pub(crate) fn len(&self) -> usize
        ensures value { result ≡ length self.now }
        ensures fits { result ≤ room }
    {
        self.settled.len() + self.recent.len()
    }

    /// Appends a slot. Requires fewer than 4,128 slots.
    pub(crate) fn push(&mut self, slot: Slot)
        requires { length self.old < room }
        ensures { self.new ≡ self.old ++ slot ∷ [] }
    {
        self.recent.push_back(slot);
    }

    /// Removes and returns the first slot.
    pub(crate) fn pop(&mut self) -> Option<Slot>
        ensures value { result ≡ slice_get self.old 0 }
        ensures slots { self.new ≡ drop 1 self.old }
    {
        match self.settled.pop_front() {
            Some(slot) => Some(slot),
            None => self.recent.pop_front(),
        }
    }

    /// Appends words that stay. Requires at most 4,128 slots with them.
    pub(crate) fn put_words(&mut self, words: &[u32])
        requires { length self.old + length words.now ≤ room }
        ensures { self.new ≡ self.old ++ kept_words words.now }
    {
        for word in words {
            self.push(Slot {
                event: Event::Gp0 { word: *word },
                mark: Mark::Kept,
            });
        }
    }

    /// Appends the words of a complete packet, at most 12. If it has no `area`, it draws nothing and is dropped.
    /// Requires at most 4,128 slots with them.
    pub(crate) fn put_packet(&mut self, words: &[u32], area: Option<Box2>)
        requires room { length self.old + length words.now ≤ room }
        requires few { length words.now ≤ 12 }
        ensures { self.new ≡ self.old ++ packet_slots words.now area }
    {
        let mut offset = 0u16;
        for word in words {
            self.push(Slot {
                event: Event::Gp0 { word: *word },
                mark: mark_of(area, offset),
            });
            offset += 1;
        }
    }

    /// Updates the marks of the slots by the effect of an event. `after`: the number of events after the last slot, at
    /// most 16.
    pub(crate) fn apply_effect(&mut self, after: usize, effect: &Effect)
        requires { after ≤ 16 }
        ensures { self.new ≡ settled_by self.old after effect.now }
    {
        match *effect {
            Effect::Nothing => {}
            Effect::MayRead => shut_all(&mut self.settled, &mut self.recent),
            Effect::Cover { .. } => {
                settle_all(&mut self.recent, after, effect);
                self.pass_settled();
            }
        }
    }

    // Moves the slots before the first open one to the settled part.
    fn pass_settled(&mut self)
        ensures { self.new ≡ self.old }
    {
        let count = self.recent.len();
        for i in 0..count {
            let _ = i;
            if !self.pass_first() {
                return;
            }
        }
    }

    // If the first recent slot is settled, moves it to the settled part and returns true. Else returns false.
    fn pass_first(&mut self) -> bool
        ensures { self.new ≡ self.old }
    {
        if !is_first_settled(&self.recent) {
            return false;
        }
        if let Some(slot) = self.recent.pop_front() {
            self.settled.push_back(slot);
        }
        true
    }
}

// Returns the mark of word `offset` of a packet.
fn mark_of(area: Option<Box2>, offset: u16) -> Mark
    ensures { result ≡ mark_of area offset }
{
    match area {
        None => Mark::Dropped,
        Some(area) => Mark::Open { area, offset },
    }
}
