// Events that are not yet written, and the words of a packet that may be dead.
ghost use Rattle.std.specs.Prelude.{◌≡◌, ◌<◌, ◌≤◌, ◌+◌, ◌++◌, ◌∷◌, [], ◌&&◌, ◌||◌, ◌==◌, not, length, drop};
ghost use Rattle.std.specs.Prelude.{option_to_list};
ghost use Rattle.dead_drawing.specs.Dead.{is_droppable};
ghost use Rattle.capture_slim.specs.Places.{kept_of};
ghost use Rattle.capture_slim.specs.Settling.{room};
ghost use Rattle.capture_slim.specs.Stream.{first_left, leaving_from, staying_from};
ghost use Rattle.capture_slim.specs.Window.{added, kept_words, taken_up, with_event, with_word};

use crate::effect::WINDOW_EVENTS;
use crate::slot::{Mark, Slot};
use crate::slots::Slots;
use gp0_words::{Words, first_len};
use gpu_capture::Event;
use px_num::Box2;

/// The slots of the waiting events. `words`: the words after them, of an incomplete packet that may be dropped.
#[derive(Drop)]
pub(crate) struct Queue {
    pub slots: Slots,
    pub words: Words,
}

impl Queue {
    /// Returns the number of waiting events.
    pub(crate) fn len(&self) -> usize
        ensures { result ≡ length self.now.slots + length self.now.words }
    {
        self.slots.len() + self.words.as_slice().len()
    }

    /// Appends `event`. `idle`: nothing was pending before it. `area`: that of the packet that it completes, or `None`
    /// if it draws nothing. Requires fewer than 4,128 waiting events and fewer than 12 words.
    pub(crate) fn add(&mut self, event: Event, idle: bool, area: Option<Box2>)
        requires room { length self.old.slots + length self.old.words < room }
        requires few { length self.old.words < 12 }
        ensures { self.new ≡ added self.old event idle area }
    {
        match event {
            Event::Gp0 { word } => self.add_word(word, idle, area),
            _ => self.put_event(event),
        }
    }

    fn add_word(&mut self, word: u32, idle: bool, area: Option<Box2>)
        requires room { length self.old.slots + length self.old.words < room }
        requires few { length self.old.words < 12 }
        ensures { self.new ≡ with_word self.old.slots self.old.words word idle area }
    {
        let begins = idle && is_droppable(word);
        if begins || !self.words.as_slice().is_empty() {
            self.take_up(word, area);
        } else {
            self.put_event(Event::Gp0 { word });
        }
    }

    // Appends a word of a packet that may be dropped. If the packet is then complete, moves its words to the slots.
    fn take_up(&mut self, word: u32, area: Option<Box2>)
        requires room { length self.old.slots + length self.old.words < room }
        requires few { length self.old.words < 12 }
        ensures { self.new ≡ taken_up self.old.slots (self.old.words ++ word ∷ []) area }
    {
        self.words.push(word);
        let count = self.words.as_slice().len();
        if first_len(self.words.as_slice()[0]) <= count {
            self.slots.put_packet(self.words.as_slice(), area);
            self.words = Words::new();
        }
    }

    // Appends an event that is not a word of a packet that may be dropped. The words before it stay.
    fn put_event(&mut self, event: Event)
        requires { length self.old.slots + length self.old.words < room }
        ensures { self.new ≡ with_event self.old.slots self.old.words event }
    {
        self.close();
        self.slots.push(Slot {
            event,
            mark: Mark::Kept,
        });
    }

    /// Moves the words to the slots as events that stay: their packet will not be dropped.
    pub(crate) fn close(&mut self)
        requires { length self.old.slots + length self.old.words ≤ room }
        ensures { self.new ≡ record { slots = self.old.slots ++ kept_words self.old.words; words = [] } }
    {
        self.slots.put_words(self.words.as_slice());
        self.words = Words::new();
    }

    /// Removes the first slot. Returns its event unless that was dropped.
    pub(crate) fn pop(&mut self) -> Option<Event>
        ensures event { result ≡ first_left self.old.slots }
        ensures now { self.new ≡ record self.old { slots = drop 1 self.old.slots } }
    {
        match self.slots.pop() {
            Some(slot) => slot.left(),
            None => None,
        }
    }

    /// Removes the first slot if there are more than 4,096 events. Returns its event unless that was dropped.
    pub(crate) fn leave(&mut self) -> Option<Event>
        ensures left { option_to_list result ≡ kept_of (leaving_from self.old.slots self.old.words) }
        ensures now { self.new ≡ record self.old { slots = staying_from self.old.slots self.old.words } }
    {
        if self.len() <= WINDOW_EVENTS {
            return None;
        }
        self.pop()
    }
}

// Whether a packet with this first word may be dropped: a polygon or rectangle without texture, or a single line.
#[tactic(auto, unfolding(dead_drawing::specs::Dead::is_droppable))]
fn is_droppable(word: u32) -> bool
    ensures { result ≡ is_droppable word }
{
    let class = word >> 29;
    let textured = word >> 26 & 1 == 1;
    let many = word >> 27 & 1 == 1;
    is_single(class, textured, many)
}

fn is_single(class: u32, textured: bool, many: bool) -> bool
    ensures { result ≡ (((class == 1 || class == 3) && not textured) || (class == 2 && not many)) }
{
    let area = class == 1 || class == 3;
    if area && !textured {
        true
    } else {
        class == 2 && !many
    }
}
