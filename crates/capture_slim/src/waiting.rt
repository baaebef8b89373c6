// Holds events until it is known whether they stay.
ghost use Rattle.std.specs.Prelude.{◌≡◌, ◌≤◌, ◌+◌, length, drop, IfOk, IfSome, option_to_list};
ghost use Rattle.px_num.specs.Height.{short_height, tall_height};
ghost use Rattle.event_play.specs.Ports.{IsAtPorts};
ghost use Rattle.capture_slim.specs.Places.{kept_of};
ghost use Rattle.capture_slim.specs.Stream.{closed, first_left, leaving, staying};
ghost use Rattle.capture_slim.specs.Window.{first_window, pushed};

use crate::queue::Queue;
use crate::slots::Slots;
use crate::track::Track;
use gp0_words::Words;
use gpu_capture::Event;
use px_num::OutOfMemory;
use std::alloc::Global;
use std::marker::Model;

/// The last 4,096 events of a list, with what is known of each.
#[derive(Drop)]
pub(crate) struct Waiting {
    queue: Queue,
    track: Track,
}

impl Model for Waiting {
    ghost use Rattle.capture_slim.specs.Telling.{KeepsWindow};
    ghost use Rattle.capture_slim.specs.Window.{Window, within};

    ghost Value = { Window };

    ghost view = { λ w. within w.queue w.track };

    ghost invariant = { λ w. KeepsWindow (within w.queue w.track) };
}

impl Waiting {
    /// Creates an empty window and allocates room for all events: [`Waiting::push`] allocates nothing.
    pub(crate) fn new(alloc: Global) -> Result<Waiting, OutOfMemory>
        ensures { IfOk result (λ waiting. waiting ≡ first_window short_height) }
    {
        match Slots::new(alloc) {
            Ok(slots) => Ok(Waiting {
                queue: Queue {
                    slots,
                    words: Words::new(),
                },
                track: Track::new(),
            }),
            Err(_) => Err(OutOfMemory),
        }
    }

    /// Extends video memory to 1024 rows. Requires that no event was pushed yet.
    pub(crate) fn set_tall(&mut self)
        requires { self.old ≡ first_window short_height }
        ensures { self.new ≡ first_window tall_height }
    {
        self.track.set_tall();
    }

    /// Appends a port event. If more than 4,096 events are then in the window, removes the oldest and returns it unless
    /// it was dropped. Otherwise returns `None`.
    pub(crate) fn push(&mut self, event: Event) -> Option<Event>
        requires { IsAtPorts event }
        ensures left { option_to_list result ≡ kept_of (leaving (pushed self.old event)) }
        ensures now { self.new ≡ staying (pushed self.old event) }
        ensures ports { IfSome result IsAtPorts }
    {
        let idle = self.track.is_idle();
        let after = self.queue.words.as_slice().len();
        let told = self.track.follow(&event);
        self.queue.slots.apply_effect(after, &told.effect);
        self.queue.add(event, idle, told.area);
        self.queue.leave()
    }

    /// Returns the number of waiting events, at most 4,096.
    pub(crate) fn len(&self) -> usize
        ensures value { result ≡ length self.now.slots + length self.now.words }
        ensures few { result ≤ 4096 }
    {
        self.queue.len()
    }

    /// Marks the end of the list: the words of an incomplete packet stay.
    pub(crate) fn close(&mut self)
        ensures { self.new ≡ closed self.old }
    {
        self.queue.close();
    }

    /// Removes the first slot at the end of the list. Returns its event unless it was dropped.
    pub(crate) fn pop(&mut self) -> Option<Event>
        ensures event { result ≡ first_left self.old.slots }
        ensures now { self.new ≡ record self.old { slots = drop 1 self.old.slots } }
        ensures ports { IfSome result IsAtPorts }
    {
        self.queue.pop()
    }
}
