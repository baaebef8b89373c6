// Updates the marks of slots by the effect of an event.
ghost use Rattle.std.specs.Prelude.{◌≡◌, ◌<◌, ◌≤◌, ◌+◌, ◌++◌, ◌^◌, [], IsTrue, length, take, drop};
ghost use Rattle.circular_buffer.specs.Buffer.{buffer};
ghost use Rattle.capture_slim.specs.Settling.{AreSettled, all_shut, settled_by, turned};

use crate::effect::{Effect, settle};
use crate::slot::{Mark, Slot};
use circular_buffer::HeapCircularBuffer;

// Updates the mark of the first slot and moves it to the end. `age`: the number of events after the slot's.
fn turn(slots: &mut HeapCircularBuffer<Slot>, age: usize, effect: &Effect)
    requires some { 0 < length slots.old.items }
    requires fits { length slots.old.items ≤ slots.old.capacity }
    requires age { age < 2 ^ 32 }
    ensures { slots.new ≡ buffer (turned slots.old.items age effect.now) slots.old.capacity }
{
    if let Some(slot) = slots.pop_front() {
        slots.push_back(Slot {
            event: slot.event,
            mark: settle(slot.mark, age, effect),
        });
    }
}

/// Updates the mark of each slot and keeps their order. `after`: the number of events after the last slot, at most 16.
/// Requires at most 4,128 slots.
pub(crate) fn settle_all(slots: &mut HeapCircularBuffer<Slot>, after: usize, effect: &Effect)
    requires few { length slots.old.items ≤ 4128 }
    requires fits { length slots.old.items ≤ slots.old.capacity }
    requires after { after ≤ 16 }
    ensures { slots.new ≡ buffer (settled_by slots.old.items after effect.now) slots.old.capacity }
{
    let count = slots.len();
    for i in 0..count {
        turn(slots, count - 1 - i + after, effect);
    }
}

// Moves the first slot, if any, to the end of `settled`. If its mark was open, the event stays.
fn shut_first(settled: &mut HeapCircularBuffer<Slot>, recent: &mut HeapCircularBuffer<Slot>)
    requires room { length settled.old.items < settled.old.capacity }
    ensures settled { settled.new
        ≡ buffer (settled.old.items ++ all_shut (take 1 recent.old.items)) settled.old.capacity }
    ensures recent { recent.new ≡ buffer (drop 1 recent.old.items) recent.old.capacity }
{
    if let Some(slot) = recent.pop_front() {
        settled.push_back(Slot {
            event: slot.event,
            mark: settle(slot.mark, 0, &Effect::MayRead),
        });
    }
}

/// Moves all slots to the end of `settled`, which must have the capacity for them. Events whose mark was open stay.
pub(crate) fn shut_all(
    settled: &mut HeapCircularBuffer<Slot>,
    recent: &mut HeapCircularBuffer<Slot>,
)
    requires room { length settled.old.items + length recent.old.items ≤ settled.old.capacity }
    ensures settled { settled.new ≡ buffer (settled.old.items ++ all_shut recent.old.items) settled.old.capacity }
    ensures recent { recent.new ≡ buffer [] recent.old.capacity }
{
    let count = recent.len();
    for i in 0..count {
        let _ = i;
        shut_first(settled, recent);
    }
}

/// Whether there is a first slot and its mark is final.
pub(crate) fn is_first_settled(slots: &HeapCircularBuffer<Slot>) -> bool
    ensures { IsTrue result → AreSettled (take 1 slots.now.items) }
{
    match slots.front() {
        Some(slot) => !matches!(slot.mark, Mark::Open { .. }),
        None => false,
    }
}
