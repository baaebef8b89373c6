// The effect of an event on the packets drawn before it.
ghost use Rattle.std.specs.Prelude.{◌≡◌, ◌<◌, ◌^◌, ◌&&◌};
ghost use Rattle.std.specs.Int.Signed.{le_z};
ghost use Rattle.gp0_packets.specs.Ranges.{IsInRange};
ghost use Rattle.dead_drawing.specs.Dead.{holds_box};
ghost use Rattle.capture_slim.specs.Effect.{packet_effect, cover_of, may_read_if, settle_by};

use crate::slot::Mark;
use gp0_packets::Packet;
use gp1_status::Regs;
use prim_draw::area_of;
use px_num::Box2;

/// A fill drops a packet only if it comes at most 4,096 events after the packet's first word.
pub(crate) const WINDOW_EVENTS: usize = 4096;

/// The effect of an event on the packets drawn before it.
#[derive(Clone, Copy, Debug, PartialEq, Eq)]
pub enum Effect {
    /// Reads nothing that they drew and covers nothing.
    Nothing,
    /// May read what they drew, so they stay.
    MayRead,
    /// Completes a fill that overwrites the cells of `area`.
    Cover { area: Box2 },
}

// Returns the effect of a fill of `area`, or of a fill of no cell if it is `None`.
fn cover_of(area: Option<Box2>) -> Effect
    ensures { result ≡ cover_of area }
{
    match area {
        None => Effect::Nothing,
        Some(area) => Effect::Cover { area },
    }
}

// Returns the effect of drawing, which may read video memory only if it is textured.
fn may_read_if(textured: bool) -> Effect
    ensures { result ≡ may_read_if textured }
{
    if textured {
        Effect::MayRead
    } else {
        Effect::Nothing
    }
}

/// Returns the effect of a packet on the packets before it.
#[tactic(auto, unfolding(prim_draw::specs::Areas::area_of))]
pub(crate) fn packet_effect(regs: &Regs, packet: &Packet) -> Effect
    requires { IsInRange regs.now.height packet.now }
    ensures { result ≡ packet_effect packet.now }
{
    match *packet {
        Packet::Fill { .. } => cover_of(area_of(regs, packet)),
        Packet::Poly { textured, .. } => may_read_if(textured),
        Packet::Rect { textured, .. } => may_read_if(textured),
        Packet::Copy { .. } | Packet::Store { .. } => Effect::MayRead,
        Packet::Nop
        | Packet::Irq
        | Packet::Segment { .. }
        | Packet::Load { .. }
        | Packet::Pixels { .. }
        | Packet::Finish
        | Packet::Env { .. } => Effect::Nothing,
    }
}

// Whether `outer` starts at or before `inner`, in columns and in rows.
fn begins_before(outer: &Box2, inner: &Box2) -> bool
    ensures { result ≡ (le_z outer.now.x1 inner.now.x1 && le_z outer.now.y1 inner.now.y1) }
{
    let left = outer.x1 <= inner.x1;
    let top = outer.y1 <= inner.y1;
    left && top
}

// Whether `outer` ends at or after `inner`, in columns and in rows.
fn ends_after(outer: &Box2, inner: &Box2) -> bool
    ensures { result ≡ (le_z inner.now.x2 outer.now.x2 && le_z inner.now.y2 outer.now.y2) }
{
    let right = inner.x2 <= outer.x2;
    let bottom = inner.y2 <= outer.y2;
    right && bottom
}

// Whether `outer` contains `inner`.
#[tactic(auto, unfolding(dead_drawing::specs::Dead::holds_box))]
fn holds_box(outer: &Box2, inner: &Box2) -> bool
    ensures { result ≡ holds_box outer.now inner.now }
{
    let first = begins_before(outer, inner);
    let last = ends_after(outer, inner);
    first && last
}

/// Returns a slot's mark after a later event. `age`: the number of events after the slot's, without that event.
pub(crate) fn settle(mark: Mark, age: usize, effect: &Effect) -> Mark
    requires { age < 2 ^ 32 }
    ensures { result ≡ settle_by mark age effect.now }
{
    match mark {
        Mark::Kept => Mark::Kept,
        Mark::Dropped => Mark::Dropped,
        Mark::Open { area, offset } => match *effect {
            Effect::Nothing => mark,
            Effect::MayRead => Mark::Kept,
            Effect::Cover { area: cover } => {
                if holds_box(&cover, &area) {
                    if age + (offset as usize) < WINDOW_EVENTS {
                        Mark::Dropped
                    } else {
                        Mark::Kept
                    }
                } else {
                    mark
                }
            }
        },
    }
}
