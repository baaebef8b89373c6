// Follows the registers and the pending packet, and determines the effect of each event.
ghost use Rattle.std.specs.Prelude.{◌≡◌, None};
ghost use Rattle.px_num.specs.Height.{short_height, tall_height};
ghost use Rattle.gp0_packets.specs.Ranges.{IsInRange};
ghost use Rattle.gpu_core.specs.Machine.{is_idle};
ghost use Rattle.dead_drawing.specs.Control.{controlled, first_control, regs_after};
ghost use Rattle.capture_slim.specs.declared.effect.Effect.TheVariants.{Nothing};
ghost use Rattle.capture_slim.specs.Effect.{event_effect};
ghost use Rattle.gpu_capture.specs.declared.event.Event.TheVariants.{Gp0};
ghost use Rattle.capture_slim.specs.Telling.{area_at};

use crate::effect::{Effect, packet_effect};
use gp0_packets::{Packet, decode, decode_environment};
use gp0_words::Splitter;
use gp1_status::{Regs, clears};
use gpu_capture::Event;
use prim_draw::area_of;
use px_num::Box2;
use std::marker::Model;

/// The GPU registers and the splitter of GP0 words into packets.
#[derive(Drop)]
pub(crate) struct Track {
    regs: Regs,
    splitter: Splitter,
}

impl Model for Track {
    ghost use Rattle.dead_drawing.specs.Control.{Control};

    ghost Value = { Control };

    ghost view = { λ t. record { regs = t.regs; pending = t.splitter } };

    ghost invariant = { λ t. Unit };
}

/// The effect of an event on the packets before it. `area`: that of the packet that it completes, or `None` if there is
/// none or it draws nothing.
#[derive(Drop)]
pub(crate) struct Told {
    pub effect: Effect,
    pub area: Option<Box2>,
}

fn no_effect() -> Told
    ensures effect { result.effect ≡ Nothing }
    ensures area { result.area ≡ None }
{
    Told {
        effect: Effect::Nothing,
        area: None,
    }
}

// Updates the registers by a packet.
fn put(regs: &mut Regs, packet: &Packet)
    requires { IsInRange regs.old.height packet.now }
    ensures { regs.new ≡ regs_after regs.old packet.now }
{
    match *packet {
        Packet::Env { index, value } => regs.env(index, value),
        Packet::Irq => regs.raise(),
        Packet::Poly { textured, page, .. } => {
            if textured {
                regs.page(page);
            }
        }
        _ => {}
    }
}

impl Track {
    /// Creates the state after a reset: nothing pending, 512 rows.
    #[tactic(auto, unfolding(gp0_words::specs::Items::pending_behind))]
    pub(crate) fn new() -> Track
        ensures { result ≡ first_control short_height }
    {
        Track {
            regs: Regs::new(),
            splitter: Splitter::new(),
        }
    }

    /// Applies an event to the registers and the pending packet. Returns its effect, and the area of the packet that it
    /// completes.
    #[tactic(auto, unfolding(dead_drawing::specs::Control::controlled, gp0_words::specs::Items::pending_behind))]
    pub(crate) fn follow(&mut self, event: &Event) -> Told
        ensures control { self.new ≡ controlled self.old event.now }
        ensures effect { result.effect ≡ event_effect self.old event.now }
        ensures area { result.area ≡ area_at self.old event.now }
    {
        match *event {
            Event::Gp0 { word } => self.follow_word(word),
            Event::Gp1 { word } => {
                self.regs.gp1(word);
                if clears(word) {
                    self.splitter.clear();
                }
                no_effect()
            }
            Event::Stat => no_effect(),
            _ => Told {
                effect: Effect::MayRead,
                area: None,
            },
        }
    }

    // Applies a word of GP0. Register words, and words inside a packet, have no effect on earlier packets and no area.
    fn follow_word(&mut self, word: u32) -> Told
        ensures control { self.new ≡ controlled self.old (Gp0 word) }
        ensures effect { result.effect ≡ event_effect self.old (Gp0 word) }
        ensures area { result.area ≡ area_at self.old (Gp0 word) }
    {
        if self.splitter.passes(word) {
            let packet = decode_environment(word);
            put(&mut self.regs, &packet);
            return no_effect();
        }
        if self.splitter.push_inside(word) {
            return no_effect();
        }
        self.complete(word)
    }

    // Applies a word of GP0 that may complete a packet.
    #[tactic(auto, unfolding(dead_drawing::specs::Control::controlled, gp0_words::specs::Items::pending_behind))]
    fn complete(&mut self, word: u32) -> Told
        ensures control { self.new ≡ controlled self.old (Gp0 word) }
        ensures effect { result.effect ≡ event_effect self.old (Gp0 word) }
        ensures area { result.area ≡ area_at self.old (Gp0 word) }
    {
        match self.splitter.push(word) {
            None => no_effect(),
            Some(item) => {
                let packet = decode(&item, self.regs.is_tall());
                let area = area_of(&self.regs, &packet);
                let effect = packet_effect(&self.regs, &packet);
                put(&mut self.regs, &packet);
                Told { effect, area }
            }
        }
    }

    /// Extends video memory to 1024 rows.
    pub(crate) fn set_tall(&mut self)
        ensures { self.new ≡ record self.old { regs = record self.old.regs { height = tall_height } } }
    {
        self.regs.set_tall();
    }

    /// Whether nothing is pending.
    pub(crate) fn is_idle(&self) -> bool
        ensures { result ≡ is_idle self.now.pending }
    {
        self.splitter.is_idle()
    }
}
