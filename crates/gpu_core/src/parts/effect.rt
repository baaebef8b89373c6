// The effects of items and packets.
ghost use Rattle.std.specs.Prelude.{◌≡◌, ◌≤◌, ◌+◌, Some, ◌<◌, length, slice_index};
ghost use Rattle.gp0_packets.specs.Packets.{environment_of, packet_of};
ghost use Rattle.gp0_packets.specs.Ranges.{IsInRange};
ghost use Rattle.prim_draw.specs.Areas.{area_of};
ghost use Rattle.gpu_core.specs.Area.{note_of};
ghost use Rattle.gpu_core.specs.Cost.{item_cost, packet_cost};
ghost use Rattle.gpu_core.specs.Machine.{effect_of, after_item, drawing_registers, with_page};
ghost use Rattle.gp0_packets.specs.Corners.{Carries};
ghost use Rattle.gp0_packets.specs.Drawn.{IsDrawn, IsOfClass};
ghost use Rattle.gp0_words.specs.Kinds.{first_len_of};
ghost use Rattle.gp0_words.specs.declared.item.Item.TheVariants.{Whole};
ghost use Rattle.gpu_core.specs.Done.{IsDone};

use crate::parts::Parts;
use crate::parts::transfer::start;
use gp0_packets::{
    Carried, Note, Packet, carried_by, class_of, class_of_word, decode, decode_line,
    decode_polygon, decode_rectangle, decode_whole, head_of, sets_register,
};
use gp0_words::Item;
use gp1_status::Regs;
use prim_draw::{area_of, draw};
use px_num::Box2;
use std::sync::ledger::Ledger;
use vram_copy::{copy, fill};
use vram_store::Steps;

impl Parts {
    /// Executes an item that event `event` completed. Returns its note, with the area computed from the registers
    /// before it.
    pub(crate) fn take_item<L: Ledger>(
        &mut self,
        event: u64,
        item: &Item,
        steps: &mut Steps<L>,
    ) -> Note
        ensures note { result ≡ note_of self.old.regs event item.now }
        ensures class { result.class ≤ 9 }
        ensures effect { self.new ≡ after_item self.old (Some item.now) }
        ensures cost { steps.new ≤ steps.old + item_cost self.old (Some item.now) }
    {
        let packet = decode(item, self.regs.is_tall());
        let area = self.carry_out(&packet, steps);
        Note {
            event,
            class: class_of(item),
            head: head_of(item),
            area,
        }
    }

    /// Executes a packet. Returns its area, computed from the registers before it.
    #[tactic(auto, unfolding(crate::specs::Machine::effect_of, crate::specs::Cost::packet_cost))]
    pub(crate) fn carry_out<L: Ledger>(
        &mut self,
        packet: &Packet,
        steps: &mut Steps<L>,
    ) -> Option<Box2>
        requires range { IsInRange self.old.regs.height packet.now }
        ensures area { result ≡ area_of self.old.regs packet.now }
        ensures effect { self.new ≡ effect_of self.old packet.now }
        ensures cost { steps.new ≤ steps.old + packet_cost self.old packet.now }
    {
        match *packet {
            Packet::Poly { .. } | Packet::Segment { .. } | Packet::Rect { .. } => {
                self.draw(packet, steps)
            }
            Packet::Fill { color, x, y, w, h } => {
                fill(&mut self.vram, x, y, w, h, color, steps);
                area_of(&self.regs, packet)
            }
            Packet::Copy { from, to, w, h } => {
                copy(&mut self.vram, self.regs.mask(), from, to, w, h, steps);
                area_of(&self.regs, packet)
            }
            Packet::Load { x, y, w, h } => {
                self.load = start(x, y, w, h);
                area_of(&self.regs, packet)
            }
            Packet::Store { x, y, w, h } => {
                self.store = start(x, y, w, h);
                area_of(&self.regs, packet)
            }
            Packet::Pixels { word } => {
                self.take_pixels(word, steps);
                None
            }
            Packet::Env { index, value } => {
                self.regs.env(index, value);
                None
            }
            Packet::Irq => {
                self.regs.raise();
                None
            }
            Packet::Nop | Packet::Finish => None,
        }
    }

    /// Executes a word of class 7 (E0h to FFh).
    #[inline(always)]
    #[tactic(auto, unfolding(crate::specs::Machine::effect_of, gp0_packets::specs::Packets::environment_of))]
    pub(crate) fn set_register(&mut self, word: u32)
        ensures { self.new ≡ effect_of self.old (environment_of word) }
    {
        let opcode = word >> 24;
        if sets_register(opcode) {
            self.regs.env((opcode - 0xe0) as u8, word & 0xff_ffff);
        }
    }
}

/// If `textured`, writes the page attribute of a polygon into the draw mode.
fn put_page(regs: &mut Regs, textured: bool, page: u16)
    ensures value { regs.new ≡ with_page regs.old textured page }
    ensures height { regs.new.height ≡ regs.old.height }
{
    if textured {
        regs.page(page);
    }
}

/// If the packet is a textured polygon, writes its page attribute into the draw mode.
fn put_own_page(regs: &mut Regs, packet: &Packet)
    ensures value { regs.new ≡ drawing_registers regs.old packet.now }
    ensures height { regs.new.height ≡ regs.old.height }
{
    match *packet {
        Packet::Poly { textured, page, .. } => put_page(regs, textured, page),
        _ => {}
    }
}

impl Parts {
    /// Executes the packet that `words` are, as many as their first word requires. Returns its area, computed from the
    /// registers before it. Packets that draw are decoded here, so that the compiler keeps their fields in registers.
    #[inline(always)]
    pub(crate) fn carry_out_words<L: Ledger>(
        &mut self,
        words: &[u32],
        steps: &mut Steps<L>,
    ) -> Option<Box2>
        requires some { 0 < length words.now }
        requires len { length words.now ≡ first_len_of (slice_index words.now 0) }
        ensures { IsDone (packet_of self.old.regs.height (Whole words.now))
            (record { parts = self.old; steps = steps.old }) (record { parts = self.new; steps = steps.new }) result }
    {
        match class_of_word(words[0]) {
            1 => self.draw_polygon(words, steps),
            2 => self.draw_line(words, steps),
            3 => self.draw_rectangle(words, steps),
            _ => self.carry_out_whole(words, steps),
        }
    }

    // The same for any packet.
    #[inline(never)]
    fn carry_out_whole<L: Ledger>(&mut self, words: &[u32], steps: &mut Steps<L>) -> Option<Box2>
        requires some { 0 < length words.now }
        requires len { length words.now ≡ first_len_of (slice_index words.now 0) }
        ensures { IsDone (packet_of self.old.regs.height (Whole words.now))
            (record { parts = self.old; steps = steps.old }) (record { parts = self.new; steps = steps.new }) result }
    {
        let packet = decode_whole(words, self.regs.height());
        self.carry_out(&packet, steps)
    }

    // Draws the line that `words` are, or the first segment of a polyline. Returns its area.
    #[inline(always)]
    fn draw_line<L: Ledger>(&mut self, words: &[u32], steps: &mut Steps<L>) -> Option<Box2>
        requires { IsOfClass 2 words.now }
        ensures { IsDone (packet_of self.old.regs.height (Whole words.now))
            (record { parts = self.old; steps = steps.old }) (record { parts = self.new; steps = steps.new }) result }
    {
        let packet = decode_line(words);
        self.draw(&packet, steps)
    }

    // Draws the rectangle that `words` are, and returns its area.
    #[inline(always)]
    fn draw_rectangle<L: Ledger>(&mut self, words: &[u32], steps: &mut Steps<L>) -> Option<Box2>
        requires { IsOfClass 3 words.now }
        ensures { IsDone (packet_of self.old.regs.height (Whole words.now))
            (record { parts = self.old; steps = steps.old }) (record { parts = self.new; steps = steps.new }) result }
    {
        let packet = decode_rectangle(words);
        self.draw(&packet, steps)
    }

    // Draws the polygon that `words` are, and returns its area. There is a specialization for each combination of
    // shading and texture.
    #[inline(always)]
    fn draw_polygon<L: Ledger>(&mut self, words: &[u32], steps: &mut Steps<L>) -> Option<Box2>
        requires { IsOfClass 1 words.now }
        ensures { IsDone (packet_of self.old.regs.height (Whole words.now))
            (record { parts = self.old; steps = steps.old }) (record { parts = self.new; steps = steps.new }) result }
    {
        let Carried { shaded, textured } = carried_by(words[0]);
        match (shaded, textured) {
            (false, false) => self.draw_carried(words, false, false, steps),
            (false, true) => self.draw_carried(words, false, true, steps),
            (true, false) => self.draw_carried(words, true, false, steps),
            (true, true) => self.draw_carried(words, true, true, steps),
        }
    }

    // The same for one of the combinations.
    #[inline(always)]
    fn draw_carried<L: Ledger>(
        &mut self,
        words: &[u32],
        shaded: bool,
        textured: bool,
        steps: &mut Steps<L>,
    ) -> Option<Box2>
        requires words { IsOfClass 1 words.now }
        requires carried { Carries (record { shaded = shaded; textured = textured }) (slice_index words.now 0) }
        ensures { IsDone (packet_of self.old.regs.height (Whole words.now))
            (record { parts = self.old; steps = steps.old }) (record { parts = self.new; steps = steps.new }) result }
    {
        let packet = decode_polygon(words, Carried { shaded, textured });
        self.draw(&packet, steps)
    }

    /// Draws a polygon, a line or a rectangle, and returns its area.
    #[inline(always)]
    pub(crate) fn draw<L: Ledger>(&mut self, packet: &Packet, steps: &mut Steps<L>) -> Option<Box2>
        requires range { IsInRange self.old.regs.height packet.now }
        requires drawn { IsDrawn packet.now }
        ensures { IsDone packet.now (record { parts = self.old; steps = steps.old })
            (record { parts = self.new; steps = steps.new }) result }
    {
        put_own_page(&mut self.regs, packet);
        draw(&mut self.vram, &self.regs, packet, steps)
    }
}
