// CLUTs of 256 entries, modulated once, and the rows of rectangles that use them.
ghost use Rattle.std.specs.Prelude.{ℕ, ◌≡◌, ◌≤◌, ◌<◌, ◌+◌, ◌*◌, ◌/◌, ◌%◌, ◌^◌, pos, length, slice_index, true};
ghost use Rattle.px_num.specs.Lanes.{EachLane, AreBytes};
ghost use Rattle.texture_page.specs.Page.{clut_place};
ghost use Rattle.texel_lanes.specs.Texture.{at_cell};
ghost use Rattle.span_lanes.specs.Shade.{modulated_texel};
ghost use Rattle.span_lanes.specs.Clut.ModulatedClut256.{IsModulatedClut256Of, entry_in, modulated_in};
ghost use Rattle.span_lanes.specs.TexelRows.{IsCached256};

use crate::Texture;
use crate::chunks::loops::{ChunkDrawer, draw_chunks};
use crate::chunks::textured::draw_texels;
use crate::clut::modulated::{ModulatedTexels, modulated_entries};
use crate::rows::rectangle::TexelRowsMethod;
use crate::rows::texel_rows::{RowAt, TexelRows};
use crate::span::Chunk;
use crate::texels::texel_run::EightBitRun;
use std::simd::prelude::*;
use std::sync::ledger::Ledger;
use texel_lanes::sixteen_entries;
use vram_store::{Steps, Vram};

// Returns the attribute of the CLUT that starts at entry `16 * piece` of `clut`. Columns wrap at 1024.
fn clut_from(clut: u16, piece: u16) -> u16
    requires { piece < 16 }
    ensures { (i : ℕ) → i < 16 → clut_place result i ≡ clut_place clut (16 * piece + i) }
{
    clut / 64 * 64 + (clut % 64 + piece) % 64
}

// Stores sixteen words from index `16 * piece` on. Each has an entry in its low half, and the same modulated in its
// high half.
#[inline(always)]
fn store_piece(words: &mut [u32; 256], piece: u16, entries: [u16; 16], modulated: [u16; 16])
    requires { piece < 16 }
    ensures long { length words.new ≡ 256 }
    ensures entry { EachLane (λ i. entry_in words.new (16 * piece + i) ≡ slice_index entries i) }
    ensures front { EachLane (λ i. modulated_in words.new (16 * piece + i) ≡ slice_index modulated i) }
    ensures others { (i : ℕ) → i < 16 * piece → slice_index words.new i ≡ slice_index words.old i }
{
    let first = 16 * piece as usize;
    for i in 0..16 {
        words[first + i] = entries[i] as u32 + modulated[i] as u32 * 0x1_0000;
    }
}

// Returns entries `16 * piece` to `16 * piece + 15` of the texture's CLUT, and the same modulated by `color`. Costs at
// most one step.
#[inline(always)]
fn modulated_piece<L: Ledger>(
    vram: &Vram,
    texture: &Texture,
    color: u32,
    piece: u16,
    steps: &mut Steps<L>,
) -> ModulatedTexels
    requires { piece < 16 }
    ensures long { (length result.texels ≡ 16) × (length result.modulated ≡ 16) }
    ensures entry { EachLane (λ i. slice_index result.texels i
        ≡ at_cell vram.now (clut_place texture.now.clut (16 * piece + i))) }
    ensures front { EachLane (λ i. slice_index result.modulated i
        ≡ modulated_texel texture.now.raw color (pos 0) (slice_index result.texels i)) }
    ensures cost { steps.new ≤ steps.old + 1 }
{
    let texels = sixteen_entries(vram, clut_from(texture.clut, piece), steps);
    ModulatedTexels {
        texels,
        modulated: modulated_entries(texture.raw, color, texels),
    }
}

// Makes `words` the texture's CLUT, modulated by `color`, or unchanged if the texture is raw. Costs at most sixteen
// steps.
#[inline(never)]
pub(crate) fn modulate_clut256<L: Ledger>(
    vram: &Vram,
    texture: &Texture,
    color: u32,
    words: &mut [u32; 256],
    steps: &mut Steps<L>,
)
    ensures modulated { IsModulatedClut256Of texture.now vram.now color words.new }
    ensures cost { steps.new ≤ steps.old + 16 }
{
    for piece in 0..16 {
        let ModulatedTexels { texels, modulated } = modulated_piece(
            vram, texture, color, piece, steps,
        );
        store_piece(words, piece, texels.to_array(), modulated.to_array());
    }
}

// Returns the words at sixteen indexes below 256.
#[inline(always)]
fn words_at(words: &[u32; 256], indexes: u16x16) -> u32x16
    requires { AreBytes indexes }
    ensures long { length result ≡ 16 }
    ensures value { EachLane (λ i. slice_index result i ≡ slice_index words.now (slice_index indexes i)) }
{
    let indexes = indexes.to_array();
    let mut lanes = [0; 16];
    for i in 0..16 {
        lanes[i] = words[indexes[i] as usize];
    }
    u32x16::from_array(lanes)
}

// Returns the low half of each lane, in 32 bits.
#[inline(always)]
fn low_halves(a: u32x16) -> u32x16
    requires { length a ≡ 16 }
    ensures long { length result ≡ 16 }
    ensures value { EachLane (λ i. slice_index result i ≡ slice_index a i % 2 ^ 16) }
{
    a & u32x16::splat(0xffff)
}

// Returns the high half of each lane, in 32 bits.
#[inline(always)]
fn high_halves(a: u32x16) -> u32x16
    requires { length a ≡ 16 }
    ensures long { length result ≡ 16 }
    ensures value { EachLane (λ i. slice_index result i ≡ slice_index a i / 2 ^ 16) }
    ensures low { EachLane (λ i. slice_index result i < 2 ^ 16) }
{
    a >> u32x16::splat(16)
}

// Returns the lanes, which must be below 2^16, in 16 bits.
#[inline(always)]
fn narrow(a: u32x16) -> u16x16
    requires long { length a ≡ 16 }
    requires low { EachLane (λ i. slice_index a i < 2 ^ 16) }
    ensures long { length result ≡ 16 }
    ensures value { EachLane (λ i. slice_index result i ≡ slice_index a i) }
{
    a.cast::<u16>()
}

// Returns the CLUT entries at sixteen indexes below 256, and the same entries modulated.
#[inline(always)]
pub(crate) fn texels_by_octet(words: &[u32; 256], index: u16x16) -> ModulatedTexels
    requires { AreBytes index }
    ensures long { (length result.texels ≡ 16) × (length result.modulated ≡ 16) }
    ensures texels { EachLane (λ i. slice_index result.texels i ≡ entry_in words.now (slice_index index i)) }
    ensures modulated { EachLane (λ i. slice_index result.modulated i ≡ modulated_in words.now (slice_index index i)) }
{
    let found = words_at(words, index);
    ModulatedTexels {
        texels: narrow(low_halves(found)),
        modulated: narrow(high_halves(found)),
    }
}

// Draws contiguous eight-bit texels with a CLUT that was read and modulated before.
#[derive(Clone, Copy)]
struct CachedClut256<'a> {
    texture: Texture,
    sampler: EightBitRun,
    // what the CLUT was modulated by
    color: u32,
    // a word for each entry: the entry in its low half, the same modulated in its high half
    words: &'a [u32; 256],
}

impl ChunkDrawer for CachedClut256<'_> {
    ghost use Rattle.span_lanes.specs.Clut.CachedClut.{CanUseCached256};
    ghost use Rattle.span_lanes.specs.TexelRun.{IsTexelRun};

    ghost serves = { λ c s m.
        CanUseCached256 s c.texture c.color c.words.now m × IsTexelRun s c.texture c.sampler.texel_run };

    // The entry of each texel is not read again.
    ghost spared = { λ c k. k };

    #[inline(always)]
    fn draw_chunk<L: Ledger>(&self, vram: &mut Vram, chunk: &Chunk, steps: &mut Steps<L>) {
        let index = self.sampler.read_octets(vram, &self.texture, chunk, steps);
        let drawn = texels_by_octet(self.words, index);
        draw_texels(vram, &self.texture, drawn, chunk, steps);
    }

    ghost can = { λ c s m serves. serves.0.can.sample.can };
}

/// Contiguous texels of eight bits, in rows without a hazard: the CLUT is modulated once.
#[derive(Drop)]
pub(crate) struct CachedClut256Rows {
    // whether `words` has the CLUT; at first it was not read
    filled: bool,
    // a word for each entry: the entry in its low half, the same modulated in its high half
    words: [u32; 256],
}

impl CachedClut256Rows {
    // Reads and modulates the CLUT if it was not read. Its words must equal it otherwise. Costs at most sixteen steps.
    #[inline(always)]
    fn fill<L: Ledger>(&mut self, vram: &Vram, rows: &TexelRows, steps: &mut Steps<L>)
        requires { IsCached256 rows.now vram.now self.old.filled self.old.words }
        ensures filled { self.new.filled ≡ true }
        ensures modulated { IsModulatedClut256Of rows.now.texture vram.now rows.now.color self.new.words }
        ensures cost { steps.new ≤ steps.old + 16 }
    {
        if !self.filled {
            modulate_clut256(vram, &rows.texture, rows.color, &mut self.words, steps);
            self.filled = true;
        }
    }
}

impl TexelRowsMethod for CachedClut256Rows {
    ghost use Rattle.span_lanes.specs.TexelRows.{CanCacheRows256, IsCached256};

    ghost accepts = { CanCacheRows256 };

    ghost ready = { λ method rows m. CanCacheRows256 rows × IsCached256 rows m method.filled method.words };

    #[inline(always)]
    fn new(_rows: &TexelRows) -> CachedClut256Rows {
        CachedClut256Rows {
            filled: false,
            words: [0; 256],
        }
    }

    #[inline(always)]
    fn draw_row<L: Ledger>(
        &mut self,
        vram: &mut Vram,
        rows: &TexelRows,
        at: RowAt,
        steps: &mut Steps<L>,
    ) {
        self.fill(vram, rows, steps);
        let chunks = CachedClut256 {
            texture: rows.texture,
            sampler: EightBitRun {
                texel_run: rows.texel_run(at.v),
            },
            color: rows.color,
            words: &self.words,
        };
        draw_chunks(vram, &rows.span(at), &chunks, steps);
    }
}
