// Contiguous texels: at consecutive columns of one row of video memory. How a chunk of them is read.
ghost use Rattle.std.specs.Prelude.{◌≡◌, ◌≤◌, ◌<◌, ◌+◌, ◌/◌, IfSome, IsTrue};
ghost use Rattle.texture_page.specs.Page.{windowed};
ghost use Rattle.texel_lanes.specs.Texture.{IsTexture};
ghost use Rattle.span_lanes.specs.Shade.{IsSpan};
ghost use Rattle.span_lanes.specs.Paints.{row_paint};
ghost use Rattle.span_lanes.specs.SpanDrawer.{state_of};
ghost use Rattle.span_lanes.specs.Attributes.TriangleSetup.{IsSetupOf};
ghost use Rattle.span_lanes.specs.TexelRun.{IsRising, IsTexelRun};
ghost use Rattle.span_lanes.specs.TriangleDrawer.{AreContiguous};
ghost use Rattle.span_lanes.specs.Clut.CachedClut.{HasIndexes};
ghost use Rattle.span_lanes.specs.Draws.{CanSample, IsChunk};

use crate::attributes::tex_coords::value_of;
use crate::attributes::triangle_setup::TriangleSetup;
use crate::rows::texel_rows::TexelRow;
use crate::span::Chunk;
use crate::texels::sampler::{IndexSampler, Sampler};
use crate::{Span, Texture};
use std::simd::prelude::*;
use std::sync::ledger::Ledger;
use texel_lanes::{
    OneByOne, entries_at, gather_entries, sixteen_entries, sixteen_indexes, sixteen_octets,
    table_of,
};
use texture_page::texel_cell;
use vram_store::{Steps, Vram};

// A run of contiguous texels: the column of the first in its page, and their row in video memory.
#[derive(Clone, Copy)]
pub(crate) struct TexelRun {
    pub(crate) u: u16,
    pub(crate) y: u16,
}

// Returns whether the cells of `n` texels from column `u` of the page on do not wrap. At depths 0 and 1, the sixteen
// cells from that of the next texel on must not wrap either. `u + n` is at most 256.
#[inline(always)]
pub(crate) fn does_not_wrap(texture: &Texture, u: u16, n: u16) -> bool
    requires texture { IsTexture texture.now }
    requires in_page { u + n ≤ 256 }
    ensures wholes { IsTrue result → 2 ≤ texture.now.page.depth → texture.now.page.x + (u + n) ≤ 1024 }
    ensures eights { IsTrue result → texture.now.page.depth ≡ 1 → texture.now.page.x + (u + n) / 2 + 16 ≤ 1024 }
    ensures fours { IsTrue result → texture.now.page.depth ≡ 0 → texture.now.page.x + (u + n) / 4 + 16 ≤ 1024 }
{
    match texture.page.depth {
        0 => texture.page.x + (u + n) / 4 + 16 <= 1024,
        1 => texture.page.x + (u + n) / 2 + 16 <= 1024,
        _ => texture.page.x + u + n <= 1024,
    }
}

// Returns whether the window leaves columns unchanged, and the `n` columns from `u` on do not pass the page's last. `n`
// is at most 1024.
#[inline(always)]
pub(crate) fn is_unwindowed(texture: &Texture, u: u8, n: u16) -> bool
    requires row { n ≤ 1024 }
    ensures open { IsTrue result → texture.now.window.mask_x ≡ 0 }
    ensures in_page { IsTrue result → u + n ≤ 256 }
{
    texture.window.mask_x == 0 && u as u16 + n <= 256
}

// Returns the run that starts at column `u` and row `v` of the page. The window is applied only to the row.
#[inline(always)]
pub(crate) fn run_at_coords(texture: &Texture, u: u8, v: u8) -> TexelRun
    requires texture { IsTexture texture.now }
    ensures column { result.u ≡ u }
    ensures row { result.y ≡ texture.now.page.y + windowed texture.now.window.mask_y texture.now.window.off_y v }
    ensures low { result.y ≤ texture.now.page.y + 255 }
{
    TexelRun {
        u: u as u16,
        y: texel_cell(&texture.page, &texture.window, u, v).y,
    }
}

// Returns the run of a span's texels, or `None` if they may not be contiguous. The first has the coordinates (`u`,
// `v`). From cell to cell the column must increase by 1, up to 255, and the row must stay the same. `span.n` is at most
// 1024.
#[inline(always)]
fn run_of_span(span: &Span, texture: &Texture, u: u8, v: u8) -> Option<TexelRun>
    requires texture { IsTexture texture.now }
    requires row { span.now.n ≤ 1024 }
    requires rising { IsRising span.now u v }
    ensures { IfSome result (IsTexelRun span.now texture.now) }
{
    if is_unwindowed(texture, u, span.n) && does_not_wrap(texture, u as u16, span.n) {
        Some(run_at_coords(texture, u, v))
    } else {
        None
    }
}

// Returns the run of a row of texels, or `None` if they may not be contiguous. `row` must be the span's paint.
#[inline(always)]
pub(crate) fn rectangle_row_run(span: &Span, row: &TexelRow) -> Option<TexelRun>
    requires span { IsSpan span.now }
    requires paint { span.now.paint ≡ row_paint row.now }
    ensures { IfSome result (IsTexelRun span.now row.now.texture) }
{
    if row.flip {
        None
    } else {
        run_of_span(span, &row.texture, row.u, row.v)
    }
}

// Returns the run of a row of a triangle, whose texels must be contiguous. `setup` must be that of the span.
#[inline(always)]
pub(crate) fn triangle_row_run(span: &Span, setup: &TriangleSetup) -> TexelRun
    requires span { IsSpan span.now }
    requires setup { IsSetupOf (state_of span.now) setup.now }
    requires contiguous { AreContiguous setup.now.tri setup.now.texture }
    ensures { IsTexelRun span.now setup.now.texture result }
{
    let u = value_of(&setup.coord_planes.u, span.x, span.y);
    let v = value_of(&setup.coord_planes.v, span.x, span.y);
    run_at_coords(&setup.texture, u, v)
}

// Contiguous texels of four bits.
#[derive(Clone, Copy)]
pub(crate) struct FourBitRun {
    pub(crate) texel_run: TexelRun,
}

impl Sampler for FourBitRun {
    ghost use Rattle.std.specs.Prelude.{◌≡◌};
    ghost use Rattle.span_lanes.specs.TexelRun.{IsTexelRun};

    ghost finds = { λ c s t. IsTexelRun s t c.texel_run × (t.page.depth ≡ 0) };

    #[inline(always)]
    fn read_texels<L: Ledger>(
        &self,
        vram: &Vram,
        texture: &Texture,
        chunk: &Chunk,
        steps: &mut Steps<L>,
    ) -> u16x16 {
        let TexelRun { u, y } = self.texel_run;
        let index = sixteen_indexes(vram, texture.page.x, u + chunk.first, y, steps);
        let entries = sixteen_entries(vram, texture.clut, steps);
        entries_at(&table_of(entries), index)
    }
}

// Contiguous texels of eight bits.
#[derive(Clone, Copy)]
pub(crate) struct EightBitRun {
    pub(crate) texel_run: TexelRun,
}

impl EightBitRun {
    // Returns the CLUT indexes of a chunk's texels in the first `chunk.k` lanes. All sixteen are below 256. Costs at
    // most one step.
    #[inline(always)]
    pub(crate) fn read_octets<L: Ledger>(
        &self,
        vram: &Vram,
        texture: &Texture,
        chunk: &Chunk,
        steps: &mut Steps<L>,
    ) -> u16x16
        requires sample { CanSample chunk.now.span.now texture.now vram.now }
        requires finds { IsTexelRun chunk.now.span.now texture.now self.now.texel_run }
        requires chunk { IsChunk chunk.now }
        requires depth { texture.now.page.depth ≡ 1 }
        ensures indexes { HasIndexes texture.now 256 chunk.now vram.now result }
        ensures cost { steps.new ≤ steps.old + 1 }
    {
        let TexelRun { u, y } = self.texel_run;
        sixteen_octets(vram, texture.page.x, u + chunk.first, y, steps)
    }
}

impl Sampler for EightBitRun {
    ghost use Rattle.std.specs.Prelude.{◌≡◌};
    ghost use Rattle.span_lanes.specs.TexelRun.{IsTexelRun};

    ghost finds = { λ c s t. IsTexelRun s t c.texel_run × (t.page.depth ≡ 1) };

    #[inline(always)]
    fn read_texels<L: Ledger>(
        &self,
        vram: &Vram,
        texture: &Texture,
        chunk: &Chunk,
        steps: &mut Steps<L>,
    ) -> u16x16 {
        let index = self.read_octets(vram, texture, chunk, steps);
        gather_entries::<OneByOne, L>(vram, texture.clut, index, chunk.k, steps)
    }
}

// Contiguous texels of fifteen bits.
#[derive(Clone, Copy)]
pub(crate) struct FifteenBitRun {
    pub(crate) texel_run: TexelRun,
}

impl Sampler for FifteenBitRun {
    ghost use Rattle.std.specs.Prelude.{◌≤◌};
    ghost use Rattle.span_lanes.specs.TexelRun.{IsTexelRun};

    ghost finds = { λ c s t. IsTexelRun s t c.texel_run × (2 ≤ t.page.depth) };

    #[inline(always)]
    fn read_texels<L: Ledger>(
        &self,
        vram: &Vram,
        texture: &Texture,
        chunk: &Chunk,
        steps: &mut Steps<L>,
    ) -> u16x16 {
        let TexelRun { u, y } = self.texel_run;
        vram.load16(texture.page.x + u + chunk.first, y, chunk.k, steps)
    }
}

impl IndexSampler for TexelRun {
    ghost use Rattle.span_lanes.specs.TexelRun.{IsTexelRun};

    ghost finds = { λ texel_run s t. IsTexelRun s t texel_run };

    #[inline(always)]
    fn read_indexes<L: Ledger>(
        &self,
        vram: &Vram,
        texture: &Texture,
        chunk: &Chunk,
        steps: &mut Steps<L>,
    ) -> u8x16 {
        let u = self.u + chunk.first;
        sixteen_indexes(vram, texture.page.x, u, self.y, steps)
    }
}

// Contiguous texels of four bits in a rectangle. Sprites often have parts without a visible pixel.
#[derive(Clone, Copy)]
pub(crate) struct SpriteRun {
    pub(crate) texel_run: TexelRun,
}

impl IndexSampler for SpriteRun {
    ghost use Rattle.span_lanes.specs.TexelRun.{IsTexelRun};

    const SKIPS_EMPTY_CHUNKS: bool = true;

    ghost finds = { λ sprite s t. IsTexelRun s t sprite.texel_run };

    #[inline(always)]
    fn read_indexes<L: Ledger>(
        &self,
        vram: &Vram,
        texture: &Texture,
        chunk: &Chunk,
        steps: &mut Steps<L>,
    ) -> u8x16 {
        self.texel_run.read_indexes(vram, texture, chunk, steps)
    }
}
