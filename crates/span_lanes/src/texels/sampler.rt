// Samplers: sources of the texels of a span, and the reading of texels by their coordinates.
ghost use Rattle.std.specs.Prelude.{◌≡◌, ◌≤◌, ◌+◌, ◌*◌};
ghost use Rattle.texel_lanes.specs.Texture.{texel_steps};
ghost use Rattle.span_lanes.specs.Draws.{CanSample, IsChunk};
ghost use Rattle.span_lanes.specs.Clut.CachedClut.{HasIndexes};
ghost use Rattle.span_lanes.specs.RowSetup.{HasTexels};
ghost use Rattle.span_lanes.specs.Chunks.Lanes.{HasCoordinates};
ghost use Rattle.span_lanes.specs.Paints.{chunk_u, chunk_v};
ghost use Rattle.span_lanes.specs.Shade.{IsSpan};
ghost use Rattle.span_lanes.specs.Attributes.TexCoords.{CanRead};

use crate::span::Chunk;
use crate::{Span, Texture};
use px_num::halves::HALF;
use std::simd::prelude::*;
use std::sync::ledger::Ledger;
use texel_lanes::{AllAtOnce, Coordinates, OneByOne, indexes_of, read_few, read_texels};
use vram_store::{Steps, Vram};

// A texture under one colour, with its sampler.
#[derive(Clone, Copy)]
pub(crate) struct FlatTexels<'a, S> {
    pub(crate) texture: &'a Texture,
    pub(crate) color: u32,
    pub(crate) sampler: S,
}

// Reads the texels of a span, chunk by chunk.
pub(crate) trait Sampler {
    ghost use Rattle.span_lanes.specs.declared.span.Span.{Span};
    ghost use Rattle.texel_lanes.specs.declared.texture.Texture.{Texture};

    // The sampler reads the texels of this span in this texture.
    ghost finds: { Self → Span → Texture → Type 0 };

    fn read_texels<L: Ledger>(
        &self,
        vram: &Vram,
        texture: &Texture,
        chunk: &Chunk,
        steps: &mut Steps<L>,
    ) -> u16x16
        requires sample { CanSample chunk.now.span.now texture.now vram.now }
        requires finds { finds self.now chunk.now.span.now texture.now }
        requires chunk { IsChunk chunk.now }
        ensures texels { HasTexels texture.now chunk.now vram.now result }
        ensures cost { steps.new ≤ steps.old + texel_steps texture.now.page.depth * chunk.now.k };
}

// Reads the CLUT indexes of a span's four-bit texels, chunk by chunk.
pub(crate) trait IndexSampler {
    ghost use Rattle.span_lanes.specs.declared.span.Span.{Span};
    ghost use Rattle.texel_lanes.specs.declared.texture.Texture.{Texture};

    // Whether a chunk is skipped if all its texels are 0.
    const SKIPS_EMPTY_CHUNKS: bool = false;

    ghost finds: { Self → Span → Texture → Type 0 };

    fn read_indexes<L: Ledger>(
        &self,
        vram: &Vram,
        texture: &Texture,
        chunk: &Chunk,
        steps: &mut Steps<L>,
    ) -> u8x16
        requires sample { CanSample chunk.now.span.now texture.now vram.now }
        requires finds { finds self.now chunk.now.span.now texture.now }
        requires chunk { IsChunk chunk.now }
        requires depth { texture.now.page.depth ≡ 0 }
        ensures indexes { HasIndexes texture.now 16 chunk.now vram.now result }
        ensures cost { steps.new ≤ steps.old + chunk.now.k };
}

impl<S: Sampler> Sampler for &S {
    ghost finds = { λ sampler. S.finds sampler.now };

    #[inline(always)]
    fn read_texels<L: Ledger>(
        &self,
        vram: &Vram,
        texture: &Texture,
        chunk: &Chunk,
        steps: &mut Steps<L>,
    ) -> u16x16 {
        (**self).read_texels(vram, texture, chunk, steps)
    }
}

impl<S: IndexSampler> IndexSampler for &S {
    ghost finds = { λ sampler. S.finds sampler.now };

    #[inline(always)]
    fn read_indexes<L: Ledger>(
        &self,
        vram: &Vram,
        texture: &Texture,
        chunk: &Chunk,
        steps: &mut Steps<L>,
    ) -> u8x16 {
        (**self).read_indexes(vram, texture, chunk, steps)
    }
}

// Computes the texel coordinates of a span, chunk by chunk.
pub(crate) trait CoordSource {
    ghost use Rattle.span_lanes.specs.declared.span.Span.{Span};

    // The coordinates are those of this span.
    ghost places: { Self → Span → Type 0 };

    fn coordinates(&self, chunk: &Chunk) -> Coordinates
        requires span { IsSpan chunk.now.span.now }
        requires places { places self.now chunk.now.span.now }
        requires chunk { IsChunk chunk.now }
        ensures { HasCoordinates (chunk_u chunk.now) (chunk_v chunk.now) chunk.now.k
            result.us result.vs };
}

// As [`texels_by_coords`], compiled for any number of cells.
#[inline(never)]
fn many_texels<P: CoordSource, L: Ledger>(
    source: &P,
    vram: &Vram,
    texture: &Texture,
    chunk: &Chunk,
    steps: &mut Steps<L>,
) -> u16x16
    requires { CanRead texture.now chunk.now (P.places source.now chunk.now.span.now) vram.now }
    ensures texels { HasTexels texture.now chunk.now vram.now result }
    ensures cost { steps.new ≤ steps.old + texel_steps texture.now.page.depth * chunk.now.k }
{
    let at = source.coordinates(chunk);
    read_texels::<AllAtOnce, L>(vram, texture, &at, chunk.k, steps)
}

// As [`texels_by_coords`], for at most eight cells. It is compiled separately, so that the compiler may drop the other
// lanes.
#[inline(never)]
fn few_texels<P: CoordSource, L: Ledger>(
    source: &P,
    vram: &Vram,
    texture: &Texture,
    chunk: &Chunk,
    steps: &mut Steps<L>,
) -> u16x16
    requires can { CanRead texture.now chunk.now (P.places source.now chunk.now.span.now) vram.now }
    requires few { chunk.now.k ≤ 8 }
    ensures texels { HasTexels texture.now chunk.now vram.now result }
    ensures cost { steps.new ≤ steps.old + texel_steps texture.now.page.depth * chunk.now.k }
{
    let at = source.coordinates(chunk);
    read_few(vram, texture, &at, chunk.k, steps)
}

// Returns the texels of a chunk in the first `chunk.k` lanes. `source` must have the coordinates of its span. Costs at
// most `chunk.k` steps at depths 2 and 3, and twice as many at depths 0 and 1.
#[inline(always)]
pub(crate) fn texels_by_coords<P: CoordSource, L: Ledger>(
    source: &P,
    vram: &Vram,
    texture: &Texture,
    chunk: &Chunk,
    steps: &mut Steps<L>,
) -> u16x16
    requires { CanRead texture.now chunk.now (P.places source.now chunk.now.span.now) vram.now }
    ensures texels { HasTexels texture.now chunk.now vram.now result }
    ensures cost { steps.new ≤ steps.old + texel_steps texture.now.page.depth * chunk.now.k }
{
    if chunk.k <= HALF {
        few_texels(source, vram, texture, chunk, steps)
    } else {
        many_texels(source, vram, texture, chunk, steps)
    }
}

// Returns the CLUT indexes of a chunk's texels in the first `chunk.k` lanes. The texture must have depth 0. Costs at
// most `chunk.k` steps.
#[inline(always)]
pub(crate) fn indexes_by_coords<P: CoordSource, L: Ledger>(
    source: &P,
    vram: &Vram,
    texture: &Texture,
    chunk: &Chunk,
    steps: &mut Steps<L>,
) -> u8x16
    requires can { CanRead texture.now chunk.now (P.places source.now chunk.now.span.now) vram.now }
    requires depth { texture.now.page.depth ≡ 0 }
    ensures indexes { HasIndexes texture.now 16 chunk.now vram.now result }
    ensures cost { steps.new ≤ steps.old + chunk.now.k }
{
    let at = source.coordinates(chunk);
    indexes_of::<OneByOne, L>(vram, texture, &at, chunk.k, steps)
}
