// Textures, the coordinates of texels, and one texel.
ghost use Rattle.std.specs.Prelude.{◌≡◌, ◌≤◌, ◌<◌, ◌+◌};
ghost use Rattle.px_num.specs.Height.{short_height};
ghost use Rattle.vram_store.specs.Vram.{at, height_of};
ghost use Rattle.texel_lanes.specs.Texture.{HasPage, IsTexture, texel, texel_steps};

use px_num::Cell;
use std::simd::prelude::*;
use std::sync::ledger::Ledger;
use texture_page::{Page, Window, clut_cell, index_of, texel_cell};
use vram_store::{Steps, Vram};

/// A texture: page, window, CLUT, and whether it is drawn raw.
#[derive(Clone, Copy)]
pub struct Texture {
    /// The position of its texels in video memory, and the number of bits of each.
    pub page: Page,
    /// The texture window: the part of the page that is repeated.
    pub window: Window,
    /// The CLUT attribute: bits 0 to 5 are the CLUT's column divided by 16, bits 6 to 14 its row. Bit 15 is
    /// ignored.
    pub clut: u16,
    /// Whether texels are drawn unmodulated (raw texture).
    pub raw: bool,
}

/// The coordinates of sixteen texels within their page.
#[derive(Clone, Copy)]
pub struct Coordinates {
    /// Their columns, at most 255.
    pub us: u16x16,
    /// Their rows, at most 255.
    pub vs: u16x16,
}

// Returns a cell of a CLUT. Its row must be one of the first 512.
fn clut_entry<L: Ledger>(vram: &Vram, cell: Cell, steps: &mut Steps<L>) -> u16
    requires in_row { cell.x < 1024 }
    requires in_height { cell.y < short_height }
    ensures value { result ≡ at vram.now cell.x cell.y }
    ensures cost { steps.new ≤ steps.old + 1 }
{
    let _height = vram.height();
    vram.get(cell.x, cell.y, steps)
}

/// Returns the texel at column `u` and row `v` of the page. Page and window must be within their limits, and all rows
/// of the page in video memory. Costs at most one step at depths 2 and 3, and two at depths 0 and 1.
#[tactic(auto, unfolding(crate::specs::Texture::texel))]
pub fn read_texel<L: Ledger>(
    vram: &Vram,
    texture: &Texture,
    u: u8,
    v: u8,
    steps: &mut Steps<L>,
) -> u16
    requires texture { IsTexture texture.now }
    requires page { HasPage (height_of vram.now) texture.now }
    ensures value { result ≡ texel texture.now u v vram.now }
    ensures cost { steps.new ≤ steps.old + texel_steps texture.now.page.depth }
{
    let cell = texel_cell(&texture.page, &texture.window, u, v);
    let h = vram.get(cell.x, cell.y, steps);
    if texture.page.depth < 2 {
        let index = index_of(&texture.page, &texture.window, u, h);
        clut_entry(vram, clut_cell(texture.clut, index), steps)
    } else {
        h
    }
}
