// The cells of up to sixteen texels.
ghost use Rattle.std.specs.Prelude.{◌≡◌, ◌≤◌, ◌<◌, ◌+◌, ◌%◌, length, slice_index};
ghost use Rattle.px_num.specs.Lanes.{EachLane};
ghost use Rattle.texture_page.specs.Page.{IsPage, windowed, column};
ghost use Rattle.texel_lanes.specs.Texture.{IsTexture};
ghost use Rattle.texel_lanes.specs.Texels.{lane_place, AreAcross, AreCoordinates};

use crate::Texture;
use crate::texture::Coordinates;
use px_num::lanes::{add, and, low_bits, or, shifted_down, splat};
use std::simd::prelude::*;
use texture_page::Page;

// Applies the window's mask and offset of one direction to sixteen coordinates. Most windows have the mask 0.
#[inline(always)]
#[tactic(auto, unfolding(texture_page::specs::Page::windowed), using(crate::proofs::ContiguousLemmas::open_window))]
fn under_window(mask: u8, off: u8, coordinates: u16x16) -> u16x16
    requires mask { mask ≤ 31 }
    requires off { off ≤ 31 }
    requires coordinates { AreCoordinates coordinates }
    ensures coordinates { AreCoordinates result }
    ensures value { EachLane (λ i. slice_index result i ≡ windowed mask off (slice_index coordinates i)) }
{
    if mask == 0 {
        return coordinates;
    }
    or(
        and(coordinates, splat(255 - mask as u16 * 8)),
        splat((off & mask) as u16 * 8),
    )
}

// Returns the columns of the texels' cells, counted from the page's first cell.
#[inline(always)]
fn columns(depth: u8, across: u16x16) -> u16x16
    requires long { length across ≡ 16 }
    requires low { EachLane (λ i. slice_index across i ≤ 255) }
    ensures long { length result ≡ 16 }
    ensures value { EachLane (λ i. slice_index result i ≡ column depth (slice_index across i)) }
    ensures low { EachLane (λ i. slice_index result i ≤ 255) }
{
    match depth {
        0 => shifted_down(across, 2),
        1 => shifted_down(across, 1),
        _ => across,
    }
}

#[inline(always)]
fn texel_columns(page: &Page, across: u16x16) -> u16x16
    requires page { IsPage page.now }
    requires long { length across ≡ 16 }
    requires low { EachLane (λ i. slice_index across i ≤ 255) }
    ensures long { length result ≡ 16 }
    ensures value { EachLane (λ i. slice_index result i
        ≡ (page.now.x + column page.now.depth (slice_index across i)) % 1024) }
{
    low_bits(add(splat(page.x), columns(page.depth, across)), 10)
}

#[inline(always)]
fn texel_rows(page: &Page, down: u16x16) -> u16x16
    requires page { IsPage page.now }
    requires long { length down ≡ 16 }
    requires low { EachLane (λ i. slice_index down i ≤ 255) }
    ensures long { length result ≡ 16 }
    ensures value { EachLane (λ i. slice_index result i ≡ page.now.y + slice_index down i) }
{
    add(splat(page.y), down)
}

/// The cells of sixteen texels.
#[derive(Clone, Copy)]
pub struct TexelCells {
    /// The texels' columns after the window, counted from the page's first texel.
    pub across: u16x16,
    /// The columns of the texels' cells in video memory.
    pub xs: u16x16,
    /// The rows of the texels' cells in video memory.
    pub ys: u16x16,
}

/// Returns the cells of the texels at coordinates `at`.
#[inline(always)]
pub fn texel_cells_of(texture: &Texture, at: &Coordinates) -> TexelCells
    requires texture { IsTexture texture.now }
    requires across { AreCoordinates at.now.us }
    requires down { AreCoordinates at.now.vs }
    ensures long { (length result.across ≡ 16) × (length result.xs ≡ 16) × (length result.ys ≡ 16) }
    ensures across { AreAcross texture.now at.now result.across }
    ensures low { EachLane (λ i. slice_index result.across i ≤ 255) }
    ensures column { EachLane (λ i. slice_index result.xs i ≡ (lane_place texture.now at.now i).x) }
    ensures row { EachLane (λ i. slice_index result.ys i ≡ (lane_place texture.now at.now i).y) }
    ensures in_row { EachLane (λ i. slice_index result.xs i < 1024) }
    ensures in_page { EachLane (λ i. slice_index result.ys i ≤ texture.now.page.y + 255) }
{
    let window = texture.window;
    let across = under_window(window.mask_x, window.off_x, at.us);
    let down = under_window(window.mask_y, window.off_y, at.vs);
    TexelCells {
        across,
        xs: texel_columns(&texture.page, across),
        ys: texel_rows(&texture.page, down),
    }
}
