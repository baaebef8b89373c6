//! The colour arithmetic of pixels: dither, modulation of texels, blending and packing, for one pixel and for sixteen
//! at once.
//!
//! A colour is a word with red in bits 0 to 7, green in 8 to 15 and blue in 16 to 23; the bits above are ignored. A
//! halfword has red in bits 0 to 4, green in 5 to 9, blue in 10 to 14 and the mask bit in 15. Bit 15 of a halfword
//! argument is ignored. It is 0 in every result except that of [`pack`].
#![tactic(auto)]

mod lanes;
pub mod laws;
mod mean;
mod pixel;
mod sum;
mod wide;

pub use pixel::{blend, modulate, pack, shift_at, tone};
pub use wide::{
    blend_lanes, modulate_lanes, tone_lanes, undithered_modulate_lanes, undithered_tone_lanes,
};
