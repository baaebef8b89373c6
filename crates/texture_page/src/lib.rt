//! Addresses of the texels of a texture page and of CLUT entries in video memory.
//!
//! The functions compute addresses and access no cell. A page starts at any column up to 960 and any row up to 768,
//! so pages of video memory of 1024 rows are included.
#![tactic(auto)]

mod address;
pub mod laws;
mod page;

pub use address::{clut_cell, index_of, texel_cell};
pub use page::{Page, Window};
