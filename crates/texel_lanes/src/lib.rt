//! The texels of a chunk of up to sixteen pixels: their cells in video memory and their values.
//!
//! A texel has coordinates within its page. Texture window and page map them to a cell. For texels of four and eight
//! bits, the cell contains an index, and the texel is the CLUT entry at this index.
//!
//! The functions read up to sixteen texels at once. All reads are from video memory as it is before the first pixel
//! of the chunk is written. `overlap_guard` decides whether a chunk may be read so.
#![tactic(auto)]

mod clut;
mod contiguous;
mod gather;
mod indexes;
mod read;
mod texel_cells;
mod texture;

pub use clut::{Table, clut_row, entries_at, gather_entries, sixteen_entries, table_of};
pub use contiguous::{column_of, indexes_of, sixteen_indexes, sixteen_octets};
pub use gather::{AllAtOnce, Gather, HalfAtOnce, OneByOne};
pub use read::{read_few, read_texels};
pub use texel_cells::{TexelCells, texel_cells_of};
pub use texture::{Coordinates, Texture, read_texel};
