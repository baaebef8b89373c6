//! The fields of GP0 packets (psx-spx, "GPU Render Polygon Commands", "GPU Render Line Commands", "GPU Render Rectangle
//! Commands", "GPU Rendering Attributes" and "GPU Memory Transfer Commands"), and the note of an item.
//!
//! `decode` reads an item's fields and changes nothing. Coordinates are without the drawing offset. Masks and wraps
//! that depend on no register are applied.
#![tactic(auto)]

mod decoder;
mod field;
pub mod laws;
mod line;
mod note;
mod packet;
mod polygon;
mod rectangle;
mod transfer;

pub use decoder::{
    decode, decode_environment, decode_line, decode_polygon, decode_rectangle, decode_whole,
    sets_register,
};
pub use note::{Note, class_of, class_of_word, head_of};
pub use packet::Packet;
pub use polygon::{Carried, carried_by};
