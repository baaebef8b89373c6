// The items of the stream.
use crate::words::Words;

/// One unit cut from the stream of GP0 words: a packet, or a part of a load or of a polyline.
#[derive(Drop)]
pub enum Item {
    /// A plain packet, or the first words of a load or of a polyline.
    Whole {
        /// Its words, the command word first.
        words: Words,
    },
    /// One more segment of a polyline, from its last vertex to a new one.
    Joint {
        /// The command word of the polyline.
        command: u32,
        /// The colour word of the last vertex; the command word if the polyline is not shaded.
        from_color: u32,
        /// The vertex word of the last vertex.
        from_vertex: u32,
        /// The colour word of the new vertex; the command word if the polyline is not shaded.
        to_color: u32,
        /// The vertex word of the new vertex.
        to_vertex: u32,
    },
    /// The end of a polyline.
    Finish {
        /// The end word.
        word: u32,
    },
    /// Two cells (16-bit VRAM halfwords) of a load.
    Pixels {
        /// The data word, the first cell in its low half.
        word: u32,
    },
}
