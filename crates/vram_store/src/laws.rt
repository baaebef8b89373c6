//! The law of chunks, as the contract of a function that does nothing.
ghost use Rattle.vram_store.specs.Chunk.{ChunkLaw};

/// A chunk may be read as a whole and stored at once if no pixel of it depends on what earlier pixels write. The
/// result equals drawing its cells one after another.
pub fn chunks_are_cells()
    ensures { ChunkLaw }
{}
