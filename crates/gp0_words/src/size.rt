// The size word of a copy, load or store.
ghost use Rattle.std.specs.Prelude.{◌≡◌, ◌≤◌};
ghost use Rattle.gp0_words.specs.Sizes.{width_of, height_of, data_words_of};

/// The most data words that a load has.
pub(crate) const MOST_DATA_WORDS: u32 = 262_144;

/// Returns the width in cells (16-bit VRAM halfwords), 1 to 1024: bits 0 to 9 of the size word, and 1024 for 0.
pub fn width_of(size: u32) -> u16
    ensures value { result ≡ width_of size }
    ensures some { 1 ≤ result }
    ensures most { result ≤ 1024 }
{
    (((size & 0xffff) + 1023) % 1024 + 1) as u16
}

/// Returns the height in rows, 1 to 512: bits 16 to 24 of the size word, and 512 for 0.
pub fn height_of(size: u32) -> u16
    ensures value { result ≡ height_of size }
    ensures some { 1 ≤ result }
    ensures most { result ≤ 512 }
{
    (((size >> 16) + 511) % 512 + 1) as u16
}

/// Returns how many data words the load with this size word has. Each contains two cells.
pub(crate) fn data_count(size: u32) -> u32
    ensures { result ≡ data_words_of size }
{
    let pixels = u32::from(width_of(size)) * u32::from(height_of(size));
    (pixels + 1) / 2
}
