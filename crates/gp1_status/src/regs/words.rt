// The registers as words, and the bits that each word may have.
ghost use Rattle.std.specs.Prelude.{◌≡◌, MatchOption, IfSome, true, false};
ghost use Rattle.px_num.specs.Height.{IsHeight, height_of_profile};
ghost use Rattle.gp1_status.specs.Words.{is_allowed, AreAllowed, registers_in, words_of};

use crate::regs::Regs;
use px_num::{bit, bits, height_of_profile};

impl Regs {
    /// Returns the registers as thirteen words: the values of E1h to E6h, the flags (bit 0 the interrupt bit, bit 1
    /// whether the display is off), the DMA direction, the start of the display, its two ranges, its mode, and the
    /// latch.
    pub fn to_words(&self) -> [u32; 13]
        ensures { result ≡ words_of self.now }
    {
        [
            self.e1,
            self.window,
            self.top_left,
            self.bottom_right,
            self.offset,
            self.mask as u32,
            self.irq as u32 + self.display_off as u32 * 2,
            self.direction as u32,
            self.start,
            self.hrange,
            self.vrange,
            self.mode as u32,
            self.held,
        ]
    }

    /// Returns the registers with these words, as [`to_words`](Regs::to_words) returns them. Video memory has 1024 rows
    /// if `tall`, else 512. Returns `None` exactly if a word has a bit that it may not have.
    pub fn from_words(words: &[u32; 13], tall: bool) -> Option<Regs>
        ensures exact { MatchOption result (AreAllowed (height_of_profile tall) words.now → ⊥)
            (λ regs. (regs ≡ registers_in (height_of_profile tall) words.now)
            × AreAllowed (height_of_profile tall) words.now) }
        ensures again { IfSome result (λ regs. words_of regs ≡ words.now) }
    {
        let height = height_of_profile(tall);
        if !allows_all(height, words) {
            return None;
        }
        Some(Regs {
            e1: words[0],
            window: words[1],
            top_left: words[2],
            bottom_right: words[3],
            offset: words[4],
            mask: words[5] as u8,
            irq: bit(words[6], 0),
            display_off: bit(words[6], 1),
            direction: words[7] as u8,
            start: words[8],
            hrange: words[9],
            vrange: words[10],
            mode: words[11] as u8,
            held: words[12],
            height,
        })
    }
}

/// Returns whether `word` has only bits that word number `place` of the thirteen, counted from 0, may have. `height` is
/// the height of video memory, 512 or 1024 rows.
pub fn allows(height: u16, place: usize, word: u32) -> bool
    requires { IsHeight height }
    ensures { result ≡ is_allowed height place word }
{
    let rows = height as u32;
    match place {
        0 => word < 0x4000 && 512 * bits(word, 11, 1) + 512 <= rows,
        1 => word < 0x10_0000,
        2 => word < 1024 * rows,
        3 => word < 1024 * rows,
        4 => word < 0x40_0000,
        5 => word < 4,
        6 => word < 4,
        7 => word < 4,
        8 => word < 1024 * rows,
        9 => word < 0x100_0000,
        10 => word < 0x10_0000,
        11 => word < 0x100,
        _ => true,
    }
}

/// Returns whether every word has only bits that it may have.
pub(crate) fn allows_all(height: u16, words: &[u32; 13]) -> bool
    requires { IsHeight height }
    ensures yes { result ≡ true → AreAllowed height words.now }
    ensures no { result ≡ false → AreAllowed height words.now → ⊥ }
{
    for i in 0..13 {
        if !allows(height, i, words[i]) {
            return false;
        }
    }
    true
}
