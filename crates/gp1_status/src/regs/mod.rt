// The registers: their values, and the words that write them.
ghost use Rattle.std.specs.Prelude.{◌≡◌, ◌+◌, ◌*◌, ◌^◌, ◌<◌, ◌≤◌, ◌/◌, ◌%◌, true};
ghost use Rattle.px_num.specs.Height.{short_height, IsHeight, height_of_profile, tall_height};
ghost use Rattle.gp1_status.specs.Registers.{reset, bit, info_of, opcode_of, env_of, page_of, gp1_of, is_clearing};

mod drawing;
mod shape;
mod status;
mod words;

pub use drawing::{Flips, Offset};
use px_num::{SHORT_HEIGHT, TALL_HEIGHT, bit, bits};
use std::marker::Model;
pub use words::allows;

/// The registers that GP0(E1h) to GP0(E6h) and GP1 write, the interrupt bit, the latch of the read port, and the height
/// of video memory. The height decides the width of the registers with a Y coordinate.
#[derive(Drop)]
pub struct Regs {
    pub(crate) e1: u32,
    pub(crate) window: u32,
    pub(crate) top_left: u32,
    pub(crate) bottom_right: u32,
    pub(crate) offset: u32,
    pub(crate) mask: u8,
    pub(crate) irq: bool,
    pub(crate) display_off: bool,
    pub(crate) direction: u8,
    pub(crate) start: u32,
    pub(crate) hrange: u32,
    pub(crate) vrange: u32,
    pub(crate) mode: u8,
    pub(crate) held: u32,
    pub(crate) height: u16,
}

impl Model for Regs {
    ghost use Rattle.gp1_status.specs.Registers.{Registers, KeepsWidths};
    ghost use Rattle.gp1_status.specs.View.{registers_of};

    ghost Value = { Registers };

    ghost view = { registers_of };

    ghost invariant = { λ r. KeepsWidths (registers_of r) };
}

impl Regs {
    /// Returns the state after a reset, with latch 0 and a height of 512 rows.
    pub fn new() -> Self
        ensures { result ≡ reset 0 short_height }
    {
        Regs {
            e1: 0,
            window: 0,
            top_left: 0,
            bottom_right: 0,
            offset: 0,
            mask: 0,
            irq: false,
            display_off: true,
            direction: 0,
            start: 0,
            hrange: 0xc0_0200,
            vrange: 0x4_0010,
            mode: 0,
            held: 0,
            height: SHORT_HEIGHT,
        }
    }

    /// Returns GP0(E1h), the draw mode: texture page, blending, dither and texture flips. Bit 11 is the page's second Y
    /// bit if video memory has 1024 rows, otherwise 0.
    pub fn e1(&self) -> u32
        ensures value { result ≡ self.now.e1 }
        ensures width { result < 2 ^ 14 }
        ensures page { 512 * bit result 11 + 512 ≤ self.now.height }
    {
        self.e1
    }

    /// Returns GP0(E2h), the texture window, 20 bits.
    pub fn window(&self) -> u32
        ensures value { result ≡ self.now.window }
        ensures width { result < 2 ^ 20 }
    {
        self.window
    }

    /// Returns GP0(E3h), the top left corner of the drawing area: X in bits 0 to 9, Y from bit 10 on.
    pub fn top_left(&self) -> u32
        ensures value { result ≡ self.now.top_left }
        ensures width { result < 1024 * self.now.height }
    {
        self.top_left
    }

    /// Returns GP0(E4h), the bottom right corner of the drawing area: X in bits 0 to 9, Y from bit 10 on.
    pub fn bottom_right(&self) -> u32
        ensures value { result ≡ self.now.bottom_right }
        ensures width { result < 1024 * self.now.height }
    {
        self.bottom_right
    }

    /// Returns GP0(E5h), the drawing offset: X in bits 0 to 10, Y in bits 11 to 21, both signed.
    pub fn offset(&self) -> u32
        ensures value { result ≡ self.now.offset }
        ensures width { result < 2 ^ 22 }
    {
        self.offset
    }

    /// Returns GP0(E6h), the mask setting. Bit 0: written cells get bit 15. Bit 1: cells with bit 15 are not
    /// overwritten.
    pub fn mask(&self) -> u8
        ensures value { result ≡ self.now.mask }
        ensures width { result < 4 }
    {
        self.mask
    }

    /// Returns the interrupt bit.
    pub fn irq(&self) -> bool
        ensures { result ≡ self.now.irq }
    {
        self.irq
    }

    /// Returns whether the display is off.
    pub fn display_off(&self) -> bool
        ensures { result ≡ self.now.display_off }
    {
        self.display_off
    }

    /// Returns the DMA direction: 0 off, 1 FIFO, 2 CPU to GP0, 3 GPUREAD to CPU.
    pub fn direction(&self) -> u8
        ensures value { result ≡ self.now.direction }
        ensures width { result < 4 }
    {
        self.direction
    }

    /// Returns GP1(05h), the top left corner of the display: X in bits 0 to 9, Y from bit 10 on.
    pub fn start(&self) -> u32
        ensures value { result ≡ self.now.start }
        ensures width { result < 1024 * self.now.height }
    {
        self.start
    }

    /// Returns GP1(06h), the horizontal range in cycles: X1 in bits 0 to 11, X2 in bits 12 to 23.
    pub fn hrange(&self) -> u32
        ensures value { result ≡ self.now.hrange }
        ensures width { result < 2 ^ 24 }
    {
        self.hrange
    }

    /// Returns GP1(07h), the vertical range in lines: Y1 in bits 0 to 9, Y2 in bits 10 to 19.
    pub fn vrange(&self) -> u32
        ensures value { result ≡ self.now.vrange }
        ensures width { result < 2 ^ 20 }
    {
        self.vrange
    }

    /// Returns GP1(08h), the display mode, 8 bits.
    pub fn mode(&self) -> u8
        ensures { result ≡ self.now.mode }
    {
        self.mode
    }

    /// Returns the latch: the word that a read of GPUREAD returns if no store is open.
    pub fn held(&self) -> u32
        ensures { result ≡ self.now.held }
    {
        self.held
    }

    /// Returns the height of video memory in rows: 512 or 1024.
    pub fn height(&self) -> u16
        ensures value { result ≡ self.now.height }
        ensures known { IsHeight result }
    {
        self.height
    }

    /// Returns whether video memory has 1024 rows.
    pub fn is_tall(&self) -> bool
        ensures { self.now.height ≡ height_of_profile result }
    {
        self.height == TALL_HEIGHT
    }

    /// Returns what GP1(10h) puts into the latch for the low four bits of `index`: the values of E2h to E5h for 2 to 5,
    /// the GPU version 2 for 7, and 0 for 8. Returns `None` for all others: the latch stays.
    pub fn info(&self, index: u32) -> Option<u32>
        ensures { result ≡ info_of self.now index }
    {
        match bits(index, 0, 4) {
            2 => Some(self.window),
            3 => Some(self.top_left),
            4 => Some(self.bottom_right),
            5 => Some(self.offset),
            7 => Some(2),
            8 => Some(0),
            _ => None,
        }
    }

    /// Sets the height to 1024 rows. All values stay. From then on, writes can set bit 11 of the draw mode, and the
    /// tenth bit of Y in the drawing area and the display start.
    pub fn set_tall(&mut self)
        ensures { self.new ≡ record self.old { height = tall_height } }
    {
        self.height = TALL_HEIGHT;
    }

    /// Sets the interrupt bit, as GP0(1Fh) does.
    pub fn raise(&mut self)
        ensures { self.new ≡ record self.old { irq = true } }
    {
        self.irq = true;
    }

    /// Sets the latch.
    pub fn latch(&mut self, word: u32)
        ensures { self.new ≡ record self.old { held = word } }
    {
        self.held = word;
    }

    /// Writes register 1 to 6 of the drawing environment, as GP0(E1h) to GP0(E6h) do. Ignores bits that the register
    /// does not have.
    pub fn env(&mut self, index: u8, value: u32)
        requires low { 1 ≤ index }
        requires high { index ≤ 6 }
        ensures { self.new ≡ env_of self.old index value }
    {
        match index {
            1 => {
                self.e1 = bits(value, 0, 11)
                    | self.high_page_bit(value) << 11
                    | bits(value, 12, 2) << 12;
            }
            2 => self.window = bits(value, 0, 20),
            3 => self.top_left = self.place(value),
            4 => self.bottom_right = self.place(value),
            5 => self.offset = bits(value, 0, 22),
            _ => self.mask = bits(value, 0, 2) as u8,
        }
    }

    /// Writes the texture page attribute of a polygon into the draw mode: bits 0 to 8, and bit 11 if video memory has
    /// 1024 rows, otherwise 0 there. All other bits stay.
    pub fn page(&mut self, attribute: u16)
        ensures { self.new ≡ record self.old { e1 = page_of self.old.height attribute self.old.e1 } }
    {
        let attribute = u32::from(attribute);
        self.e1 = bits(attribute, 0, 9)
            | bits(self.e1, 9, 2) << 9
            | self.high_page_bit(attribute) << 11
            | (self.e1 >> 12) << 12;
    }

    /// Executes a word of GP1. Its opcode is bits 24 to 29; unknown opcodes have no effect. What opcodes 00h and 01h do
    /// to packets and transfers is outside the registers: see [`clears`].
    pub fn gp1(&mut self, word: u32)
        ensures { self.new ≡ gp1_of self.old word }
    {
        match opcode(word) {
            0x00 => self.reset(),
            0x02 => self.irq = false,
            0x03 => self.display_off = bit(word, 0),
            0x04 => self.direction = bits(word, 0, 2) as u8,
            0x05 => self.start = self.place(word),
            0x06 => self.hrange = bits(word, 0, 24),
            0x07 => self.vrange = bits(word, 0, 20),
            0x08 => self.mode = bits(word, 0, 8) as u8,
            0x10..=0x1f => {
                if let Some(answer) = self.info(word) {
                    self.held = answer;
                }
            }
            _ => {}
        }
    }

    // Resets everything except the latch and the height.
    fn reset(&mut self)
        ensures { self.new ≡ reset self.old.held self.old.height }
    {
        *self = Regs {
            held: self.held,
            height: self.height,
            ..Regs::new()
        };
    }

    // Returns bit 11 of `word` if video memory has 1024 rows, otherwise 0.
    fn high_page_bit(&self, word: u32) -> u32
        ensures { result ≡ word / 2 ^ 11 % (self.now.height / 512) }
    {
        if self.height == SHORT_HEIGHT {
            0
        } else if self.height == TALL_HEIGHT {
            bits(word, 11, 1)
        } else {
            (word >> 11) % u32::from(self.height / 512)
        }
    }

    // Returns the X and Y of `word`, the Y modulo the height.
    fn place(&self, word: u32) -> u32
        ensures { result ≡ word % (1024 * self.now.height) }
    {
        if self.height == SHORT_HEIGHT {
            bits(word, 0, 19)
        } else {
            word % (1024 * u32::from(self.height))
        }
    }
}

/// Returns whether a word of GP1 ends an unfinished packet, load, polyline and store: opcodes 00h and 01h.
pub fn clears(word: u32) -> bool
    ensures { result ≡ is_clearing word }
{
    opcode(word) <= 1
}

// Returns bits 24 to 29 of a word of GP1.
fn opcode(word: u32) -> u32
    ensures { result ≡ opcode_of word }
{
    bits(word, 24, 6)
}
