// The drawing settings in the registers (psx-spx, "GPU Rendering Attributes").
ghost use Rattle.std.specs.Prelude.{◌≡◌, ◌≤◌, ◌<◌, ◌+◌};
ghost use Rattle.gp1_status.specs.Drawing.{IsArea, IsOffset, blend_mode, dithers, drawing_area, flips_in, offset_in};
ghost use Rattle.gp1_status.specs.Drawing.{page_in, window_in};

use crate::regs::Regs;
use px_num::{Box2, bit, bits, sign11};
use texture_page::{Page, Window};

/// The drawing offset in cells. It is added to each vertex.
#[derive(Clone, Copy, Debug, PartialEq, Eq)]
pub struct Offset {
    /// Columns, -1024 to 1023.
    pub x: i32,
    /// Rows, -1024 to 1023.
    pub y: i32,
}

/// In which directions the texture of a rectangle is flipped.
#[derive(Clone, Copy, Debug, PartialEq, Eq)]
pub struct Flips {
    /// Columns run from right to left.
    pub x: bool,
    /// Rows run from bottom to top.
    pub y: bool,
}

impl Regs {
    /// Returns the drawing offset of GP0(E5h).
    pub fn drawing_offset(&self) -> Offset
        ensures value { result ≡ offset_in self.now }
        ensures is { IsOffset result }
    {
        let offset = self.offset();
        Offset {
            x: sign11(offset),
            y: sign11(offset >> 11),
        }
    }

    /// Returns the drawing area of GP0(E3h) and GP0(E4h). Both corners belong to it. It has no cell if the second
    /// corner is left of the first or above it.
    #[tactic(auto, unfolding(crate::specs::Drawing::drawing_area))]
    pub fn drawing_area(&self) -> Box2
        ensures value { result ≡ drawing_area self.now }
        ensures inside { IsArea self.now.height result }
    {
        let _height = self.height();
        let (first, last) = (self.top_left(), self.bottom_right());
        Box2 {
            x1: (first & 0x3ff) as i32,
            y1: (first >> 10) as i32,
            x2: (last & 0x3ff) as i32,
            y2: (last >> 10) as i32,
        }
    }

    /// Returns the texture page of GP0(E1h).
    pub fn page_fields(&self) -> Page
        ensures value { result ≡ page_in self.now }
        ensures left { result.x ≤ 960 }
        ensures deep { result.depth ≤ 3 }
        ensures in_height { result.y + 255 < self.now.height }
        ensures top { result.y ≤ 768 }
    {
        let mode = self.e1();
        Page {
            x: ((mode & 0xf) * 64) as u16,
            y: ((mode >> 4 & 1) * 256 + (mode >> 11 & 1) * 512) as u16,
            depth: (mode >> 7 & 3) as u8,
        }
    }

    /// Returns the texture window of GP0(E2h).
    pub fn window_fields(&self) -> Window
        ensures { result ≡ window_in self.now }
    {
        let window = self.window();
        Window {
            mask_x: (window & 0x1f) as u8,
            mask_y: (window >> 5 & 0x1f) as u8,
            off_x: (window >> 10 & 0x1f) as u8,
            off_y: (window >> 15 & 0x1f) as u8,
        }
    }

    /// Returns the blending mode of GP0(E1h): 0 for B/2+F/2, 1 for B+F, 2 for B-F, 3 for B+F/4.
    pub fn blend_mode(&self) -> u8
        ensures value { result ≡ blend_mode self.now }
        ensures few { result ≤ 3 }
    {
        bits(self.e1(), 5, 2) as u8
    }

    /// Returns whether GP0(E1h) enables dithering.
    pub fn dithers(&self) -> bool
        ensures { result ≡ dithers self.now }
    {
        bit(self.e1(), 9)
    }

    /// Returns how the textures of rectangles are flipped, by GP0(E1h).
    pub fn flips(&self) -> Flips
        ensures { result ≡ flips_in self.now }
    {
        let mode = self.e1();
        Flips {
            x: bit(mode, 12),
            y: bit(mode, 13),
        }
    }
}
