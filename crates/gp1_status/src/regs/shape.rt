// The size of the displayed picture.
ghost use Rattle.std.specs.Prelude.{◌≡◌, ◌<◌, ◌≤◌, ◌^◌};
ghost use Rattle.gp1_status.specs.Shape.{cycles_of, width_of, lines_of, shape_of};

use crate::regs::Regs;
use px_num::{bit, bits};

impl Regs {
    /// Returns the width in pixels and the height in rows of the displayed picture, or `None` if one of them is 0.
    ///
    /// The width is the horizontal range in cycles, divided by the cycles of one pixel in this mode, rounded to a
    /// multiple of 4. The height is the vertical range in lines, doubled in the interlaced mode of 480 lines.
    pub fn shape(&self) -> Option<(u16, u16)>
        ensures { result ≡ shape_of self.now }
    {
        let mode = u32::from(self.mode());
        let width = width(self.hrange(), mode);
        let lines = lines(self.vrange(), mode);
        if width == 0 || lines == 0 {
            None
        } else {
            Some((width, lines))
        }
    }
}

fn cycles(mode: u32) -> u32
    ensures value { result ≡ cycles_of mode }
    ensures some { 4 ≤ result }
{
    if bit(mode, 6) {
        7
    } else {
        match bits(mode, 0, 2) {
            0 => 10,
            1 => 8,
            2 => 5,
            _ => 4,
        }
    }
}

fn width(hrange: u32, mode: u32) -> u16
    requires { hrange < 2 ^ 24 }
    ensures { result ≡ width_of hrange mode }
{
    let between = (hrange >> 12).saturating_sub(bits(hrange, 0, 12));
    ((between / cycles(mode) + 2) / 4 * 4) as u16
}

fn lines(vrange: u32, mode: u32) -> u16
    requires { vrange < 2 ^ 20 }
    ensures { result ≡ lines_of vrange mode }
{
    let lines = (vrange >> 10).saturating_sub(bits(vrange, 0, 10)) as u16;
    if bit(mode, 2) && bit(mode, 5) {
        2 * lines
    } else {
        lines
    }
}
