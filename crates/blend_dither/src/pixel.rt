// The colour of one pixel.
ghost use Rattle.std.specs.Prelude.{◌≡◌, ◌≤◌, ◌<◌, ◌^◌, slice_index_or, pos};
ghost use Rattle.blend_dither.specs.Color.{dither_offset, dither_offsets, IsShift, tone_of, tone_channel};
ghost use Rattle.blend_dither.specs.Color.{shifted_channel, red_of, green_of, blue_of, modulated_of, modulated_channel};
ghost use Rattle.blend_dither.specs.Color.{blended_of, blended_channel, packed, packed_pixel};

// The dither offsets of four rows of four cells, row by row.
const DITHER: [i8; 16] = [-4, 0, -3, 1, 2, -2, 3, -1, -3, 1, -4, 0, 3, -1, 2, -2];

/// Returns the dither offset of the cell (`x`, `y`), from -4 to 3. The offsets repeat every four rows and every four
/// columns (psx-spx, "GPU Rendering Attributes").
pub fn shift_at(x: u16, y: u16) -> i8
    ensures value { result ≡ dither_offset x y }
    ensures small { IsShift result }
{
    offset_at((4 * (y % 4) + x % 4) as usize)
}

/// Returns a 24-bit colour as a 15-bit halfword. The dither offset is added to each channel; the sum is clamped to 0
/// to 255 and divided by 8.
///
/// `shift` is the dither offset, from -4 to 3, and 0 without dither.
pub fn tone(color: u32, shift: i8) -> u16
    requires { IsShift shift }
    ensures value { result ≡ tone_of (red_of color) (green_of color) (blue_of color) shift }
    ensures low { result < 2 ^ 15 }
{
    pack_channels(
        tone_channel((color % 256) as u16, shift),
        tone_channel((color / 256 % 256) as u16, shift),
        tone_channel((color / 65536 % 256) as u16, shift),
    )
}

/// Returns a texel modulated by a colour (psx-spx, "GPU Rendering Attributes"; the exact integers are our own rule).
///
/// Each channel is `8 * texel * color / 128` plus the dither offset `shift`, clamped to 0 to 255 and divided by 8. So
/// the colour 808080h without dither leaves the channels unchanged. `shift` is from -4 to 3, and 0 without dither.
pub fn modulate(texel: u16, color: u32, shift: i8) -> u16
    requires { IsShift shift }
    ensures value { result ≡ modulated_of texel (red_of color) (green_of color) (blue_of color) shift }
    ensures low { result < 2 ^ 15 }
{
    pack_channels(
        modulate_channel(texel % 32, color % 256, shift),
        modulate_channel(texel / 32 % 32, color / 256 % 256, shift),
        modulate_channel(texel / 1024 % 32, color / 65536 % 256, shift),
    )
}

/// Returns the blend of a semi-transparent pixel `front` with a cell `back`, channel by channel (psx-spx, "GPU
/// Rendering Attributes"; the exact integers are our own rule).
///
/// `mode` is 0 for half the sum, 1 for the sum, 2 for `back` minus `front`, and 3 for `back` plus a quarter of
/// `front`. Half and quarter are rounded down. Results above 31 become 31, and those below 0 become 0.
pub fn blend(mode: u8, back: u16, front: u16) -> u16
    requires { mode ≤ 3 }
    ensures value { result ≡ blended_of mode back front }
    ensures low { result < 2 ^ 15 }
{
    pack_channels(
        blend_channel(mode, back % 32, front % 32),
        blend_channel(mode, back / 32 % 32, front / 32 % 32),
        blend_channel(mode, back / 1024 % 32, front / 1024 % 32),
    )
}

/// Returns bits 0 to 14 of `color`. Bit 15 is set if `high`, the texel's bit 15, or `forced`, bit 0 of the mask
/// setting, is true.
pub fn pack(color: u16, high: bool, forced: bool) -> u16
    ensures { result ≡ packed_pixel color high forced }
{
    color % 32768 + if high || forced { 32768 } else { 0 }
}

fn offset_at(place: usize) -> i8
    requires { place < 16 }
    ensures value { result ≡ slice_index_or dither_offsets place (pos 0) }
    ensures small { IsShift result }
{
    DITHER[place]
}

fn pack_channels(red: u16, green: u16, blue: u16) -> u16
    requires red { red < 32 }
    requires green { green < 32 }
    requires blue { blue < 32 }
    ensures value { result ≡ packed red green blue }
    ensures low { result < 2 ^ 15 }
{
    red + 32 * green + 1024 * blue
}

fn shift_channel(channel: u16, shift: i8) -> u16
    requires low { channel < 1024 }
    requires shift { IsShift shift }
    ensures value { result ≡ shifted_channel channel shift }
    ensures bound { result ≤ 255 }
{
    (channel as i16 + shift as i16).clamp(0, 255) as u16
}

fn tone_channel(channel: u16, shift: i8) -> u16
    requires low { channel < 1024 }
    requires shift { IsShift shift }
    ensures value { result ≡ tone_channel channel shift }
    ensures bound { result < 32 }
{
    shift_channel(channel, shift) / 8
}

fn modulate_channel(texel: u16, color: u32, shift: i8) -> u16
    requires texel { texel < 32 }
    requires color { color < 256 }
    requires shift { IsShift shift }
    ensures value { result ≡ modulated_channel texel color shift }
    ensures bound { result < 32 }
{
    tone_channel((8 * texel as u32 * color / 128) as u16, shift)
}

fn blend_channel(mode: u8, back: u16, front: u16) -> u16
    requires mode { mode ≤ 3 }
    requires back { back < 32 }
    requires front { front < 32 }
    ensures value { result ≡ blended_channel mode back front }
    ensures bound { result < 32 }
{
    match mode {
        0 => (back + front) / 2,
        1 => (back + front).min(31),
        2 => back.saturating_sub(front),
        _ => (back + front / 4).min(31),
    }
}
