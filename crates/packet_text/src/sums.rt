// The lines of digests.
ghost use Rattle.std.specs.Prelude.{◌≡◌};
ghost use Rattle.dev_io.specs.Device.{Writes, side};
ghost use Rattle.hex.specs.Hex.{encode_lower};
ghost use Rattle.packet_text.specs.Sums.{frame_sum_line, vram_sum_line};

use crate::number::decimal_text;
use dev_io::{Failed, Sink, write_pieces};
use hex::encode_to_slice;
use itoa::Buffer;

/// Writes the line of a picture's digest: the event after which it is displayed, its width in pixels and height in
/// rows, all in decimal, and the digest in 64 hexadecimal digits.
#[tactic(auto, unfolding(crate::specs::Sums::frame_sum_line))]
pub fn write_frame_sum<K: Sink>(
    out: &mut K,
    event: u64,
    shape: (u16, u16),
    digest: &[u8; 32],
) -> Result<(), Failed>
    ensures { Writes (side K.held K.faults) out.old out.new (frame_sum_line event shape digest.now) result }
{
    let mut of_event = Buffer::new();
    let event = decimal_text(&mut of_event, event);
    let mut of_width = Buffer::new();
    let width = decimal_text(&mut of_width, shape.0 as u64);
    let mut of_height = Buffer::new();
    let height = decimal_text(&mut of_height, shape.1 as u64);
    let digits = digest_digits(digest);
    write_pieces(
        out,
        &[event, b" ", width, b" ", height, b" ", &digits, b"\n"],
    )
}

/// Writes the line of the digest of video memory: `vram ` and 64 hexadecimal digits.
#[tactic(auto, unfolding(crate::specs::Sums::vram_sum_line))]
pub fn write_vram_sum<K: Sink>(out: &mut K, digest: &[u8; 32]) -> Result<(), Failed>
    ensures { Writes (side K.held K.faults) out.old out.new (vram_sum_line digest.now) result }
{
    write_pieces(out, &[b"vram ", &digest_digits(digest), b"\n"])
}

// Returns a digest in hexadecimal digits, lower case.
fn digest_digits(digest: &[u8; 32]) -> [u8; 64]
    ensures { result ≡ encode_lower digest.now }
{
    let mut digits = [0u8; 64];
    match encode_to_slice(digest.as_slice(), &mut digits) {
        Ok(()) => digits,
        Err(_) => unreachable!(),
    }
}
