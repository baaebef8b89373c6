// The generated packets of a demo.
ghost use Rattle.std.specs.Prelude.{◌≡◌, ◌<◌};
ghost use Rattle.demo_play.specs.Demo.{drawn, after_draws, length_of, word_of, packet};

use gp0_words::Words;

/// The opcodes of the packets, in turn.
const OPCODES: [u32; 8] = [0x02, 0x20, 0x38, 0x24, 0x64, 0x40, 0x80, 0x3e];

/// The number of words of each.
const LENGTHS: [u32; 8] = [3, 4, 8, 7, 4, 3, 4, 12];

/// A generator of packets: a linear congruential generator with the state `number`.
#[derive(Drop)]
pub struct Generator {
    number: u32,
}

impl Generator {
    /// Creates a generator with the state `number`.
    pub fn new(number: u32) -> Generator
        ensures { result.number ≡ number }
    {
        Generator { number }
    }

    /// Returns packet `k`. Each word takes one draw.
    pub fn packet(&mut self, k: u32) -> Words
        ensures words { result ≡ packet k self.old.number }
        ensures number { self.new.number ≡ after_draws (length_of k) self.old.number }
    {
        let turn = (k % 8) as usize;
        let mut words = Words::new();
        for j in 0..LENGTHS[turn] {
            let draw = self.draw();
            words.push(word_of(OPCODES[turn], j, draw));
        }
        words
    }

    fn draw(&mut self) -> u32
        ensures number { self.new.number ≡ drawn self.old.number }
        ensures value { result ≡ self.new.number }
    {
        self.number = self
            .number
            .wrapping_mul(1_664_525)
            .wrapping_add(1_013_904_223);
        self.number
    }
}

/// Returns word `j` of a packet, from its draw. Word 0 has the opcode and the draw's low 24 bits; others have the low
/// nine bits of each half of the draw.
fn word_of(opcode: u32, j: u32, draw: u32) -> u32
    requires { opcode < 256 }
    ensures { result ≡ word_of opcode j draw }
{
    if j == 0 {
        opcode << 24 | draw & 0xff_ffff
    } else {
        (draw >> 16 & 0x1ff) << 16 | draw & 0x1ff
    }
}
