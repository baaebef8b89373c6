// The status word.
ghost use Rattle.std.specs.Prelude.{◌≡◌, ◌+◌, ◌*◌, ◌%◌, ◌^◌, ◌<◌};
ghost use Rattle.gp1_status.specs.Registers.{bit, status_of, request_of};

use crate::regs::Regs;
use px_num::bits;

impl Regs {
    /// Returns the status word. `idle`: no GP0 packet, load or polyline is unfinished. `sending`: a store is open, so
    /// video memory is being sent to the CPU.
    pub fn status(&self, idle: bool, sending: bool) -> u32
        ensures { result ≡ status_of self.now idle sending }
    {
        let mode = u32::from(self.mode());
        let word = self.low_half();
        let word = join(word, bits(mode, 6, 1), 16);
        let word = join(word, bits(mode, 0, 2), 17);
        let word = join(word, bits(mode, 2, 4), 19);
        let word = join(word, u32::from(self.display_off()), 23);
        let word = join(word, u32::from(self.irq()), 24);
        let word = join(word, self.request(sending), 25);
        let word = join(word, u32::from(idle), 26);
        let word = join(word, u32::from(sending), 27);
        let word = join(word, u32::from(!sending), 28);
        join(word, u32::from(self.direction()), 29)
    }

    // Returns bits 0 to 15.
    fn low_half(&self) -> u32
        ensures value { result ≡
            self.now.e1 % 2 ^ 11 + self.now.mask * 2 ^ 11 + 1 * 2 ^ 13
            + bit self.now.mode 7 * 2 ^ 14 + bit self.now.e1 11 * 2 ^ 15 }
        ensures fits { result < 2 ^ 16 }
    {
        let word = bits(self.e1(), 0, 11);
        let word = join(word, u32::from(self.mask()), 11);
        let word = join(word, 1, 13);
        let word = join(word, bits(u32::from(self.mode()), 7, 1), 14);
        join(word, bits(self.e1(), 11, 1), 15)
    }

    // Returns bit 25, the DMA request.
    fn request(&self, sending: bool) -> u32
        ensures { result ≡ request_of self.now sending }
    {
        match self.direction() {
            0 => 0,
            1 => 1,
            2 => u32::from(!sending),
            _ => u32::from(sending),
        }
    }
}

// Returns `word` with `value` from bit `at` on. `word` must have only bits below `at`.
pub(crate) fn join(word: u32, value: u32, at: u32) -> u32
    requires at { at < 32 }
    requires below { word < 2 ^ at }
    requires fits { value * 2 ^ at < 2 ^ 32 }
    ensures { result ≡ word + value * 2 ^ at }
{
    value << at | word
}
