// Sources and sinks: their bytes, and a count of faults that never falls.
ghost use Rattle.std.specs.Prelude.{◌≡◌, ◌≤◌, ◌<◌, List, ℕ, Option, length, IfOk, IfSome, OnErr};
ghost use Rattle.dev_io.specs.Device.{Rose, Gives, IsAtEnd, Accepts};

/// A source or a sink failed. This occurs only if the count of faults rose. The failed call read or appended nothing.
#[derive(Clone, Copy, Debug, PartialEq, Eq)]
pub struct Failed;

/// A source of bytes.
pub trait Source {
    /// The bytes left; `None` if contracts do not know them.
    ghost left: { Self → Option (List ℕ) };

    /// The number of failed calls, at most 2^64 - 1.
    ghost faults: { Self → ℕ };

    /// How many bytes it can return without waiting for any.
    ghost at_hand: { Self → ℕ };

    /// Writes the next bytes to the start of `buf` and returns their number. It is 0 only if no byte is left. On
    /// failure, nothing was read. `buf` must not be empty: a call that asks for nothing may wait for a byte.
    fn read(&mut self, buf: &mut [u8]) -> Result<usize, Failed>
        requires { 0 < length buf.old }
        ensures ok { IfOk result (λ n. Gives (left self.old) (left self.new) buf.new n) }
        ensures end { IfOk result (λ n. n ≡ 0 → 0 < length buf.new → IsAtEnd (left self.new)) }
        ensures failed { OnErr result (left self.new ≡ left self.old) }
        ensures cause { OnErr result (Rose (faults self.old) (faults self.new)) }
        ensures faults { faults self.old ≤ faults self.new };

    /// Returns how many bytes it can return without waiting for any. If contracts know the bytes left, it is at most
    /// their number.
    fn ready(&self) -> usize
        ensures at_hand { result ≡ at_hand self.now }
        ensures left { IfSome (left self.now) (λ bytes. result ≤ length bytes) };
}

/// A destination of bytes.
pub trait Sink {
    /// The bytes held; `None` if contracts do not know them.
    ghost held: { Self → Option (List ℕ) };

    /// The number of failed calls, at most 2^64 - 1.
    ghost faults: { Self → ℕ };

    /// Appends the first bytes of `piece` and returns their number, at least 1 unless `piece` is empty. On failure,
    /// nothing was appended.
    fn write(&mut self, piece: &[u8]) -> Result<usize, Failed>
        ensures ok { IfOk result (λ n. Accepts (held self.old) (held self.new) piece.now n) }
        ensures failed { OnErr result (held self.new ≡ held self.old) }
        ensures cause { OnErr result (Rose (faults self.old) (faults self.new)) }
        ensures faults { faults self.old ≤ faults self.new };
}
