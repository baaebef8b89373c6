// Fields of words.
ghost use Rattle.std.specs.Prelude.{◌≡◌, ◌==◌, ◌/◌, ◌%◌, ◌^◌, ◌<◌};
ghost use Rattle.std.specs.Int.{bit_at};

/// Returns whether bit `k` of `word` is 1. `k` is below 32.
pub fn bit(word: u32, k: u32) -> bool
    requires { k < 32 }
    ensures { result ≡ (bit_at word k == 1) }
{
    word >> k & 1 == 1
}

/// Returns the `width` bits of `word` from bit `low` on, as a number. Both are below 32.
pub fn bits(word: u32, low: u32, width: u32) -> u32
    requires low { low < 32 }
    requires width { width < 32 }
    ensures value { result ≡ word / 2 ^ low % 2 ^ width }
    ensures fits { result < 2 ^ width }
{
    (word >> low) % (1 << width)
}
