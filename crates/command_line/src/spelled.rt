// Numbers in arguments.
ghost use Rattle.std.specs.Prelude.{◌≡◌, ◌↔◌, ◌≤◌, ◌<◌, ℕ, decimal, IsTrue, MatchOption};

use itoa::Buffer;

/// Returns the number below 1024 that the text spells in decimal, without sign and leading zeros.
pub(crate) fn coordinate_of(text: &str) -> Option<u16>
    ensures { MatchOption result ((n : ℕ) → n < 1024 → text.now ≡ decimal n → ⊥)
        (λ n. (n < 1024) × (text.now ≡ decimal n)) }
{
    match text.parse::<u32>() {
        Ok(n) => {
            if is_coordinate(text, n) {
                Some(n as u16)
            } else {
                None
            }
        }
        Err(_) => None,
    }
}

// Whether the text spells `n`, and `n` is below 1024.
fn is_coordinate(text: &str, n: u32) -> bool
    ensures { IsTrue result ↔ ((n < 1024) × (text.now ≡ decimal n)) }
{
    let few = n < 1024;
    let is_so = is_spelling(text, n);
    few && is_so
}

/// Returns the number from 1 to `most` that the text spells in decimal, without sign and leading zeros.
pub(crate) fn count_of(text: &str, most: u32) -> Option<u32>
    ensures { MatchOption result ((n : ℕ) → 1 ≤ n → n ≤ most → text.now ≡ decimal n → ⊥)
        (λ n. (1 ≤ n) × (n ≤ most) × (text.now ≡ decimal n)) }
{
    match text.parse::<u32>() {
        Ok(n) => {
            if is_count(text, n, most) {
                Some(n)
            } else {
                None
            }
        }
        Err(_) => None,
    }
}

// Whether the text spells `n`, and `n` is from 1 to `most`.
fn is_count(text: &str, n: u32, most: u32) -> bool
    ensures { IsTrue result ↔ ((1 ≤ n) × (n ≤ most) × (text.now ≡ decimal n)) }
{
    let some = 1 <= n;
    let few = n <= most;
    let spelled = is_spelling(text, n);
    some && few && spelled
}

// Whether the text is the decimal spelling of `n`, which has no sign and no leading zero.
fn is_spelling(text: &str, n: u32) -> bool
    ensures { IsTrue result ↔ (text.now ≡ decimal n) }
{
    let mut buffer = Buffer::new();
    is_same(text, buffer.format(n))
}

/// Whether both texts are equal.
pub(crate) fn is_same(a: &str, b: &str) -> bool
    ensures { IsTrue result ↔ (a.now ≡ b.now) }
{
    a == b
}
