// Numbers as text.
ghost use Rattle.std.specs.Prelude.{◌≡◌, ◌<◌, ◌≤◌, decimal, length};
ghost use Rattle.std.specs.Fmt.{signed_decimal};
ghost use Rattle.packet_text.specs.Number.{word_text, cell_text, address_text, hex_digit};

use itoa::Buffer;

/// Returns a word in eight hexadecimal digits, lower case.
#[tactic(auto, unfolding(crate::specs::Number::word_text))]
pub fn hex_digits(word: u32) -> [u8; 8]
    ensures { result ≡ word_text word }
{
    let mut digits = [0u8; 8];
    let mut rest = word;
    for i in 0..8 {
        digits[7 - i] = digit(rest % 16);
        rest /= 16;
    }
    digits
}

/// Returns a cell in four hexadecimal digits, lower case.
#[tactic(auto, unfolding(crate::specs::Number::cell_text))]
pub(crate) fn cell_digits(cell: u16) -> [u8; 4]
    ensures { result ≡ cell_text cell }
{
    let mut digits = [0u8; 4];
    let mut rest = cell as u32;
    for i in 0..4 {
        digits[3 - i] = digit(rest % 16);
        rest /= 16;
    }
    digits
}

/// Returns the low 24 bits of an address in six hexadecimal digits, lower case.
#[tactic(auto, unfolding(crate::specs::Number::address_text))]
pub fn address_digits(address: u32) -> [u8; 6]
    ensures { result ≡ address_text address }
{
    let mut digits = [0u8; 6];
    let mut rest = address;
    for i in 0..6 {
        digits[5 - i] = digit(rest % 16);
        rest /= 16;
    }
    digits
}

fn digit(n: u32) -> u8
    requires { n < 16 }
    ensures { result ≡ hex_digit n }
{
    if n < 10 {
        b'0' + n as u8
    } else {
        b'a' + (n as u8 - 10)
    }
}

/// Writes a number to `buffer` in decimal digits and returns them.
pub fn decimal_text(buffer: &mut Buffer, n: u64) -> &[u8]
    ensures text { result.now ≡ decimal n }
    ensures fits { length result.now ≤ 20 }
{
    buffer.format(n).as_bytes()
}

/// Writes a signed number to `buffer` in decimal digits and returns them.
pub(crate) fn signed_text<'a>(buffer: &'a mut Buffer, n: &i32) -> &'a [u8]
    ensures text { result.now ≡ signed_decimal n.now }
    ensures fits { length result.now ≤ 11 }
{
    buffer.format(*n).as_bytes()
}
