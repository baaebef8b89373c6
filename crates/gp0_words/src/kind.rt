// The form of a packet, by its first word.
ghost use Rattle.std.specs.Prelude.{◌≡◌};
ghost use Rattle.gp0_words.specs.Kinds.{kind_of, start_len, first_len_of};
ghost use Rattle.gp0_words.specs.Kinds.{polygon_len_of, rectangle_len_of, line_kind_of, is_end};

use px_num::{bit, bits};

/// The form of a packet, by its first word.
#[derive(Clone, Copy)]
pub enum Kind {
    /// One item of `len` words.
    Plain { len: usize },
    /// Three words, then data words.
    Load,
    /// The first two vertices of a polyline, then joints, then an end word.
    Polyline { shaded: bool },
}

fn polygon_len(word: u32) -> usize
    ensures { result ≡ polygon_len_of word }
{
    let vertices = if bit(word, 27) { 4 } else { 3 };
    let textured = usize::from(bit(word, 26));
    if bit(word, 28) {
        vertices * (2 + textured)
    } else {
        vertices * (1 + textured) + 1
    }
}

fn rectangle_len(word: u32) -> usize
    ensures { result ≡ rectangle_len_of word }
{
    let textured = usize::from(bit(word, 26));
    let sized = usize::from(bits(word, 27, 2) == 0);
    2 + textured + sized
}

fn line_kind(word: u32) -> Kind
    ensures { result ≡ line_kind_of word }
{
    let shaded = bit(word, 28);
    if bit(word, 27) {
        Kind::Polyline { shaded }
    } else if shaded {
        Kind::Plain { len: 4 }
    } else {
        Kind::Plain { len: 3 }
    }
}

/// Returns the form of the packet that begins with `word`.
pub fn read_kind(word: u32) -> Kind
    ensures { result ≡ kind_of word }
{
    match word >> 29 {
        1 => Kind::Plain {
            len: polygon_len(word),
        },
        2 => line_kind(word),
        3 => Kind::Plain {
            len: rectangle_len(word),
        },
        4 => Kind::Plain { len: 4 },
        5 => Kind::Load,
        6 => Kind::Plain { len: 3 },
        _ => Kind::Plain {
            len: if word >> 24 == 2 { 3 } else { 1 },
        },
    }
}

/// Returns the number of words of the first item of a packet of this kind.
pub fn start_count(kind: Kind) -> usize
    ensures { result ≡ start_len kind }
{
    match kind {
        Kind::Plain { len } => len,
        Kind::Load => 3,
        Kind::Polyline { shaded } => if shaded { 4 } else { 3 },
    }
}

/// Returns the number of words of the item that begins a packet, by the packet's first word: a whole plain packet, the
/// three words of a load before its data, or the first two vertices of a polyline. It is 1 to 12.
pub fn first_len(word: u32) -> usize
    ensures { result ≡ first_len_of word }
{
    start_count(read_kind(word))
}

/// Returns whether `word` ends a polyline if it comes instead of the first word of a vertex: 5xxx5xxxh.
pub fn ends_polyline(word: u32) -> bool
    ensures { result ≡ is_end word }
{
    word & 0xf000_f000 == 0x5000_5000
}
