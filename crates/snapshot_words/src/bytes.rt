// Encodes words as bytes, the low byte of each first.
ghost use Rattle.std.specs.Prelude.{◌≡◌, ◌≤◌, ◌+◌, ◌*◌, ◌++◌, length};
ghost use Rattle.gpu_capture.specs.Written.{word_bytes};
ghost use Rattle.snapshot_words.specs.Outline.{bytes_of};

use arrayvec::ArrayVec;

/// Returns the bytes of at most 48 words.
pub(crate) fn bytes_in(words: &[u32]) -> ArrayVec<u8, 192>
    requires { length words.now ≤ 48 }
    ensures { result.items ≡ bytes_of words.now }
{
    let mut bytes = ArrayVec::new();
    for word in words {
        append_word(&mut bytes, *word);
    }
    bytes
}

fn append_word(bytes: &mut ArrayVec<u8, 192>, word: u32)
    requires { length bytes.old.items ≤ 188 }
    ensures bytes { bytes.new.items ≡ bytes.old.items ++ word_bytes word }
    ensures long { length bytes.new.items ≡ length bytes.old.items + 4 }
{
    for byte in &word_array(word) {
        bytes.push(*byte);
    }
}

#[tactic(auto, unfolding(gpu_capture::specs::Written::word_bytes))]
fn word_array(word: u32) -> [u8; 4]
    ensures { result ≡ word_bytes word }
{
    word.to_le_bytes()
}
