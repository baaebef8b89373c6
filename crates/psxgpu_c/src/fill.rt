// Writes words to main memory.
ghost use Rattle.std.specs.Prelude.{◌≡◌, length, true};
ghost use Rattle.psxgpu_c.specs.Memory.{Fills, lie_in_memory, put_first};

use crate::ended::code_for;
use crate::refusal::Refusal;
use event_play::Rig;

/// The byte address after main memory.
const MEMORY_END: u64 = 0x20_0000;

/// Writes `words` from byte address `address` on, one event per word, and returns 0. If `address` is not a multiple of
/// 4 or the range passes 200000h, writes nothing and returns the code of `BadAddress`.
pub(crate) fn put_words(rig: &mut Rig, address: u32, words: &[u32]) -> u32
    ensures { Fills address words.now rig.old rig.new result }
{
    if !lie_in_memory(address, words) {
        return code_for(Refusal::BadAddress);
    }
    put_all(rig, address, words);
    let played = rig.played().saturating_add(words.len() as u64);
    let running = rig.running();
    rig.set_run(played, running);
    0
}

fn lie_in_memory(address: u32, words: &[u32]) -> bool
    ensures { result ≡ lie_in_memory address (length words.now) }
{
    let aligned = address % 4 == 0;
    let inside = u64::from(address) + 4 * words.len() as u64 <= MEMORY_END;
    aligned && inside
}

// Writes all words. Requires that they are in main memory.
fn put_all(rig: &mut Rig, address: u32, words: &[u32])
    requires { lie_in_memory address (length words.now) ≡ true }
    ensures { rig.new ≡ record rig.old { ram = put_first rig.old.ram address words.now (length words.now) } }
{
    'words: for i in 0..words.len() {
        rig.set_word(address + 4 * i as u32, words[i]);
    }
}
