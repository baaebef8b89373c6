// Reads words from a source.
ghost use Rattle.std.specs.Prelude.{◌≡◌, ◌≤◌, ◌<◌, ◌+◌, ◌*◌, ◌^◌, [], IfOk, IfErr};
ghost use Rattle.dev_io.specs.Device.{Rose};
ghost use Rattle.gpu_capture.specs.Reader.{CountsFaults};
ghost use Rattle.gpu_capture.specs.Written.{word_bytes};
ghost use Rattle.snapshot_words.specs.Reading.{section_from};
ghost use Rattle.snapshot_words.specs.Sections.{IsSection, IsWhole};
ghost use Rattle.snapshot_words.specs.Taking.{IsWord, EndsWord, Takes, Stops, IsReadFault, remainder};

use crate::fault::SnapFault;
use crate::needs::wants;
use crate::section::{Section, allows};
use arrayvec::ArrayVec;
use byteorder::{ByteOrder, LittleEndian};
use dev_io::{Source, fill};
use gpu_capture::Stop;

// Returns the word of four bytes, the low byte first.
fn word_in(bytes: &[u8; 4]) -> u32
    ensures value { word_bytes result ≡ bytes.now }
    ensures fits { result < 2 ^ 32 }
{
    LittleEndian::read_u32(bytes)
}

/// Reads a word. `offset` is its byte offset, which only the error names.
pub fn take_word<S: Source>(source: &mut S, offset: u32) -> Result<u32, SnapFault>
    requires { offset < 2 ^ 31 }
    ensures word { IfOk result (λ word. IsWord (S.left source.old) (S.left source.new) word) }
    ensures fault { IfErr result (λ fault. EndsWord (S.left source.old) (S.left source.new) offset fault) }
    ensures cause { IfErr result (λ fault. IsReadFault fault → Rose (S.faults source.old) (S.faults source.new)) }
    ensures faults { S.faults source.old ≤ S.faults source.new }
{
    let mut bytes = [0u8; 4];
    match fill(source, &mut bytes) {
        Ok(4) => Ok(word_in(&bytes)),
        Ok(n) => {
            let stop = Stop::Truncated {
                byte: offset + n as u32,
            };
            Err(SnapFault::Stop { stop })
        }
        Err(n) => {
            let stop = Stop::ReadFault {
                byte: offset + n as u32,
            };
            Err(SnapFault::Stop { stop })
        }
    }
}

/// Reads the words of a part. `offset` is the byte offset of the first one, and on success the offset after the last
/// one.
pub(crate) fn take_section<S: Source>(
    source: &mut S,
    offset: &mut u32,
    section: Section,
) -> Result<ArrayVec<u32, 16>, SnapFault>
    requires section { IsSection section }
    requires offset { offset.old < 2 ^ 30 }
    ensures takes { IfOk result (λ words.
        Takes section (remainder offset.old (S.left source.old))
        (remainder offset.new (S.left source.new)) words.items) }
    ensures whole { IfOk result (λ words. IsWhole section words.items) }
    ensures near { offset.new ≤ offset.old + 52 }
    ensures fault { IfErr result (λ fault.
        Stops (section_from section [] offset.old) (S.left source.old) (S.left source.new) fault) }
    ensures faults { CountsFaults IsReadFault (S.faults source.old) (S.faults source.new) result }
{
    let mut words = ArrayVec::<u32, 16>::new();
    'words: while wants(section, words.as_slice()) {
        let at = *offset;
        let word = match take_word(source, at) {
            Ok(word) => word,
            Err(fault) => return Err(fault),
        };
        if !allows(section, words.as_slice(), word) {
            return Err(SnapFault::Bad { byte: at, word });
        }
        words.push(word);
        *offset = at + 4;
    }
    Ok(words)
}
