// Captures from their records in text.
use dev_io::CutSource;
use std::alloc::Global;
use std::io;

/// Returns a capture with this magic number. `records`: each a name and hexadecimal numbers, separated by commas. An
/// End is appended.
pub(crate) fn capture(alloc: Global, head: &[u8], records: &str) -> io::Result<Vec<u8>> {
    let mut bytes = head.to_vec(alloc)?;
    for record in records.split(',') {
        let mut words = record.split_whitespace();
        if let Some(name) = words.next() {
            let mut numbers = Vec::new(alloc);
            for word in words {
                if let Ok(number) = u32::from_str_radix(word, 16) {
                    numbers.push(number)?;
                }
            }
            push_record(&mut bytes, name, &numbers)?;
        }
    }
    push_word(&mut bytes, 0)?;
    Ok(bytes)
}

/// Appends a word, its low byte first.
pub(crate) fn push_word(bytes: &mut Vec<u8>, word: u32) -> io::Result<()> {
    bytes.extend_from_slice(&word.to_le_bytes())?;
    Ok(())
}

/// Returns a source that gives one byte per call and fails at the calls with these numbers, from 0.
pub(crate) fn bytewise(alloc: Global, bytes: &[u8], fails: &[u64]) -> io::Result<CutSource> {
    let mut pieces = Vec::new(alloc);
    for _ in bytes {
        pieces.push(1)?;
    }
    Ok(CutSource::new(bytes.to_vec(alloc)?, pieces, fails.to_vec(alloc)?))
}

// Appends a record: its tag and the numbers after it.
fn push_record(bytes: &mut Vec<u8>, name: &str, numbers: &[u32]) -> io::Result<()> {
    let count = (numbers.len() % 0x1000) as u32;
    let (tag, after) = match numbers {
        _ if name == "gp0" => (0x0200_0000 | count, numbers),
        _ if name == "gp1" => (0x0300_0001, numbers),
        _ if name == "ram" => (0x0100_0000 | count.saturating_sub(1), numbers),
        _ if name == "stat" => (0x0500_0001, numbers),
        _ if name == "begin" => (0x0700_0002, numbers),
        [first, after @ ..] => (kind_of(name) | *first, after),
        [] => return Ok(()),
    };
    push_word(bytes, tag)?;
    for number in after {
        push_word(bytes, *number)?;
    }
    Ok(())
}

// Returns the kind of a record whose first number is in its tag. A `raw` word has it in its number.
fn kind_of(name: &str) -> u32 {
    if name == "read" {
        0x0400_0000
    } else if name == "dma" {
        0x0600_0000
    } else if name == "turn" {
        0x0800_0000
    } else if name == "skip" {
        0x0900_0000
    } else {
        0
    }
}
