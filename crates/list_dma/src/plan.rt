// What a start of DMA channel 2 transfers.
ghost use Rattle.std.specs.Prelude.{◌≡◌, ◌<◌, ◌≤◌, ◌^◌, IfOk};
ghost use Rattle.list_dma.specs.Plans.{plan_of, words_of, mode_of, block_of, blocks_of, count_of, IsPlan};

use ot_clear_dma::MEMORY_WORDS;
use px_num::{bit, bits};

/// What a start of the channel transfers.
#[derive(Clone, Copy, Debug, PartialEq, Eq)]
pub enum Plan {
    /// Nothing, because CHCR bit 24 is 0.
    Idle,
    /// Words at consecutive addresses, up or down.
    Words {
        /// The number of words, 1 to 524,288.
        n: u32,
        /// Whether addresses decrease by 4 instead of increasing by 4.
        back: bool,
        /// Whether words are transferred from the GPU to memory.
        to_ram: bool,
    },
    /// A linked list.
    List,
}

/// Why a start is refused.
#[derive(Clone, Copy, Debug, PartialEq, Eq)]
pub enum DmaFault {
    /// The mode is not supported: mode 3, or a list to memory.
    Bad,
    /// The transfer has more words than memory.
    TooLong {
        /// The number of words, 524,289 to 4,294,967,296.
        words: u64,
    },
}

/// Returns what a start of DMA channel 2 with these values of BCR and CHCR transfers. `Idle` if CHCR bit 24 is 0.
///
/// Mode 0 transfers as many words as BCR's low half, mode 1 the product of both halves; a half of 0 means 10000h.
/// Mode 2 transfers a list. Refuses mode 3 and a list to memory (`Bad`), and more than 524,288 words (`TooLong`).
pub fn block_plan(bcr: u32, chcr: u32) -> Result<Plan, DmaFault>
    ensures value { result ≡ plan_of bcr chcr }
    ensures bounds { IfOk result IsPlan }
{
    if !bit(chcr, 24) {
        return Ok(Plan::Idle);
    }
    let block = u64::from(block_words(bcr));
    match mode(chcr) {
        0 => plan_words(block, chcr),
        1 => plan_words(block * u64::from(block_count(bcr)), chcr),
        2 if bit(chcr, 0) => Ok(Plan::List),
        _ => Err(DmaFault::Bad),
    }
}

// Returns the mode of a transfer: CHCR bits 9 and 10.
pub(crate) fn mode(chcr: u32) -> u32
    ensures { result ≡ mode_of chcr }
{
    bits(chcr, 9, 2)
}

// Returns the number of words of a block, 1 to 65,536.
pub(crate) fn block_words(bcr: u32) -> u32
    ensures value { result ≡ block_of bcr }
    ensures some { 1 ≤ result }
    ensures most { result ≤ 2 ^ 16 }
{
    count(bits(bcr, 0, 16))
}

// Returns the number of blocks, 1 to 65,536.
fn block_count(bcr: u32) -> u32
    ensures value { result ≡ blocks_of bcr }
    ensures some { 1 ≤ result }
    ensures most { result ≤ 2 ^ 16 }
{
    count(bits(bcr, 16, 16))
}

// Returns a count of 16 bits: `field`, or 10000h if it is 0.
fn count(field: u32) -> u32
    requires { field < 2 ^ 16 }
    ensures value { result ≡ count_of field }
    ensures some { 1 ≤ result }
    ensures most { result ≤ 2 ^ 16 }
{
    if field == 0 { 0x1_0000 } else { field }
}

// Returns a plan of `n` words. Refuses more words than memory has.
fn plan_words(n: u64, chcr: u32) -> Result<Plan, DmaFault>
    requires { 1 ≤ n }
    ensures value { result ≡ words_of n chcr }
    ensures bounds { IfOk result IsPlan }
{
    if n > MEMORY_WORDS as u64 {
        return Err(DmaFault::TooLong { words: n });
    }
    Ok(Plan::Words {
        n: n as u32,
        back: bit(chcr, 1),
        to_ram: !bit(chcr, 0),
    })
}
