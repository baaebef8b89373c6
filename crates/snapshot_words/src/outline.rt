// A state without its memories.
use gp0_words::Pending;
use gp1_status::Regs;
use list_dma::Run;
use vram_copy::Transfer;

/// The state of the machine without video memory and main memory.
#[derive(Drop)]
pub struct Outline {
    /// How many events were played, below 2^63.
    pub played: u64,
    /// The registers, with the height of video memory.
    pub regs: Regs,
    /// What is pending of the GP0 words.
    pub pending: Pending,
    /// The open load.
    pub load: Option<Transfer>,
    /// The open store.
    pub store: Option<Transfer>,
    /// The rest of a DMA transfer that runs in turns.
    pub run: Run,
}
