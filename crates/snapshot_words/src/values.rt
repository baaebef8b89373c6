// The values that the words of whole parts encode.
ghost use Rattle.std.specs.Prelude.{◌≡◌, ◌≤◌, ◌<◌, ◌+◌, ◌-◌, ◌/◌, ◌*◌, ◌^◌, length};
ghost use Rattle.gp1_status.specs.Words.{words_of};
ghost use Rattle.gpu_core.specs.Kept.{IsJob, IsOpen};
ghost use Rattle.px_num.specs.Height.{IsHeight, height_of_profile};
ghost use Rattle.snapshot_words.specs.Shapes.{IsFront, IsRegisters, IsStore, IsPendingPart};
ghost use Rattle.vram_copy.specs.Words.{words_left};
ghost use Rattle.snapshot_words.specs.Values.{front_words, store_words, job_in, pending_in, half_in, load_in, run_in};

use crate::section::word_at;
use gp0_words::{Pending, Words};
use gp1_status::Regs;
use list_dma::Run;
use vram_copy::Transfer;

/// Returns the height of video memory in rows, and the number of events played.
pub(crate) fn front_in(words: &[u32]) -> (u16, u64)
    requires { IsFront words.now }
    ensures spelled { front_words result.0 result.1 ≡ words.now }
    ensures height { IsHeight result.0 }
    ensures few { result.1 < 2 ^ 63 }
{
    let low = u64::from(word_at(words, 1));
    let high = u64::from(word_at(words, 2));
    (word_at(words, 0) as u16, low + high * 0x1_0000_0000)
}

// Returns whether the height is 1024 rows.
fn is_tall(height: u16) -> bool
    requires { IsHeight height }
    ensures { height_of_profile result ≡ height }
{
    height == 1024
}

/// Returns the registers that the words of their part encode.
#[tactic(auto, using(gp1_status::proofs::WordsBack::thirteen))]
pub(crate) fn registers_in(height: u16, words: &[u32]) -> Regs
    requires known { IsHeight height }
    requires words { IsRegisters height words.now }
    ensures spelled { words_of result ≡ words.now }
    ensures height { result.height ≡ height }
{
    let array = [
        words[0], words[1], words[2], words[3], words[4], words[5], words[6], words[7], words[8],
        words[9], words[10], words[11], words[12],
    ];
    match Regs::from_words(&array, is_tall(height)) {
        Some(regs) => regs,
        None => unreachable!(),
    }
}

// Returns the transfer that words 1 to 5 of a part encode.
fn job_in(height: u16, words: &[u32]) -> Transfer
    requires known { IsHeight height }
    requires job { IsJob height (job_in words.now) }
    ensures { result ≡ job_in words.now }
{
    Transfer {
        x: word_at(words, 1) as u16,
        y: word_at(words, 2) as u16,
        w: word_at(words, 3) as u16,
        h: word_at(words, 4) as u16,
        at: word_at(words, 5),
    }
}

/// Returns the open store that the words of its part encode.
pub(crate) fn store_in(height: u16, words: &[u32]) -> Option<Transfer>
    requires known { IsHeight height }
    requires words { IsStore height words.now }
    ensures spelled { store_words result ≡ words.now }
    ensures bounds { IsOpen height result }
{
    if word_at(words, 0) == 1 {
        Some(job_in(height, words))
    } else {
        None
    }
}

/// Returns what is pending, by the words of its part.
pub(crate) fn pending_in(height: u16, words: &[u32]) -> Pending
    requires known { IsHeight height }
    requires words { IsPendingPart height words.now }
    ensures { result ≡ pending_in words.now }
{
    match word_at(words, 0) {
        0 => Pending::Idle,
        1 => Pending::Packet {
            words: packet_in(&words[2..]),
        },
        2 => Pending::Pixels {
            left: wanted(&job_in(height, words)),
        },
        _ => Pending::Poly {
            command: word_at(words, 1),
            color: word_at(words, 2),
            vertex: word_at(words, 3),
            half: half_in(words),
        },
    }
}

// Returns the words of an incomplete item.
fn packet_in(words: &[u32]) -> Words
    requires { length words.now ≤ 12 }
    ensures { result ≡ words.now }
{
    let mut packet = Words::new();
    for word in words {
        packet.push(*word);
    }
    packet
}

// Returns how many data words a load still needs.
fn wanted(job: &Transfer) -> u32
    requires w { job.now.w ≤ 1024 }
    requires h { job.now.h ≤ 512 }
    requires more { job.now.at < job.now.w * job.now.h }
    ensures { result ≡ words_left job.now }
{
    (u32::from(job.w) * u32::from(job.h) - job.at + 1) / 2
}

// Returns the colour of the next vertex of a polyline, if it was received.
fn half_in(words: &[u32]) -> Option<u32>
    ensures { result ≡ half_in words.now }
{
    if word_at(words, 4) == 1 {
        Some(word_at(words, 5))
    } else {
        None
    }
}

/// Returns the open load, if data words are pending.
pub(crate) fn load_in(height: u16, words: &[u32]) -> Option<Transfer>
    requires known { IsHeight height }
    requires words { IsPendingPart height words.now }
    ensures { result ≡ load_in words.now }
{
    if word_at(words, 0) == 2 {
        Some(job_in(height, words))
    } else {
        None
    }
}

/// Returns the running transfer.
pub(crate) fn run_in(words: &[u32]) -> Run
    ensures { result ≡ run_in words.now }
{
    match word_at(words, 0) {
        0 => Run::Idle,
        1 => Run::Words {
            at: word_at(words, 1),
            left: word_at(words, 2),
            block: word_at(words, 3),
            back: word_at(words, 4) & 1 == 1,
            to_ram: word_at(words, 4) >> 1 & 1 == 1,
        },
        _ => Run::List {
            node: word_at(words, 1),
        },
    }
}
