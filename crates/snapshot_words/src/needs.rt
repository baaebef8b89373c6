// How many words a part of a state has, by its words so far.
ghost use Rattle.std.specs.Prelude.{◌≡◌, ◌≤◌, ◌<◌, true, length};
ghost use Rattle.snapshot_words.specs.Sections.{need, wants, need_pending, need_store, need_run};

use crate::section::{Section, word_at};

fn need_pending(got: &[u32]) -> usize
    ensures value { result ≡ need_pending got.now }
    ensures most { result ≤ 13 }
{
    match word_at(got, 0) {
        1 => 2 + word_at(got, 1).min(11) as usize,
        2 => 6,
        3 => if word_at(got, 4) == 1 { 6 } else { 5 },
        _ => 1,
    }
}

fn need_store(got: &[u32]) -> usize
    ensures value { result ≡ need_store got.now }
    ensures most { result ≤ 13 }
{
    if word_at(got, 0) == 1 { 6 } else { 1 }
}

fn need_run(got: &[u32]) -> usize
    ensures value { result ≡ need_run got.now }
    ensures most { result ≤ 13 }
{
    match word_at(got, 0) {
        1 => 5,
        2 => 2,
        _ => 1,
    }
}

/// Returns how many words a part has, at most thirteen. `got` are its words so far.
pub(crate) fn need(section: Section, got: &[u32]) -> usize
    ensures value { result ≡ need section got.now }
    ensures most { result ≤ 13 }
{
    match section {
        Section::Front => 3,
        Section::Registers { .. } => 13,
        Section::Pending { .. } => need_pending(got),
        Section::Store { .. } => need_store(got),
        Section::Run => need_run(got),
    }
}

/// Returns whether a part needs another word. `got` are its words so far.
pub(crate) fn wants(section: Section, got: &[u32]) -> bool
    ensures value { result ≡ wants section got.now }
    ensures few { result ≡ true → length got.now < 13 }
{
    got.len() < need(section, got)
}
