// The flat events of an operation can be written: their values are words, and version 2 has a record for each.
ghost use Rattle.std.specs.Prelude.{◌<◌, ◌^◌, ℕ, map, slice_index};
ghost use Rattle.gpu_capture.specs.Written.{AllowsAll};
ghost use Rattle.gpu_capture.specs.declared.event.Event.TheVariants.{Gp0};
ghost use Rattle.event_play.specs.Step.{words_of};
ghost use Rattle.capture_flat.specs.Flat.{flat_operation};

use event_play::{Operation, Words};
use ot_clear_dma::Ram;

/// Proves that the flat events of an operation are valid in version 2. Does nothing.
pub(crate) fn allowed(ram: &Ram, operation: Operation)
    ensures { AllowsAll 2 (flat_operation ram.now operation) }
{
    match operation {
        Operation::Feed { words, .. } => words_allowed(ram, words),
        Operation::Take { .. } => {}
        Operation::Control { word } => {
            let _ = word;
        }
        Operation::Read => {}
        Operation::Skip => {}
        Operation::Stat => {}
        Operation::Nothing => {}
        Operation::Put { .. } => {}
        Operation::Clear { .. } => {}
        Operation::Begin { .. } => {}
    }
}

/// Proves that Gp0 events of these words are valid in version 2. Does nothing.
pub(crate) fn slice_allowed(words: &[u32])
    ensures { AllowsAll 2 (map Gp0 words.now) }
{
    words_fit(words);
}

// Proves that each word has 32 bits. Does nothing.
fn words_fit(words: &[u32])
    ensures { (k : ℕ) → slice_index words.now k < 2 ^ 32 }
{
    let _ = words.len();
}

// Proves that Gp0 events of the words that an operation feeds are valid in version 2. Does nothing.
fn words_allowed(ram: &Ram, words: Words)
    ensures { AllowsAll 2 (map Gp0 (words_of ram.now words)) }
{
    ram.words_fit();
    match words {
        Words::One { word } => {
            let _ = word;
        }
        Words::Block { .. } => {}
        Words::Node { .. } => {}
        Words::List { .. } => {}
    }
}
