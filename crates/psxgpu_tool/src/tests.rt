// Tests of whole commands with sources and sinks in memory.
ghost use Rattle.std.specs.Prelude.{◌≡◌, ◌<◌};

mod capture;
mod cut;
mod devices;
mod dumps;
mod film;
mod flat;
mod lines;
mod pictures;
mod rows;
mod runs;
mod slim;
mod told;

use crate::run::run;
use dev_io::{MemSink, Sink, Source};
use gpu_taps::Tap;
use std::alloc::Global;
use std::io;
use std::marker::Brand;
use std::sync::ledger::{Blank, Ledger};
use vram_store::Steps;

/// The capacity in bytes of a sink for lines.
pub(crate) const LINES: usize = 4096;

/// Returns the arguments of a command line: words with spaces between them.
pub(crate) fn words_of(alloc: Global, words: &str) -> io::Result<Vec<String>> {
    let mut owned = Vec::new(alloc);
    for word in words.split_whitespace() {
        owned.push(String::from_str(alloc, word)?)?;
    }
    Ok(owned)
}

/// Returns the exit status of a run without taps.
pub(crate) fn status_over<S: Source, K: Sink>(
    alloc: Global,
    words: &str,
    source: &mut S,
    out: &mut K,
    err: &mut MemSink,
) -> io::Result<u8> {
    status_with(alloc, words, source, out, err, Vec::new(alloc))
}

/// Returns the exit status of a run.
pub(crate) fn status_with<S: Source, K: Sink>(
    alloc: Global,
    words: &str,
    source: &mut S,
    out: &mut K,
    err: &mut MemSink,
    taps: Vec<Box<dyn Tap>>,
) -> io::Result<u8> {
    let words = words_of(alloc, words)?;
    Ok(run_owned::<S, K, Brand>(alloc, &words, source, out, err, taps, Blank::new(1)))
}

fn run_owned<S: Source, K: Sink, L: Ledger>(
    alloc: Global,
    words: &Vec<String>,
    source: &mut S,
    out: &mut K,
    err: &mut MemSink,
    taps: Vec<Box<dyn Tap>>,
    blank: Blank,
) -> u8
    requires name { blank.name ≡ L.name }
    requires parts { blank.parts ≡ L.parts }
    requires some { 0 < blank.parts }
{
    let mut steps = Steps::<L>::new(blank);
    run(alloc, words, source, out, err, taps, &mut steps)
}
