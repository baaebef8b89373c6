// Writes a state without its memories as words.
ghost use Rattle.std.specs.Prelude.{◌≡◌, ◌≤◌, ◌<◌, ◌+◌, ◌*◌, ◌++◌, ◌∷◌, None, length};
ghost use Rattle.dev_io.specs.Device.{Writes, side};
ghost use Rattle.gp0_words.specs.Next.{IsPending};
ghost use Rattle.snapshot_words.specs.Outline.{snapshot_head, outline_words, bytes_of};
ghost use Rattle.snapshot_words.specs.Values.{front_words, job_words, load_words, pending_words};
ghost use Rattle.snapshot_words.specs.Values.{store_words, run_words};

use crate::bytes::bytes_in;
use crate::outline::Outline;
use arrayvec::ArrayVec;
use dev_io::{Failed, Sink, write_all};
use gp0_words::Pending;
use list_dma::Run;
use vram_copy::Transfer;

/// The first eight bytes of a snapshot.
pub const SNAPSHOT_HEAD: [u8; 8] = *b"PSXGPUS1";

/// Writes the file header of a snapshot. On failure, only a proper prefix of it was written.
pub fn write_head<K: Sink>(sink: &mut K) -> Result<(), Failed>
    ensures { Writes (side K.held K.faults) sink.old sink.new snapshot_head result }
{
    write_all(sink, &SNAPSHOT_HEAD)
}

/// Writes a state without its memories, in one call of the sink if the sink accepts all bytes. On failure, only a
/// proper prefix was written. `pending` must be a value that a splitter can have.
pub fn write_outline<K: Sink>(sink: &mut K, outline: &Outline) -> Result<(), Failed>
    requires { IsPending outline.now.pending }
    ensures { Writes (side K.held K.faults) sink.old sink.new (bytes_of (outline_words outline.now)) result }
{
    let words = gather(outline);
    let bytes = bytes_in(words.as_slice());
    write_all(sink, bytes.as_slice())
}

// Returns the words of a state without its memories.
#[tactic(auto, unfolding(crate::specs::Outline::outline_words))]
fn gather(outline: &Outline) -> ArrayVec<u32, 48>
    requires { IsPending outline.now.pending }
    ensures words { result.items ≡ outline_words outline.now }
    ensures few { length result.items ≤ 48 }
{
    let mut words = ArrayVec::new();
    append_front(&mut words, outline.regs.height(), outline.played);
    append(&mut words, &outline.regs.to_words());
    append_pending(&mut words, &outline.pending, &outline.load);
    append_store(&mut words, &outline.store);
    append_run(&mut words, &outline.run);
    words
}

fn append(words: &mut ArrayVec<u32, 48>, more: &[u32])
    requires { length words.old.items + length more.now ≤ 48 }
    ensures words { words.new.items ≡ words.old.items ++ more.now }
    ensures long { length words.new.items ≡ length words.old.items + length more.now }
{
    for word in more {
        words.push(*word);
    }
}

fn append_front(words: &mut ArrayVec<u32, 48>, height: u16, played: u64)
    requires { length words.old.items ≤ 45 }
    ensures words { words.new.items ≡ words.old.items ++ front_words height played }
    ensures long { length words.new.items ≡ length words.old.items + 3 }
{
    let low = (played % 0x1_0000_0000) as u32;
    let high = (played / 0x1_0000_0000) as u32;
    append(words, &[u32::from(height), low, high]);
}

fn append_job(words: &mut ArrayVec<u32, 48>, kind: u32, job: &Transfer)
    requires { length words.old.items ≤ 42 }
    ensures words { words.new.items ≡ words.old.items ++ kind ∷ job_words job.now }
    ensures long { length words.new.items ≡ length words.old.items + 6 }
{
    let x = u32::from(job.x);
    let y = u32::from(job.y);
    let w = u32::from(job.w);
    let h = u32::from(job.h);
    append(words, &[kind, x, y, w, h, job.at]);
}

// Appends the kind of pending data words, and the open load.
fn append_load(words: &mut ArrayVec<u32, 48>, load: &Option<Transfer>)
    requires { length words.old.items ≤ 42 }
    ensures words { words.new.items ≡ words.old.items ++ 2 ∷ load_words load.now }
    ensures long { length words.new.items ≤ length words.old.items + 6 }
{
    match load {
        None => append(words, &[2]),
        Some(job) => append_job(words, 2, job),
    }
}

fn append_packet(words: &mut ArrayVec<u32, 48>, packet: &[u32])
    requires few { length packet.now ≤ 12 }
    requires room { length words.old.items ≤ 34 }
    ensures words { words.new.items ≡ words.old.items ++ 1 ∷ length packet.now ∷ packet.now }
    ensures long { length words.new.items ≡ length words.old.items + 2 + length packet.now }
{
    append(words, &[1, packet.len() as u32]);
    append(words, packet);
}

fn append_polyline(
    words: &mut ArrayVec<u32, 48>,
    command: u32,
    color: u32,
    vertex: u32,
    half: Option<u32>,
)
    requires { length words.old.items ≤ 42 }
    ensures words { words.new.items ≡ words.old.items ++ pending_words (Pending.Poly command color vertex half) None }
    ensures long { length words.new.items ≤ length words.old.items + 6 }
{
    match half {
        None => append(words, &[3, command, color, vertex, 0]),
        Some(half) => append(words, &[3, command, color, vertex, 1, half]),
    }
}

fn append_pending(words: &mut ArrayVec<u32, 48>, pending: &Pending, load: &Option<Transfer>)
    requires pending { IsPending pending.now }
    requires room { length words.old.items ≤ 16 }
    ensures words { words.new.items ≡ words.old.items ++ pending_words pending.now load.now }
    ensures long { length words.new.items ≤ length words.old.items + 14 }
{
    match pending {
        Pending::Idle => append(words, &[0]),
        Pending::Packet { words: packet } => append_packet(words, packet.as_slice()),
        Pending::Pixels { .. } => append_load(words, load),
        Pending::Poly {
            command,
            color,
            vertex,
            half,
        } => append_polyline(words, *command, *color, *vertex, *half),
    }
}

fn append_store(words: &mut ArrayVec<u32, 48>, store: &Option<Transfer>)
    requires { length words.old.items ≤ 42 }
    ensures words { words.new.items ≡ words.old.items ++ store_words store.now }
    ensures long { length words.new.items ≤ length words.old.items + 6 }
{
    match store {
        None => append(words, &[0]),
        Some(job) => append_job(words, 1, job),
    }
}

fn append_run(words: &mut ArrayVec<u32, 48>, run: &Run)
    requires { length words.old.items ≤ 43 }
    ensures words { words.new.items ≡ words.old.items ++ run_words run.now }
    ensures long { length words.new.items ≤ length words.old.items + 5 }
{
    match *run {
        Run::Idle => append(words, &[0]),
        Run::Words {
            at,
            left,
            block,
            back,
            to_ram,
        } => {
            let flags = u32::from(back) + u32::from(to_ram) * 2;
            append(words, &[1, at, left, block, flags]);
        }
        Run::List { node } => append(words, &[2, node]),
    }
}
