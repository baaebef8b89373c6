// The state of a capture reader, and the steps that advance it.
ghost use Rattle.std.specs.Prelude.{◌≡◌, ◌<◌, ◌≤◌, ◌+◌, ◌^◌, None, [], ◌∷◌, IfSome, IfOk, IfErr, OnOk};
ghost use Rattle.std.specs.Prelude.{option_to_list};
ghost use Rattle.gpu_capture.specs.Record.{IsEvent};
ghost use Rattle.gpu_capture.specs.Capture.{head_version, IsVersion};
ghost use Rattle.gpu_capture.specs.Reader.{IsWord, EndsWord, IsAfterHead, IsProgress, Takes, StopsAt};
ghost use Rattle.gpu_capture.specs.Reader.{CountsFaults, IsReadFault, reader_input, work_left, tag_expected};
ghost use Rattle.gpu_capture.specs.Reader.{progress_after_word};

use crate::event::{Event, Stop};
use crate::head::head_among;
use crate::record::{Expected, Step, read_step};
use byteorder::{ByteOrder, LittleEndian};
use dev_io::{Source, fill};

/// The maximum length of a capture in bytes.
pub const LIMIT: u32 = 1 << 30;

/// The file headers of versions 1 to 3, in this order.
const HEADS: [[u8; 8]; 3] = [*b"PSXGPUC1", *b"PSXGPUC2", *b"PSXGPUC3"];

/// The state of a reader. `version`: 0 until the 8-byte header is read. `offset`: byte offset of the next word.
/// `expected`: what that word is. `repeated`, `left`: the reader returns `repeated` `left` more times before it reads
/// the word.
#[derive(Clone, Copy, Debug, PartialEq, Eq)]
pub struct Progress {
    pub version: u8,
    pub offset: u32,
    pub expected: Expected,
    pub repeated: Event,
    pub left: u32,
}

/// Reads the word at byte offset `offset`. At offset 2^30 or later, reads nothing and returns `TooLong`.
fn read_word<S: Source>(source: &mut S, offset: u32) -> Result<u32, Stop>
    requires { offset < 2 ^ 31 }
    ensures word { IfOk result (λ word. IsWord (S.left source.old) (S.left source.new) offset word) }
    ensures stop { IfErr result (λ stop. EndsWord (S.left source.old) (S.left source.new) offset stop) }
    ensures faults { CountsFaults IsReadFault (S.faults source.old) (S.faults source.new) result }
{
    if offset >= LIMIT {
        return Err(Stop::TooLong { byte: LIMIT });
    }
    let mut bytes = [0u8; 4];
    match fill(source, &mut bytes) {
        Ok(4) => Ok(LittleEndian::read_u32(&bytes)),
        Ok(n) => Err(Stop::Truncated {
            byte: offset + n as u32,
        }),
        Err(n) => Err(Stop::ReadFault {
            byte: offset + n as u32,
        }),
    }
}

/// Returns the version that a file header names, or the first offset at which `bytes` differs from every known header.
fn version_of(bytes: &[u8; 8]) -> Result<u8, usize>
    ensures version { result ≡ head_version bytes.now }
    ensures within { IfErr result (λ offset. offset < 8) }
    ensures known { IfOk result IsVersion }
{
    let number = head_among(&HEADS, bytes)?;
    Ok(number as u8 + 1)
}

/// Reads the 8-byte header and sets the version. Does nothing if the header was read before.
fn take_head<S: Source>(progress: &mut Progress, source: &mut S) -> Result<(), Stop>
    requires { IsProgress progress.old }
    ensures takes { OnOk result
        (Takes (reader_input progress.old (S.left source.old)) (reader_input progress.new (S.left source.new)) []) }
    ensures started { OnOk result (1 ≤ progress.new.version) }
    ensures bounds { IsProgress progress.new }
    ensures forward { OnOk result (work_left progress.new ≤ work_left progress.old) }
    ensures stop { IfErr result
        (StopsAt (reader_input progress.old (S.left source.old)) (reader_input progress.new (S.left source.new))) }
    ensures faults { CountsFaults IsReadFault (S.faults source.old) (S.faults source.new) result }
{
    if progress.version > 0 {
        return Ok(());
    }
    let mut bytes = [0u8; 8];
    match fill(source, &mut bytes) {
        Ok(8) => match version_of(&bytes) {
            Ok(version) => {
                *progress = at_tag(version, 8);
                Ok(())
            }
            Err(offset) => Err(Stop::NotCapture {
                byte: offset as u32,
            }),
        },
        Ok(n) => Err(Stop::Truncated { byte: n as u32 }),
        Err(n) => Err(Stop::ReadFault { byte: n as u32 }),
    }
}

/// Returns the state of a reader of `version` that reads a tag next, at byte offset `offset`.
pub(crate) fn at_tag(version: u8, offset: u32) -> Progress
    requires version { IsVersion version }
    requires offset { offset < 2 ^ 31 }
    ensures value { result ≡ tag_expected version offset }
    ensures bounds { IsProgress result }
{
    Progress {
        version,
        offset,
        expected: Expected::Tag,
        repeated: Event::Stat,
        left: 0,
    }
}

/// If `left` is not 0, lowers it, returns `repeated` and reads nothing. Otherwise reads one word. Returns `None` if the
/// word completes no event.
fn take_word<S: Source>(progress: &mut Progress, source: &mut S) -> Result<Option<Event>, Stop>
    requires { IsAfterHead progress.old }
    ensures takes { IfOk result (λ event. Takes (reader_input progress.old (S.left source.old))
        (reader_input progress.new (S.left source.new)) (option_to_list event)) }
    ensures stays { IsAfterHead progress.new }
    ensures event { IfOk result (λ event. IfSome event IsEvent) }
    ensures forward { OnOk result (work_left progress.new < work_left progress.old) }
    ensures stop { IfErr result
        (StopsAt (reader_input progress.old (S.left source.old)) (reader_input progress.new (S.left source.new))) }
    ensures faults { CountsFaults IsReadFault (S.faults source.old) (S.faults source.new) result }
{
    if progress.left > 0 {
        progress.left -= 1;
        return Ok(Some(progress.repeated));
    }
    let offset = progress.offset;
    let word = read_word(source, offset)?;
    match read_step(progress.version, progress.expected, offset, word) {
        Step::Opens { next } => {
            *progress = progress_after_word(*progress, next, progress.repeated, 0);
            Ok(None)
        }
        Step::Gives { event, count, next } => {
            *progress = progress_after_word(*progress, next, event, count - 1);
            Ok(Some(event))
        }
        Step::Closes { stop } => Err(stop),
    }
}

/// Returns the reader state after one word: the offset 4 larger, the other values as given.
fn progress_after_word(
    progress: Progress,
    expected: Expected,
    repeated: Event,
    left: u32,
) -> Progress
    requires { progress.offset < 2 ^ 30 }
    ensures { result ≡ progress_after_word progress expected repeated left }
{
    Progress {
        version: progress.version,
        offset: progress.offset + 4,
        expected,
        repeated,
        left,
    }
}

/// Returns the next event. Reads the header first if it is unread.
pub(crate) fn advance<S: Source>(progress: &mut Progress, source: &mut S) -> Result<Event, Stop>
    requires { IsProgress progress.old }
    ensures takes { IfOk result (λ event. Takes (reader_input progress.old (S.left source.old))
        (reader_input progress.new (S.left source.new)) (event ∷ [])) }
    ensures bounds { IsProgress progress.new }
    ensures event { IfOk result IsEvent }
    ensures started { OnOk result (1 ≤ progress.new.version) }
    ensures forward { OnOk result (work_left progress.new < work_left progress.old) }
    ensures stop { IfErr result
        (StopsAt (reader_input progress.old (S.left source.old)) (reader_input progress.new (S.left source.new))) }
    ensures faults { CountsFaults IsReadFault (S.faults source.old) (S.faults source.new) result }
{
    take_head(progress, source)?;
    'words: loop {
        match take_word(progress, source)? {
            Some(event) => return Ok(event),
            None => {}
        }
    }
}
