// The words of an open Gp0 record: how many one bulk read may take, and the reader state after them.
ghost use Rattle.std.specs.Prelude.{◌≡◌, ◌≤◌, ◌<◌, ◌^◌};
ghost use Rattle.gpu_capture.specs.Reader.{IsProgress};
ghost use Rattle.gpu_capture.specs.Record.{IsExpected};
ghost use Rattle.gpu_capture.specs.Words.{MayTake, StaysWithin, gp0_left, words_expected, progress_after_words};

use crate::progress::{LIMIT, Progress};
use crate::record::Expected;

/// Returns how many words one bulk read may take: at most the words left in the record and 512, all below byte offset
/// 2^30. 0 if no Gp0 record is open, the header is unread, or a repeated event is left.
pub(crate) fn words_at_once(progress: &Progress) -> usize
    ensures may { 0 < result → MayTake progress.now result }
    ensures room { result ≤ 512 }
{
    if progress.version == 0 || progress.left > 0 {
        return 0;
    }
    let below_limit = LIMIT.saturating_sub(progress.offset) / 4;
    gp0_left(progress.expected).min(below_limit).min(512) as usize
}

/// Returns how many words are left in an open Gp0 record, and 0 if none is open.
pub(crate) fn gp0_left(expected: Expected) -> u32
    ensures { result ≡ gp0_left expected }
{
    match expected {
        Expected::Gp0 { left } => left,
        _ => 0,
    }
}

/// Returns the reader state after the next `count` words of the open record.
#[tactic(auto, unfolding(crate::specs::Reader::work_left))]
pub(crate) fn progress_after_words(progress: &Progress, count: u32) -> Progress
    requires bounds { IsProgress progress.now }
    requires may { MayTake progress.now count }
    ensures value { result ≡ progress_after_words progress.now count }
    ensures stays { StaysWithin progress.now result }
{
    let left = gp0_left(progress.expected);
    Progress {
        version: progress.version,
        offset: progress.offset + 4 * count,
        expected: words_expected(left, count),
        repeated: progress.repeated,
        left: 0,
    }
}

/// Returns what follows the next `count` of the `left` words of a Gp0 record.
fn words_expected(left: u32, count: u32) -> Expected
    requires { left < 2 ^ 24 }
    ensures value { result ≡ words_expected left count }
    ensures bounds { IsExpected result }
{
    if count < left {
        Expected::Gp0 { left: left - count }
    } else {
        Expected::Tag
    }
}
