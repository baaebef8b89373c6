// Reads whole parts.
ghost use Rattle.std.specs.Prelude.{◌≡◌, ◌≤◌, ◌<◌, ◌+◌, ◌^◌, [], IfOk, IfErr};
ghost use Rattle.gp1_status.specs.Words.{words_of, AreAllowed as RegisterBits};
ghost use Rattle.gpu_capture.specs.Reader.{CountsFaults};
ghost use Rattle.gpu_core.specs.Kept.{IsOpen};
ghost use Rattle.list_dma.specs.Plans.{IsRun};
ghost use Rattle.px_num.specs.Height.{IsHeight};
ghost use Rattle.snapshot_words.specs.Outline.{ArePending};
ghost use Rattle.snapshot_words.specs.Reading.{section_from};
ghost use Rattle.snapshot_words.specs.Taking.{IsReadFault, Takes, Stops, remainder};
ghost use Rattle.snapshot_words.specs.Values.{front_words, pending_words, store_words, run_words};

use crate::fault::SnapFault;
use crate::section::Section;
use crate::taking::take_section;
use crate::values::{front_in, load_in, pending_in, registers_in, run_in, store_in};
use dev_io::Source;
use gp0_words::Pending;
use gp1_status::Regs;
use list_dma::Run;
use vram_copy::Transfer;

/// Reads the height of video memory in rows, and the number of events played.
#[tactic(auto, using(crate::proofs::Shapes::front_is))]
pub(crate) fn read_front<S: Source>(
    source: &mut S,
    offset: &mut u32,
) -> Result<(u16, u64), SnapFault>
    requires offset { offset.old < 2 ^ 30 }
    ensures takes { IfOk result (λ front.
        Takes Section.Front (remainder offset.old (S.left source.old))
        (remainder offset.new (S.left source.new)) (front_words front.0 front.1)) }
    ensures height { IfOk result (λ front. IsHeight front.0) }
    ensures few { IfOk result (λ front. front.1 < 2 ^ 63) }
    ensures near { offset.new ≤ offset.old + 52 }
    ensures fault { IfErr result (λ fault.
        Stops (section_from Section.Front [] offset.old) (S.left source.old) (S.left source.new) fault) }
    ensures faults { CountsFaults IsReadFault (S.faults source.old) (S.faults source.new) result }
{
    match take_section(source, offset, Section::Front) {
        Ok(words) => Ok(front_in(words.as_slice())),
        Err(fault) => Err(fault),
    }
}

/// Reads the registers.
#[tactic(auto, using(crate::proofs::Shapes::registers_are))]
pub(crate) fn read_registers<S: Source>(
    source: &mut S,
    offset: &mut u32,
    height: u16,
) -> Result<Regs, SnapFault>
    requires height { IsHeight height }
    requires offset { offset.old < 2 ^ 30 }
    ensures takes { IfOk result (λ regs.
        Takes (Section.Registers height) (remainder offset.old (S.left source.old))
        (remainder offset.new (S.left source.new)) (words_of regs)) }
    ensures height { IfOk result (λ regs. regs.height ≡ height) }
    ensures bits { IfOk result (λ regs. RegisterBits height (words_of regs)) }
    ensures near { offset.new ≤ offset.old + 52 }
    ensures fault { IfErr result (λ fault.
        Stops (section_from (Section.Registers height) [] offset.old) (S.left source.old) (S.left source.new) fault) }
    ensures faults { CountsFaults IsReadFault (S.faults source.old) (S.faults source.new) result }
{
    match take_section(source, offset, Section::Registers { height }) {
        Ok(words) => Ok(registers_in(height, words.as_slice())),
        Err(fault) => Err(fault),
    }
}

/// Reads the open store.
#[tactic(auto, using(crate::proofs::Shapes::store_is))]
pub(crate) fn read_store<S: Source>(
    source: &mut S,
    offset: &mut u32,
    height: u16,
) -> Result<Option<Transfer>, SnapFault>
    requires height { IsHeight height }
    requires offset { offset.old < 2 ^ 30 }
    ensures takes { IfOk result (λ store.
        Takes (Section.Store height) (remainder offset.old (S.left source.old))
        (remainder offset.new (S.left source.new)) (store_words store)) }
    ensures bounds { IfOk result (λ store. IsOpen height store) }
    ensures near { offset.new ≤ offset.old + 52 }
    ensures fault { IfErr result (λ fault.
        Stops (section_from (Section.Store height) [] offset.old) (S.left source.old) (S.left source.new) fault) }
    ensures faults { CountsFaults IsReadFault (S.faults source.old) (S.faults source.new) result }
{
    match take_section(source, offset, Section::Store { height }) {
        Ok(words) => Ok(store_in(height, words.as_slice())),
        Err(fault) => Err(fault),
    }
}

/// Reads what is pending, and the open load.
#[tactic(auto, using(crate::proofs::Pendings::pending_is))]
pub(crate) fn read_pending<S: Source>(
    source: &mut S,
    offset: &mut u32,
    height: u16,
) -> Result<(Pending, Option<Transfer>), SnapFault>
    requires height { IsHeight height }
    requires offset { offset.old < 2 ^ 30 }
    ensures takes { IfOk result (λ part.
        Takes (Section.Pending height) (remainder offset.old (S.left source.old))
        (remainder offset.new (S.left source.new)) (pending_words part.0 part.1)) }
    ensures bounds { IfOk result (λ part. ArePending height part.0 part.1) }
    ensures near { offset.new ≤ offset.old + 52 }
    ensures fault { IfErr result (λ fault.
        Stops (section_from (Section.Pending height) [] offset.old) (S.left source.old) (S.left source.new) fault) }
    ensures faults { CountsFaults IsReadFault (S.faults source.old) (S.faults source.new) result }
{
    match take_section(source, offset, Section::Pending { height }) {
        Ok(words) => {
            let words = words.as_slice();
            Ok((pending_in(height, words), load_in(height, words)))
        }
        Err(fault) => Err(fault),
    }
}

/// Reads the running transfer.
#[tactic(auto, using(crate::proofs::Pendings::run_is))]
pub(crate) fn read_run<S: Source>(source: &mut S, offset: &mut u32) -> Result<Run, SnapFault>
    requires offset { offset.old < 2 ^ 30 }
    ensures takes { IfOk result (λ run.
        Takes Section.Run (remainder offset.old (S.left source.old))
        (remainder offset.new (S.left source.new)) (run_words run)) }
    ensures bounds { IfOk result IsRun }
    ensures near { offset.new ≤ offset.old + 52 }
    ensures fault { IfErr result (λ fault.
        Stops (section_from Section.Run [] offset.old) (S.left source.old) (S.left source.new) fault) }
    ensures faults { CountsFaults IsReadFault (S.faults source.old) (S.faults source.new) result }
{
    match take_section(source, offset, Section::Run) {
        Ok(words) => Ok(run_in(words.as_slice())),
        Err(fault) => Err(fault),
    }
}
