// Writes that count the bytes written before a failure.
ghost use Rattle.std.specs.Prelude.{◌≡◌, ◌≤◌, ◌<◌, length, take, IfErr, OnErr, OnOk};
ghost use Rattle.dev_io.specs.Device.{Rose, appended};
ghost use Rattle.gathered_out.specs.Pieces.{lacking};

use crate::extent::Extent;
use dev_io::Sink;

/// Writes all bytes of `piece`. On failure, returns how many of its bytes were written, fewer than all.
pub(crate) fn write_counted<K: Sink>(out: &mut K, piece: &[u8]) -> Result<(), usize>
    ensures ok { OnOk result (K.held out.new ≡ appended (K.held out.old) piece.now) }
    ensures part { IfErr result (λ taken. taken < length piece.now) }
    ensures failed { IfErr result (λ taken. K.held out.new ≡ appended (K.held out.old) (take taken piece.now)) }
    ensures cause { OnErr result (Rose (K.faults out.old) (K.faults out.new)) }
    ensures faults { K.faults out.old ≤ K.faults out.new }
{
    let mut at = 0;
    while at < piece.len() {
        match out.write(&piece[at..]) {
            Ok(n) => at += n,
            Err(_) => return Err(at),
        }
    }
    Ok(())
}

/// Returns the event number of the first piece that is incomplete, if `taken` bytes of all pieces were written.
/// Returns 0 if all pieces are complete.
pub(crate) fn first_lacking(extents: &[Extent], taken: usize) -> u64
    ensures { result ≡ lacking extents.now taken }
{
    let mut rest = taken;
    for extent in extents {
        if rest < extent.len {
            return extent.number;
        }
        rest -= extent.len;
    }
    0
}
