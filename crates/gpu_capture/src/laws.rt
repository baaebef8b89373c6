//! Laws of captures. Each is the contract of a function that does nothing.
ghost use Rattle.gpu_capture.specs.Limit.{TakesFew, TakesFewAtOnce};
ghost use Rattle.gpu_capture.specs.Whole.{RecordsAreRead};
ghost use Rattle.gpu_capture.specs.Written.{WrittenIsRead};

/// The written form of events that a version allows is read as these events and End, whatever bytes follow. It must
/// have at most 2^30 bytes.
pub fn written_is_read()
    ensures { WrittenIsRead }
{}

/// A header, records of any count that its version allows, and an End record are read as their events and End, whatever
/// bytes follow. Together they must have at most 2^30 bytes.
pub fn records_are_read()
    ensures { RecordsAreRead }
{}

/// A reader reads at most 2^30 bytes of a capture. This follows from what its calls ensure of the bytes read.
pub fn few_bytes_are_taken()
    ensures { TakesFew }
{}

/// One call of a reader reads at most 16 bytes, or 24 with the header. After the header, it has read as many bytes in
/// all as the offset of the next word, at most 2^30.
pub fn answers_take_few()
    ensures { TakesFewAtOnce }
{}
