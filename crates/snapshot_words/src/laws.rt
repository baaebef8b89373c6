//! Facts about all states. Each is the contract of an empty function.
ghost use Rattle.snapshot_words.specs.Laws.{OutlinesAreRead, OneSpelling, StatesAreRead};

/// Every state within the bounds whose values fit their words is read from its encoding, whatever bytes follow.
pub fn outlines_are_read()
    ensures { OutlinesAreRead }
{}

/// No other bytes are read as a state: a state that is read is within the bounds, and the bytes read are its encoding.
pub fn outlines_have_one_spelling()
    ensures { OneSpelling }
{}

/// The same as [`outlines_are_read`] for a state with both memories.
pub fn states_are_read()
    ensures { StatesAreRead }
{}
