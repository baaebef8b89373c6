//! Laws of flat captures, each the contract of a function that does nothing.
ghost use Rattle.capture_flat.specs.Film.{FlatKeepsFilm};
ghost use Rattle.capture_flat.specs.Laws.{FlatReplaysAlike};

/// Flat events made from events without a fault have no fault. Both show the same words and lead to the same status
/// word and the same video memory, from every machine of either height.
pub fn flat_replays_alike()
    ensures { FlatReplaysAlike }
{}

/// Flat events made from events without a fault keep the film and the history of cells: the same pictures at flips and
/// at marks, and the same items change the same cells in the same way. Only the event numbers differ.
pub fn flat_keeps_film()
    ensures { FlatKeepsFilm }
{}
