//! Laws of the window and of the events that leave it. Each is the contract of a function that does nothing.
ghost use Rattle.dead_drawing.specs.Laws.{SlimReplaysAlike};
ghost use Rattle.capture_slim.specs.Places.{PlacesLaw};
ghost use Rattle.capture_slim.specs.Stream.{DueLaw, LeavesLaw, StreamLaw};

/// The events that stay at their positions (`places`) are the list without its dead packets.
pub fn places_are_slim()
    ensures { PlacesLaw }
{}

/// What has left the window is final, whatever events follow. Together with what the window still has at the end, it is
/// the list without its dead packets, each event at its position.
pub fn window_leaves_slim()
    ensures stream { StreamLaw }
    ensures leaves { LeavesLaw }
{}

/// Which of the first events stay is decided once 4,096 more events were read, whatever follows.
pub fn what_is_due_stays()
    ensures { DueLaw }
{}

/// For every version, a list of port events and the same list without its dead packets show the same words. Both leave
/// the same status word and the same video memory.
pub fn slim_replays_alike()
    ensures { SlimReplaysAlike }
{}
