//! Laws of events, each the contract of a function that does nothing.
ghost use Rattle.event_play.specs.AlikeStates.{AlikeReplayAlike};
ghost use Rattle.event_play.specs.Costs.{CostsAreSmall};
ghost use Rattle.event_play.specs.Shots.{FramesAreShots};
ghost use Rattle.event_play.specs.Splits.{SplitLaw};
ghost use Rattle.event_play.specs.Turns.{TurnsAreWhole};

/// A transfer from main memory runs in turns to its end; a list has a node and ends. Between turns, only writes to main
/// memory occur, none to an address that remains to be read. The final machine then equals that of one Dma event
/// followed by the same writes.
pub fn turns_are_whole()
    ensures { TurnsAreWhole }
{}

/// Playing costs at most four store steps per cell. Counted are the cells in the boxes of what it draws, fills and
/// copies, and the pixels that it loads or reads.
pub fn costs_are_small()
    ensures { CostsAreSmall }
{}

/// Two machines that agree in everything except the words already fed, and have the same words pending, replay every
/// capture alike. They show the same words, send the same notes, end alike, cost the same and write the same output.
pub fn alike_replay_alike()
    ensures { AlikeReplayAlike }
{}

/// A replay may be cut between two events. The later events start from the machine after the earlier ones. What they
/// show, note, write and cost is the same from there.
pub fn replays_can_be_cut()
    ensures { SplitLaw }
{}

/// Each picture that `frames` writes is what `shot` writes for the events up to that flip or mark. For flips, the last
/// picture is what `shot` writes for all events.
pub fn frames_are_shots()
    ensures { FramesAreShots }
{}
