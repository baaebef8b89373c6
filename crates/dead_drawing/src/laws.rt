//! What may be left out of a list of events. Each law is the contract of a function that does nothing.
ghost use Rattle.std.specs.Prelude.{◌≡◌};
ghost use Rattle.gpu_capture.specs.declared.event.Event.TheVariants.{Read, Skip, Stat};
ghost use Rattle.dead_drawing.specs.Examples.{nothing_then, rectangle_then};
ghost use Rattle.dead_drawing.specs.Laws.{SlimReplaysAlike};
ghost use Rattle.dead_drawing.specs.OneEvent.{CalmEventsKeepAlike, FillsMakeSame};
ghost use Rattle.dead_drawing.specs.OnePacket.{PacketsAreUnseen};
ghost use Rattle.dead_drawing.specs.Slim.{slim_events};

/// Two states agree outside of an area, in the registers, the open transfers and the pending words. They still do after
/// the same event, if it is no read of GPUREAD and completes no item that reads other cells. The event shows the same
/// words in both. A fill that covers the area makes the states the same, if video memory has whole rows.
pub fn events_keep_alike()
    ensures calm { CalmEventsKeepAlike }
    ensures fill { FillsMakeSame }
{}

/// The words of a polygon or rectangle without texture, or of a single line, may be left out in two cases: it draws
/// nothing, or a later fill covers its area before anything reads it. Whatever events come before and after, the same
/// words are shown, and the final status word and video memory are the same. Video memory must have whole rows.
pub fn packets_are_unseen()
    ensures { PacketsAreUnseen }
{}

/// In every version, a list of events of the ports shows the same words without its dead packets. The final status word
/// and video memory are the same.
pub fn slim_replays_alike()
    ensures { SlimReplaysAlike }
{}

/// A rectangle is dropped if only a read of the status word comes between it and a fill that covers it. It is kept if a
/// read of GPUREAD, shown or not, comes between them.
pub fn some_lists()
    ensures dropped { slim_events 512 (rectangle_then Stat) ≡ nothing_then Stat }
    ensures kept { slim_events 512 (rectangle_then Read) ≡ rectangle_then Read }
    ensures skipped { slim_events 512 (rectangle_then Skip) ≡ rectangle_then Skip }
{}
