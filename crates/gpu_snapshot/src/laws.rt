//! Laws of all states. No code runs here: each law is the contract of an empty function.
ghost use Rattle.event_play.specs.AlikeStates.{AlikeReplayAlike};
ghost use Rattle.gpu_snapshot.specs.CutFiles.{CutLaw};
ghost use Rattle.gpu_snapshot.specs.Laws.{StatesAreRead};

/// Two machines that differ only in the GP0 words they received, and whose words leave the same pending packet, replay
/// every capture alike: same words shown, same notes, same ending, same cost, same output. So one can replace the
/// other.
pub fn alike_replay_alike()
    ensures { AlikeReplayAlike }
{
    event_play::laws::alike_replay_alike();
}

/// The snapshot of a machine within the bounds is opened as an alike machine, after the same number of events, whatever
/// bytes follow it.
pub fn states_are_read()
    ensures { StatesAreRead }
{}

/// Playing the file that `cut` writes continues the replay of the capture after its first events. The output of the
/// whole capture is that of its state after the first events, followed by the output of the file, for taps that
/// received the notes of the first events. Both replays end in the same way.
pub fn cut_files_go_on()
    ensures { CutLaw }
{}
