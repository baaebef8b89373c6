// Sets the height of a new machine's video memory.
ghost use Rattle.std.specs.Prelude.{◌≡◌, ◌*◌, length, if◌then◌else◌};
ghost use Rattle.px_num.specs.Height.{height_of_profile};
ghost use Rattle.event_play.specs.Replay.{Replay, tall_replay};
ghost use Rattle.event_play.specs.RigState.{first_rig, StandsFor};

use event_play::Rig;

/// Sets 1024 rows if `tall`, and else keeps 512. Requires a new machine.
pub(crate) fn set_profile(rig: &mut Rig, tall: bool)
    requires new { rig.old ≡ first_rig }
    ensures stands { (t : Replay) → StandsFor rig.old t → StandsFor rig.new (if tall then tall_replay t else t) }
    ensures rows { length rig.new.gpu.parts.m ≡ 1024 * height_of_profile tall }
    ensures words { length rig.new.ram ≡ 524288 }
    ensures played { rig.new.played ≡ 0 }
{
    if tall {
        rig.set_tall();
    }
}
