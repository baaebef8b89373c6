// Sets the state of a machine, except for its memories.
ghost use Rattle.std.specs.Prelude.{◌≡◌};
ghost use Rattle.event_play.specs.RigState.{first_rig};
ghost use Rattle.snapshot_words.specs.Outline.{IsOutline};
ghost use Rattle.gpu_snapshot.specs.Restored.{HoldsOutline};

use crate::profile::set_profile;
use event_play::Rig;
use snapshot_words::Outline;

/// Sets everything except the contents of the memories. Requires a new machine, and an outline within its bounds.
pub(crate) fn put_outline(rig: &mut Rig, outline: Outline)
    requires new { rig.old ≡ first_rig }
    requires bounds { IsOutline outline }
    ensures { HoldsOutline rig.new outline }
{
    set_profile(rig, outline.regs.is_tall());
    let Outline {
        played,
        regs,
        pending,
        load,
        store,
        run,
    } = outline;
    rig.set_state(regs, pending, load, store);
    rig.set_run(played, run);
}
