//! The free areas, computed anew from the free frames.

ghost use Rattle.std.specs.Prelude.{◌≡◌, ◌≤◌, vec_capacity};
ghost use Rattle.zone_blocks.specs.Areas.{AreMaximalBlocks};
ghost use Rattle.step_rules.specs.State.{free_in};
ghost use Rattle.mem_core.specs.Rows.{state_in};

use crate::rows::Rows;
use zone_blocks::areas::FreeAreas;

/// Sets the areas to the maximal blocks of the frames that are free by the rows. `free` is scratch space.
pub(crate) fn set_areas(rows: &Rows, free: &mut Vec<bool>, areas: &mut FreeAreas)
    requires frames { areas.old.frames ≡ rows.now.frames }
    requires room { rows.now.frames ≤ vec_capacity free.old }
    ensures areas { AreMaximalBlocks (free_in (state_in rows.now).zone (state_in rows.now).phases) areas.new.blocks }
    ensures frames { areas.new.frames ≡ areas.old.frames }
    ensures room { vec_capacity free.new ≡ vec_capacity free.old }
{
    rows.mark_free(free);
    areas.set_from(free.as_slice());
}
