ghost use Rattle.std.specs.Prelude.{◌≡◌, ◌<◌};
ghost use Rattle.ranges.specs.Range.{join_below};
ghost use Rattle.geometry.specs.Geometry.{d};
ghost use Rattle.image.specs.Views.{of_block};
ghost use Rattle.flash.specs.Repairing.{clears_slot};
ghost use Rattle.repair_ahead.specs.Sought.{sought};

use super::among::step_among;
use super::single::single_step;
use flash::Step;
use naming::judged::Judged;
use std::ops::ControlFlow;

// Step i of one slot of a block in (i): its entry with bit 31 cleared, if the slot is superseded.
fn retire_slot(judged: &Judged, slot: usize, i: u32) -> ControlFlow<Step, u32>
    requires { slot < d judged.now.block.image.geo }
    ensures { result ≡ sought (of_block clears_slot judged.now.block slot) i }
{
    let at = judged.block.image.geo.entries_start(judged.block.index) + slot;
    let entry = judged.block.entries()[slot];
    single_step(
        judged.is_superseded(slot),
        at,
        bits::clear_bit(entry, 31),
        i,
    )
}

// Step i of a block in (i): its slots in turn.
pub fn retire_in_block(judged: &Judged, i: u32) -> ControlFlow<Step, u32>
    ensures { result ≡ sought (join_below (d judged.now.block.image.geo) (of_block clears_slot judged.now.block)) i }
{
    let d = judged.block.image.geo.d();
    step_among(d, i, |slot, k| retire_slot(judged, slot, k))
}
