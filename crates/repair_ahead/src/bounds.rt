ghost use Rattle.std.specs.Prelude.{true, ◌++◌, ◌≡◌};
ghost use Rattle.image.specs.Views.{of_block};
ghost use Rattle.image.specs.WellFormed.{R2};
ghost use Rattle.flash.specs.Repairing.{sets_least, sets_greatest};
ghost use Rattle.repair_ahead.specs.Sought.{sought};

use super::single::single_step;
use blocks::is_full;
use flash::Step;
use naming::judged::Judged;
use placing::live_bounds;
use restoring::or_zero;
use rules::{greatest_mapped, least_mapped};
use std::ops::ControlFlow;

// Step i of a block in (ii): where it is full, each of words 1 and 2 that is not programmed: with the least and the greatest of its live numbers, or 0
// for both where none is live.
pub fn bound_in_block(judged: &Judged, i: u32) -> ControlFlow<Step, u32>
    requires { of_block R2 judged.now.block ≡ true }
    ensures { result ≡ sought (of_block sets_least judged.now.block ++ of_block sets_greatest judged.now.block) i }
{
    let block = judged.block;
    let least_unset = least_mapped(&block) == 0xFFFF_FFFF;
    let greatest_unset = greatest_mapped(&block) == 0xFFFF_FFFF;
    if is_full(&block) & (least_unset | greatest_unset) {
        let asked = or_zero(live_bounds(judged));
        let start = block.image.geo.start(block.index);
        let first = single_step(least_unset, start + 1, asked.least, i);
        let ControlFlow::Continue(k) = first else {
            return first;
        };
        return single_step(greatest_unset, start + 2, asked.greatest, k);
    }
    ControlFlow::Continue(i)
}
