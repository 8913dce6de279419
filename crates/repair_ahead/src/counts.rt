ghost use Rattle.std.specs.Prelude.{true, ◌≡◌};
ghost use Rattle.image.specs.Views.{of_block};
ghost use Rattle.image.specs.WellFormed.{R2};
ghost use Rattle.flash.specs.Repairing.{sets_count};
ghost use Rattle.repair_ahead.specs.Sought.{sought};

use super::single::single_step;
use blocks::count_unset;
use flash::Step;
use image::view::Block;
use restoring::largest_other;
use std::ops::ControlFlow;

// Step i of a block in (iii): its count, if it was not given one. The other blocks are asked only then.
pub fn count_in_block(block: &Block, i: u32) -> ControlFlow<Step, u32>
    requires { of_block R2 block.now ≡ true }
    ensures { result ≡ sought (of_block sets_count block.now) i }
{
    if count_unset(block) {
        let at = block.image.geo.start(block.index);
        return single_step(true, at, largest_other(&block.image, block.index), i);
    }
    ControlFlow::Continue(i)
}
