ghost use Rattle.std.specs.Prelude.{true, Ok, ◌≡◌};
ghost use Rattle.image.specs.Views.{of_image};
ghost use Rattle.image.specs.Mending.{mendable};
ghost use Rattle.flash.specs.Steps.{step_at};
ghost use Rattle.flash.specs.Repairing.{repairing};
ghost use Rattle.repairing.specs.Planned.{repair_planned, plan_or_refusal};

use super::emptying::empty_step;
use super::parts::mended_step;
use flash::NextStep;
use image::view::View;
use naming::mark_all_completes;
use repairing::RepairPlan;
use rules::NumberSet;
use std::ops::ControlFlow;

// Step i of a repair that is not refused, as it is planned: of (i) to (iii), or of (iv) behind them, where there are steps only if a block is to be
// emptied. The numbers with a complete entry are marked once.
pub fn repair_step(image: &View, plan: RepairPlan, i: u32) -> NextStep
    requires image_value { of_image mendable image.now ≡ true }
    requires plan_value { plan_or_refusal (of_image repair_planned image.now) ≡ Ok plan }
    ensures { result ≡ step_at (of_image repairing image.now) i }
{
    let mut completes = NumberSet::new();
    mark_all_completes(image, &mut completes);
    match mended_step(image, &completes, i) {
        ControlFlow::Break(step) => NextStep::Next(step),
        ControlFlow::Continue(k) => match plan {
            RepairPlan::Empty(v) => empty_step(image, &completes, v, k),
            RepairPlan::Mend => NextStep::Done,
        },
    }
}
