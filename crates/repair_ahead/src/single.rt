ghost use Rattle.std.specs.Prelude.{cond, [], ◌∷◌, ◌≡◌};
ghost use Rattle.flash.specs.declared.Step.TheVariants.{Program};
ghost use Rattle.repair_ahead.specs.Sought.{sought};

use flash::Step;
use std::ops::ControlFlow;

// Step i where the list is a single step, and that only if it is wanted.
pub fn single_step(wanted: bool, at: usize, word: u32, i: u32) -> ControlFlow<Step, u32>
    ensures { result ≡ sought (cond wanted (Program at word ∷ []) []) i }
{
    if wanted {
        if i == 0 {
            return ControlFlow::Break(Step::Program(at, word));
        }
        let later = i - 1;
        return ControlFlow::Continue(later);
    }
    ControlFlow::Continue(i)
}
