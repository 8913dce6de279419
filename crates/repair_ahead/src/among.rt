ghost use Rattle.std.specs.Prelude.{List, ◌≡◌, ℕ};
ghost use Rattle.ranges.specs.Asked.{MayBeAsked, Tells};
ghost use Rattle.ranges.specs.Range.{join_below};
ghost use Rattle.flash.specs.declared.Step.{Step};
ghost use Rattle.repair_ahead.specs.Sought.{sought};

use flash::Step;
use std::ops::ControlFlow;

// Step i of lists in turn, of which a part tells the steps: it is asked at each index below count until it has found the step. (Here and below what was
// found is handed on by `let .. else`: `?` would call functions of std, which no public call may stand on.)
pub fn step_among<F: Fn(usize, u32) -> ControlFlow<Step, u32>>(
    count: usize,
    i: u32,
    part: F,
) -> ControlFlow<Step, u32>
    requires { (k : ℕ) → MayBeAsked (λ b. F.pre part b k) count }
    ensures { (steps : ℕ → List Step) → ((k : ℕ) → Tells (λ b. F.post part b k) count (λ b. sought (steps b) k)) → result ≡ sought (join_below count steps) i }
{
    let mut left = i;
    for index in 0..count {
        let told = part(index, left);
        let ControlFlow::Continue(behind) = told else {
            return told;
        };
        left = behind;
    }
    ControlFlow::Continue(left)
}
