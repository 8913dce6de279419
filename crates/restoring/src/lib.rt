#![tactic(auto)]

// (ii) and (iii) of a repair (K4): words 1 and 2 of full blocks, and the count of a blank block, that were not programmed are.
ghost use Rattle.std.specs.Prelude.{true, cond, [], ◌∷◌, ◌++◌, ◌≡◌, ◌<◌, length};
ghost use Rattle.std.specs.Option.{unwrap_or};
ghost use Rattle.image.specs.WellFormed.{R2, NoneSuperseded};
ghost use Rattle.image.specs.Mending.{mendable};
ghost use Rattle.image.specs.Views.{of_image};
ghost use Rattle.flash.specs.declared.Step.TheVariants.{Program};
ghost use Rattle.flash.specs.Repairing.{sets_least, sets_greatest, bounding, largest_other, counting};
ghost use Rattle.flash.specs.Runs.{Does, of_run};

use blocks::{count_unset, is_full};
use flash::LiveBounds;
use flash::run::Run;
use image::view::View;
use placing::live_bounds;
use ranges::{find, largest};

// Bounds as (ii) programs them: where no number is live, 0 for both.
pub fn or_zero(live: Option<LiveBounds>) -> LiveBounds
    ensures { result ≡ unwrap_or live (record { least = 0; greatest = 0 }) }
{
    match live {
        Some(live) => live,
        None => LiveBounds {
            least: 0,
            greatest: 0,
        },
    }
}

// Programs one word where that is asked for.
fn program_where(run: &mut Run, asks: bool, place: usize, asked: u32)
    requires { place < length run.old.words.now }
    ensures { Does run.old run.new (cond asks (Program place asked ∷ []) []) }
{
    if asks {
        run.program(place, asked);
    }
}

// (ii) in block b: where it is full, each of words 1 and 2 that is all ones.
fn restore_block(run: &mut Run, b: usize)
    requires none_superseded { of_run NoneSuperseded run.old }
    requires b_lt_blocks { b < run.old.geo.blocks }
    requires b_value { of_run R2 run.old b ≡ true }
    ensures { Does run.old run.new (of_run sets_least run.old b ++ of_run sets_greatest run.old b) }
{
    let start = run.geo.start(b);
    let block = run.view().block(b);
    if !is_full(&block) {
        return;
    }
    let least_unset = run.words[start + 1] == 0xFFFF_FFFF;
    let greatest_unset = run.words[start + 2] == 0xFFFF_FFFF;
    let asked = or_zero(live_bounds(&block));
    program_where(run, least_unset, start + 1, asked.least);
    program_where(run, greatest_unset, start + 2, asked.greatest);
}

// (ii): block by block, until none of the steps is left.
pub fn restore_bounds(run: &mut Run)
    requires image_value { of_run mendable run.old ≡ true }
    requires none_superseded { of_run NoneSuperseded run.old }
    ensures { Does run.old run.new (of_run bounding run.old) }
{
    let blocks = run.geo.blocks as usize;
    for b in 0..blocks {
        if run.left == 0 {
            return;
        }
        restore_block(run, b);
    }
}

// The largest erase count of the blocks other than b, whatever b is.
pub fn largest_other(image: &View, b: usize) -> u32
    ensures { result ≡ of_image largest_other image.now b }
{
    largest(image.geo.blocks as usize, |c| {
        if c == b {
            0
        } else {
            image.block(c).erase_count()
        }
    })
}

// (iii): the first block that was not given its count gets the largest of the others. There is one at most.
pub fn restore_count(run: &mut Run)
    requires { of_run mendable run.old ≡ true }
    ensures { Does run.old run.new (of_run counting run.old) }
{
    let image = run.view();
    let unset = find(image.geo.blocks as usize, |b| {
        count_unset(&image.block(b))
    });
    if let Some(b) = unset {
        let count = largest_other(&image, b);
        run.program(run.geo.start(b), count);
    }
}
