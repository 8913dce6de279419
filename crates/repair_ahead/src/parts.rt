ghost use Rattle.std.specs.Prelude.{◌++◌, ◌≡◌, ◌<◌};
ghost use Rattle.image.specs.Views.{of_image};
ghost use Rattle.image.specs.WellFormed.{MapsAgree};
ghost use Rattle.naming.specs.Completes.{Completes};
ghost use Rattle.flash.specs.Repairing.{clearing, bounding, counting};
ghost use Rattle.repair_ahead.specs.Sought.{sought};

use super::among::step_among;
use super::bounds::bound_in_block;
use super::counts::count_in_block;
use super::retires::retire_in_block;
use flash::Step;
use image::view::{Block, View};
use naming::judged::Judged;
use rules::NumberSet;
use std::ops::ControlFlow;

// Block b by the real kinds of its slots.
fn judged<'i, 'c>(image: &View<'i>, completes: &'c NumberSet, b: usize) -> Judged<'i, 'c>
    requires completes { of_image Completes image.now completes.now.words }
    requires b_lt_blocks { b < image.now.geo.blocks }
    ensures image { result.block.image ≡ image.now }
    ensures index { result.block.index ≡ b }
{
    Judged {
        block: Block {
            image: *image,
            index: b,
        },
        completes,
    }
}

// Step i of (i) to (iii), each told from the image as it is.
pub fn mended_step(image: &View, completes: &NumberSet, i: u32) -> ControlFlow<Step, u32>
    requires completes { of_image Completes image.now completes.now.words }
    requires maps_agree { of_image MapsAgree image.now }
    ensures { result ≡ sought (of_image clearing image.now ++ (of_image bounding image.now ++ of_image counting image.now)) i }
{
    let blocks = image.geo.blocks as usize;
    let retired = step_among(
        blocks,
        i,
        |b, k| retire_in_block(&judged(image, completes, b), k),
    );
    let ControlFlow::Continue(j) = retired else {
        return retired;
    };
    let bounded = step_among(
        blocks,
        j,
        |b, k| bound_in_block(&judged(image, completes, b), k),
    );
    let ControlFlow::Continue(k) = bounded else {
        return bounded;
    };
    step_among(blocks, k, |b, k| count_in_block(&image.block(b), k))
}
