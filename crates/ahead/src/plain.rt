ghost use Rattle.std.specs.Prelude.{true, ◌≡◌, ◌<◌};
ghost use Rattle.geometry.specs.Geometry.{d};
ghost use Rattle.image.specs.Slots.{find};
ghost use Rattle.image.specs.Views.{of_image, of_block};
ghost use Rattle.image.specs.WellFormed.{R2, well_formed, NoneSuperseded};
ghost use Rattle.flash.specs.Steps.{step_at};
ghost use Rattle.flash.specs.Placing.{InImage, invalidates};
ghost use Rattle.flash.specs.Writing.{filling};
ghost use Rattle.flash.specs.Ahead.{placement_over};

use super::placements::placement_step;
use blocks::free_slots;
use flash::{NextStep, Placement, Sector, Step};
use image::Location;
use image::view::{Block, View};
use placing::{bounds_with, entry_at};
use writing::filling::next_slot;

// The placing of n in slot i of a block, which is free: the block is full then if this is its last free slot.
fn placement_over(block: &Block, n: u32, i: usize) -> Placement
    requires none_superseded { of_image NoneSuperseded block.now.image }
    requires n_lt_logical { n < block.now.image.geo.logical }
    requires i_bound { i < d block.now.image.geo }
    requires b_value { of_block R2 block.now ≡ true }
    ensures { result ≡ of_image placement_over block.now.image n (of_image find block.now.image n) block.now.index i }
{
    let word = block.map_words()[i / 32];
    let map = bits::clear_bit(word, (i % 32) as u32);
    let old = block.image.find(n);
    Placement {
        number: n,
        block: block.index,
        slot: i,
        map,
        old,
        entry: entry_at(&block.image, old),
        closes: free_slots(block) == 1,
        bounds: bounds_with(block, n),
    }
}

// Step i of a write of a sector by rule 1 or 2: of its placing in the slot that they take.
pub fn fill_step(image: &View, sector: &Sector, i: u32) -> NextStep
    requires image_value { of_image well_formed image.now ≡ true }
    requires number_lt_logical { sector.now.number < image.now.geo.logical }
    ensures { result ≡ step_at (of_image filling image.now sector.now.number sector.now.words.now) i }
{
    match next_slot(image) {
        Some((b, slot)) => {
            let p = placement_over(&image.block(b), sector.number, slot);
            placement_step(image.geo, p, sector.words, i)
        }
        None => NextStep::Done,
    }
}

// Step i of the release of what was found: there is one, its live entry with bit 31 cleared.
pub fn release_step(image: &View, live: Option<Location>, i: u32) -> NextStep
    requires { InImage image.now.geo live }
    ensures { result ≡ step_at (of_image invalidates image.now live) i }
{
    match live {
        Some((b, slot)) => {
            if i == 0 {
                let at = image.geo.entries_start(b) + slot;
                let invalid = bits::clear_bit(entry_at(image, live), 31);
                return NextStep::Next(Step::Program(at, invalid));
            }
            NextStep::Done
        }
        None => NextStep::Done,
    }
}
