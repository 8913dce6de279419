ghost use Rattle.std.specs.Prelude.{◌≡◌, ◌<◌};
ghost use Rattle.ranges.specs.Range.{index_below};
ghost use Rattle.geometry.specs.Geometry.{d};
ghost use Rattle.image.specs.Views.{of_image, of_block};
ghost use Rattle.image.specs.Blocks.{lowest_open};
ghost use Rattle.image.specs.WellFormed.{MapsAgree};
ghost use Rattle.naming.specs.Completes.{Completes};
ghost use Rattle.flash.specs.Steps.{step_at};
ghost use Rattle.flash.specs.Writing.{reclaiming};
ghost use Rattle.flash.specs.Repairing.{counted};
ghost use Rattle.flash.specs.Ahead.{taken_with, nth_free, bounds_of_both};
ghost use Rattle.repair_ahead.specs.Emptying.{SameToCopy};

use ahead::nth::nth_live;
use ahead::placements::placement_step;
use bits::lesser;
use blocks::{free_slots, lowest_open};
use flash::{LiveBounds, NextStep, Placement, Step};
use image::kinds::count_live;
use image::view::{Block, View};
use image::{Entry, Slot};
use naming::judged::Judged;
use placing::{entry_at, live_bounds, or_logical, widened};
use rules::NumberSet;

// The reclaim of (iv), into a block of the same image with a free slot for each live one of the victim: all that is read for it is the same when (i) to
// (iii) are done.
#[derive(Clone, Copy)]
struct Emptying<'i, 'c> {
    victim: Judged<'i, 'c>,
    target: Judged<'i, 'c>,
    ghost one_image: { target.block.image ≡ victim.block.image },
    ghost maps_agree: { of_image MapsAgree victim.block.image },
    ghost same: { of_image SameToCopy victim.block.image (of_image counted victim.block.image) victim.block.index target.block.index },
}

// The free slot of a block that has r free ones before it, if there is one.
fn nth_free(judged: &Judged, r: usize) -> Option<usize>
    ensures { result ≡ index_below (d judged.now.block.image.geo) (of_block nth_free judged.now.block r) }
{
    ranges::nth(
        judged.block.image.geo.d(),
        r,
        |i| matches!(judged.slot(i), Slot::Free),
    )
}

// The map word of slot i with it taken, and every slot of that word before it.
fn taken_with(word: u32, i: usize) -> u32
    ensures { result ≡ taken_with word i }
{
    let k = (i % 32) as u32;
    let lower = word % (1u32 << k);
    bits::clear_bit(word - lower, k)
}

// The least and the greatest number that are live in one of two blocks of an image: those of the one, with the least and the greatest of the other.
fn bounds_of_both(target: &Judged, victim: &Judged) -> LiveBounds
    requires { target.now.block.image ≡ victim.now.block.image }
    ensures { result ≡ of_image bounds_of_both victim.now.block.image target.now.block.index victim.now.block.index }
{
    let there = live_bounds(target);
    match live_bounds(victim) {
        Some(moved) => widened(Some(widened(there, moved.least)), moved.greatest),
        None => or_logical(there, victim.block.image.geo.logical),
    }
}

impl<'i, 'c> Emptying<'i, 'c> {
    ghost use Rattle.std.specs.Prelude.{Some};
    ghost use Rattle.image.specs.Words.{entry};
    ghost use Rattle.image.specs.Slots.{number_in};
    ghost use Rattle.flash.specs.Ahead.{copy_into, copy_steps};
    ghost use Rattle.ahead.specs.Ahead.{nth_live};

    // How many steps the copies have: 133 each, and two more where the target is full by the last.
    fn copy_steps(&self) -> u32
        ensures { result ≡ of_block copy_steps self.now.victim.block self.now.target.block.index }
    {
        let live = count_live(&self.victim);
        if live == 0 {
            return 0;
        }
        if free_slots(&self.target.block) == live as usize {
            return 133 * live + 2;
        }
        133 * live
    }

    // The copying of the victim's live slot with r before it, to the free slot of the target with r before it.
    fn copy_into(&self, r: usize, m: usize, slot: usize) -> Placement
        requires m_value { index_below (d self.now.victim.block.image.geo) (of_block nth_live self.now.victim.block r) ≡ Some m }
        requires slot_value { index_below (d self.now.target.block.image.geo) (of_block nth_free self.now.target.block r) ≡ Some slot }
        ensures { result ≡ of_block copy_into self.now.victim.block self.now.target.block.index m (number_in (of_block entry self.now.victim.block m)) }
    {
        let map = self.target.block.map_words()[slot / 32];
        let old = Some((self.victim.block.index, m));
        let entry = entry_at(&self.victim.block.image, old);
        Placement {
            number: Entry(entry).number(),
            block: self.target.block.index,
            slot,
            map: taken_with(map, slot),
            old,
            entry,
            closes: free_slots(&self.target.block) == r + 1,
            bounds: bounds_of_both(&self.target, &self.victim),
        }
    }

    // Step i of (iv), where it is one of the copies: the two steps behind 133 for each copy belong to the last. A copy goes from a live slot to the free
    // one with as many before it. (Both are there; with none there would be no step.) The contents are lent on where they are.
    fn copy_step(&self, i: u32) -> NextStep
        requires { i < of_block copy_steps self.now.victim.block self.now.target.block.index }
        ensures { result ≡ step_at (reclaiming self.now.victim.block.image.geo (of_image counted self.now.victim.block.image) self.now.victim.block.index self.now.target.block.index) i }
    {
        let copy = lesser(count_live(&self.victim) - 1, i / 133);
        let r = copy as usize;
        if let Some(m) = nth_live(&self.victim, r) {
            if let Some(slot) = nth_free(&self.target, r) {
                let p = self.copy_into(r, m, slot);
                let contents = self.victim.block.contents(m);
                return placement_step(self.victim.block.image.geo, p, contents, i - 133 * copy);
            }
        }
        NextStep::Done
    }
}

// Step i of (iv): of the copies into the first open block, then the erasing of v and its new count. With no open block nothing is live in v.
pub fn empty_step(image: &View, completes: &NumberSet, v: usize, i: u32) -> NextStep
    requires completes { of_image Completes image.now completes.now.words }
    requires maps_agree { of_image MapsAgree image.now }
    requires same { of_image SameToCopy image.now (of_image counted image.now) v (of_image lowest_open image.now) }
    ensures { result ≡ step_at (reclaiming image.now.geo (of_image counted image.now) v (of_image lowest_open image.now)) i }
{
    let image = *image;
    let block = Block { image, index: v };
    let victim = Judged { block, completes };
    let copies = match lowest_open(&image) {
        Some(index) => {
            let block = Block { image, index };
            let target = Judged { block, completes };
            let emptying = Emptying { victim, target };
            let copies = emptying.copy_steps();
            if i < copies {
                return emptying.copy_step(i);
            }
            copies
        }
        None => 0,
    };
    let j = i - copies;
    if j == 0 {
        return NextStep::Next(Step::Erase(v));
    }
    if j == 1 {
        let count = block.erase_count() + 1;
        let at = image.geo.start(v);
        return NextStep::Next(Step::Program(at, count));
    }
    NextStep::Done
}
