#![tactic(auto)]

// Whether a repair can mend an image, and which block it would empty (K4): told from the image before it, by the real kinds of its slots.
ghost use Rattle.std.specs.Prelude.{true, ◌||◌, ◌≡◌, suc};
ghost use Rattle.ranges.specs.Range.{index_below};
ghost use Rattle.image.specs.Words.{erase_count};
ghost use Rattle.image.specs.Slots.{slot};
ghost use Rattle.image.specs.Blocks.{live_slots};
ghost use Rattle.image.specs.WellFormed.{R1, R2, MapsAgree};
ghost use Rattle.image.specs.Mending.{count_unset, bounds_mendable, mendable_block, mendable, emptiest};
ghost use Rattle.image.specs.Views.{of_image, of_block};
ghost use Rattle.rules.specs.Marks.{Marks};
ghost use Rattle.naming.specs.Completes.{Completes};

use blocks::{count_unset, is_full};
use image::kinds::{Kinds, count_live};
use image::view::{Block, View};
use naming::judged::Judged;
use naming::mark_all_completes;
use rules::{NumberSet, greatest_mapped, least_mapped, rule1, rule2, rule3, rule4};

// What is left of R1, of a block that keeps R2: its count is not above the ceiling, or a repair can program it.
fn count_mendable(block: &Block) -> bool
    requires { of_block R2 block.now ≡ true }
    ensures { result ≡ (of_block R1 block.now || of_block count_unset block.now) }
{
    rule1(block) || count_unset(block)
}

// What is left of R7, of a block that keeps R2: a word 1 that was not programmed bounds nothing (ii), and no number is above such a word 2.
fn bounds_mendable(judged: &Judged) -> bool
    requires { of_block R2 judged.now.block ≡ true }
    ensures { result ≡ of_block bounds_mendable judged.now.block }
{
    let least = least_mapped(&judged.block);
    let greatest = greatest_mapped(&judged.block);
    if !is_full(&judged.block) {
        return (least == 0xFFFF_FFFF) & (greatest == 0xFFFF_FFFF);
    }
    if least == 0xFFFF_FFFF {
        return judged.live_between(0, greatest);
    }
    judged.live_between(least, greatest)
}

// Whether a block has no fault but those that a repair mends. R2 is asked first, which the others read the map by. The marks know the earlier
// blocks' live numbers and learn this one's.
#[tactic(auto, unfolding(image::specs::Mending::mendable_block))]
fn mendable_block(judged: &Judged, marks: &mut NumberSet) -> bool
    requires { Marks judged.now.block.image.geo (of_image slot judged.now.block.image) judged.now.block.index 0 marks.old.words }
    ensures value { result ≡ of_block mendable_block judged.now.block }
    ensures marks_2 { result ≡ true → Marks judged.now.block.image.geo (of_image slot judged.now.block.image) (suc judged.now.block.index) 0 marks.new.words }
{
    let block = &judged.block;
    rule2(block)
        && count_mendable(block)
        && rule3(block)
        && rule4(block)
        && judged.rule5(marks)
        && bounds_mendable(judged)
}

// Whether a repair can mend the image: each block by itself, and one count at most that was not programmed.
pub fn is_mendable(image: &View) -> bool
    ensures { result ≡ of_image mendable image.now }
{
    let mut completes = NumberSet::new();
    mark_all_completes(image, &mut completes);
    let mut marks = NumberSet::new();
    let mut unset = 0u32;
    let blocks = image.geo.blocks as usize;
    for b in 0..blocks {
        let judged = Judged {
            block: image.block(b),
            completes: &completes,
        };
        if !mendable_block(&judged, &mut marks) {
            return false;
        }
        if count_unset(&judged.block) {
            unset += 1;
        }
    }
    unset <= 1
}

// What (iv) goes by, the least first: how many slots of a block are live, then how often it was erased.
fn rank(block: &Block, completes: &NumberSet) -> (u32, u32)
    requires { of_image Completes block.now.image completes.now.words }
    ensures { result ≡ (of_block live_slots block.now, of_block erase_count block.now) }
{
    let judged = Judged {
        block: *block,
        completes,
    };
    (count_live(&judged), block.erase_count())
}

// (iv): the block that is emptied, if one is full: of the full ones the one with fewest live slots, the least worn among equals, and the first of
// those.
pub fn emptiest(image: &View, completes: &NumberSet) -> Option<usize>
    requires completes { of_image Completes image.now completes.now.words }
    requires maps_agree { of_image MapsAgree image.now }
    ensures { result ≡ index_below image.now.geo.blocks (of_image emptiest image.now) }
{
    ranges::least(
        image.geo.blocks as usize,
        |b| is_full(&image.block(b)),
        |b| rank(&image.block(b), completes),
    )
}
