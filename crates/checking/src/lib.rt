#![tactic(auto)]

// What is wrong with an image: the first block and rule that fail. A sound image is passed over once, by the slots' own kinds; only where that
// finds something wrong, the slower walk of `naming` says what it is.
ghost use Rattle.std.specs.Prelude.{true, ◌&&◌, ◌≡◌, suc, ◌<◌};
ghost use Rattle.geometry.specs.Geometry.{d};
ghost use Rattle.image.specs.Words.{contents};
ghost use Rattle.image.specs.Slots.{own_slot, is_free_entry};
ghost use Rattle.image.specs.WellFormed.{all_ones, sound};
ghost use Rattle.image.specs.Views.{of_image, of_block};
ghost use Rattle.rules.specs.Marks.{Marks};
ghost use Rattle.checking.specs.OwnKinds.{four_by_own, sound_by_own};
ghost use Rattle.checking.specs.FirstFault.{fault_if_any};

use blocks::count_blank;
use image::slots::slot_of;
use image::view::{Block, View};
use image::{Fault, Slot};
use naming::first_bad;
use rules::{NumberSet, contents_clean, rest_set, rule1, rule7};

// What R2 and R3 ask of slot i of a block where its map bit is set: it is free by its entry too, and its contents are ones.
fn free_kept(block: &Block, i: usize, entry: u32) -> bool
    requires { i < d block.now.image.geo }
    ensures { result ≡ (is_free_entry entry && all_ones (of_block contents block.now i)) }
{
    entry == 0xFFFF_FFFF && contents_clean(block, i)
}

// R2 to R5 in one pass over the slots, by their own kinds, of which none is superseded, and none free where the map bit is clear. The marks know
// the earlier blocks' numbers and learn this one's. (One loop for the four, and not the rules' own functions: a check spends its time here.)
fn rules_2_to_5(block: &Block, marks: &mut NumberSet) -> bool
    requires { Marks block.now.image.geo (of_image own_slot block.now.image) block.now.index 0 marks.old.words }
    ensures value { result ≡ of_block four_by_own block.now }
    ensures marks_2 { result ≡ true → Marks block.now.image.geo (of_image own_slot block.now.image) (suc block.now.index) 0 marks.new.words }
{
    if !rest_set(block) {
        return false;
    }
    let logical = block.image.geo.logical;
    let map = block.map_words();
    for (i, &entry) in block.entries().iter().enumerate() {
        if bits::is_set(map[i / 32], (i % 32) as u32) {
            if !free_kept(block, i, entry) {
                return false;
            }
        } else {
            match slot_of(logical, false, entry) {
                Slot::Live(n) => {
                    if !marks.mark(n) {
                        return false;
                    }
                }
                Slot::Faulty => {
                    return false;
                }
                _ => {}
            }
        }
    }
    true
}

// Whether a block keeps its rules, by the slots' own kinds.
fn keeps_rules(block: &Block, marks: &mut NumberSet) -> bool
    requires { Marks block.now.image.geo (of_image own_slot block.now.image) block.now.index 0 marks.old.words }
    ensures value { result ≡ of_block sound_by_own block.now }
    ensures marks_2 { result ≡ true → Marks block.now.image.geo (of_image own_slot block.now.image) (suc block.now.index) 0 marks.new.words }
{
    rule1(block) && rules_2_to_5(block, marks) && rule7(block)
}

// Whether every block keeps its rules. A number that is live in two slots by their own kinds fails here, also where one of the two is
// superseded: then R8 is broken.
fn is_sound(image: &View) -> bool
    ensures { result ≡ of_image sound image.now }
{
    let mut marks = NumberSet::new();
    let blocks = image.geo.blocks as usize;
    for b in 0..blocks {
        if !keeps_rules(&image.block(b), &mut marks) {
            return false;
        }
    }
    true
}

// The first failing pair, if the image is not well formed: each block by its rules in turn, then R6, which names block B.
pub fn first_fault(image: &View) -> Result<(), Fault>
    ensures { result ≡ of_image fault_if_any image.now }
{
    if !is_sound(image) {
        return Err(first_bad(image));
    }
    if count_blank(image) == 0 {
        let past_all = image.geo.blocks as u32;
        return Err(Fault {
            block: past_all,
            rule: 6,
        });
    }
    Ok(())
}
