#![tactic(auto)]

// The first pair of an image that is not sound: each block in turn, by its rules in their order. The kinds of the slots are the real ones here,
// which the other entries of the image have a say in: so all entries are passed first, and the numbers of the complete ones marked.
pub mod judged;

ghost use Rattle.std.specs.Prelude.{false, None, ◌≡◌, suc};
ghost use Rattle.image.specs.Slots.{slot};
ghost use Rattle.image.specs.WellFormed.{broken_rule, sound};
ghost use Rattle.image.specs.Faults.{first_fault};
ghost use Rattle.image.specs.Views.{of_image, of_block};
ghost use Rattle.rules.specs.Marks.{Marks};
ghost use Rattle.naming.specs.Completes.{complete_slot, Completes};
ghost use Rattle.naming.specs.Broken.{rule_if_any};

use image::view::{Block, View};
use image::{Entry, Fault};
use judged::Judged;
use rules::{NumberSet, rule1, rule2, rule3, rule4, rule7};

// Marks the numbers for which an entry of a block is complete.
fn mark_completes(block: &Block, marks: &mut NumberSet)
    requires { Marks block.now.image.geo (of_image complete_slot block.now.image) block.now.index 0 marks.old.words }
    ensures { Marks block.now.image.geo (of_image complete_slot block.now.image) (suc block.now.index) 0 marks.new.words }
{
    for &word in block.entries() {
        let entry = Entry(word);
        if entry.is_complete() && entry.number() < block.image.geo.logical {
            marks.mark(entry.number());
        }
    }
}

// Those of all blocks. (No set that is returned: it would be copied, and the stack of a check is narrow.)
pub fn mark_all_completes(image: &View, marks: &mut NumberSet)
    requires { Marks image.now.geo (of_image complete_slot image.now) 0 0 marks.old.words }
    ensures { of_image Completes image.now marks.new.words }
{
    let blocks = image.geo.blocks as usize;
    for b in 0..blocks {
        mark_completes(&image.block(b), marks);
    }
}

// The number of the first rule that a block breaks, of R1 to R5, R7 and R8 in that order, if it breaks one.
#[tactic(auto, unfolding(image::specs::WellFormed::broken_rule, image::specs::WellFormed::R7))]
fn broken_rule(judged: &Judged, marks: &mut NumberSet) -> Option<u32>
    requires { Marks judged.now.block.image.geo (of_image slot judged.now.block.image) judged.now.block.index 0 marks.old.words }
    ensures value { result ≡ rule_if_any (of_block broken_rule judged.now.block) }
    ensures marks_2 { result ≡ None → Marks judged.now.block.image.geo (of_image slot judged.now.block.image) (suc judged.now.block.index) 0 marks.new.words }
{
    if !rule1(&judged.block) {
        Some(1)
    } else if !rule2(&judged.block) {
        Some(2)
    } else if !rule3(&judged.block) {
        Some(3)
    } else if !rule4(&judged.block) {
        Some(4)
    } else if !judged.rule5(marks) {
        Some(5)
    } else if !rule7(judged) {
        Some(7)
    } else if !judged.rule8() {
        Some(8)
    } else {
        None
    }
}

// The first failing pair of an image of which some block breaks a rule. So the loop does not come to its end.
pub fn first_bad(image: &View) -> Fault
    requires { of_image sound image.now ≡ false }
    ensures { result ≡ of_image first_fault image.now }
{
    let mut completes = NumberSet::new();
    mark_all_completes(image, &mut completes);
    let mut marks = NumberSet::new();
    let blocks = image.geo.blocks as usize;
    for b in 0..blocks {
        let judged = Judged {
            block: image.block(b),
            completes: &completes,
        };
        if let Some(rule) = broken_rule(&judged, &mut marks) {
            let block = b as u32;
            return Fault { block, rule };
        }
    }
    Fault { block: 0, rule: 0 }
}
