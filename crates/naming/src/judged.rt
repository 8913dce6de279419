// A block by the real kinds of its slots (K4), which the other entries of the image have a say in: the marks know the numbers that are complete.
ghost use Rattle.image.specs.Views.{of_image};
ghost use Rattle.naming.specs.Completes.{Completes};

use image::kinds::Kinds;
use image::view::Block;
use image::{Entry, Slot};
use rules::NumberSet;

#[derive(Clone, Copy)]
pub struct Judged<'i, 'c> {
    pub block: Block<'i>,
    pub completes: &'c NumberSet,
    pub ghost complete: { of_image Completes block.image completes.now.words },
}

impl<'i, 'c> Judged<'i, 'c> {
    ghost use Rattle.std.specs.Prelude.{true, ◌≡◌, suc, ◌<◌};
    ghost use Rattle.geometry.specs.Geometry.{d};
    ghost use Rattle.image.specs.Slots.{superseded, slot};
    ghost use Rattle.image.specs.WellFormed.{R5, R8};
    ghost use Rattle.image.specs.Views.{of_block};
    ghost use Rattle.rules.specs.Marks.{Marks};

    // Whether slot i is superseded: its entry is in passing, and another is complete for its number.
    pub fn is_superseded(&self, i: usize) -> bool
        requires { i < d self.now.block.image.geo }
        ensures { result ≡ of_block superseded self.now.block i }
    {
        let entry = Entry(self.block.entries()[i]);
        entry.is_passing()
            && entry.number() < self.block.image.geo.logical
            && self.completes.is_marked(entry.number())
    }

    // What slot i is. (Always inlined, as `live_at` is.)
    #[inline(always)]
    pub fn slot(&self, i: usize) -> Slot
        requires { i < d self.now.block.image.geo }
        ensures { result ≡ of_block slot self.now.block i }
    {
        if self.is_superseded(i) {
            return Slot::Superseded;
        }
        self.block.own_slot(i)
    }

    // R5. The marks know the earlier blocks' live numbers and learn this one's. (Always inlined, as `live_at` is.)
    #[inline(always)]
    pub fn rule5(&self, marks: &mut NumberSet) -> bool
        requires { Marks self.now.block.image.geo (of_image slot self.now.block.image) self.now.block.index 0 marks.old.words }
        ensures value { result ≡ of_block R5 self.now.block }
        ensures marks_2 { result ≡ true → Marks self.now.block.image.geo (of_image slot self.now.block.image) (suc self.now.block.index) 0 marks.new.words }
    {
        let d = self.block.image.geo.d();
        for i in 0..d {
            if let Some(n) = self.live_at(i) {
                if !marks.mark(n) {
                    return false;
                }
            }
        }
        true
    }

    // R8: no slot is superseded.
    pub fn rule8(&self) -> bool
        ensures { result ≡ of_block R8 self.now.block }
    {
        ranges::all(self.block.image.geo.d(), |i| !self.is_superseded(i))
    }
}

impl<'i, 'c> Kinds for Judged<'i, 'c> {
    ghost use Rattle.image.specs.Slots.{slot};

    ghost block_of = { λ judged. judged.block };

    ghost kind = { λ judged. of_image slot judged.block.image };

    fn block(&self) -> Block<'_> {
        self.block
    }

    // (Its map bit does not say whether a slot is live: so it is not read. Always inlined: a repair and the walk of a refused image ask it of every slot.)
    #[inline(always)]
    fn live_at(&self, i: usize) -> Option<u32> {
        if self.is_superseded(i) {
            return None;
        }
        self.block.live_at(i)
    }

    fn live_between(&self, least: u32, greatest: u32) -> bool {
        ranges::all(self.block.image.geo.d(), |i| match self.live_at(i) {
            Some(n) => (least <= n) & (n <= greatest),
            None => true,
        })
    }
}
