ghost use Rattle.std.specs.Prelude.{◌≡◌, ◌<◌};
ghost use Rattle.image.specs.Words.{Shaped, Words32};

use super::slots::{fits, slot_of};
use super::{Entry, Location, Slot};
use geometry::Geometry;

// An image of the length that its geometry, within its limits, says: row 1 of the refusals, turned round.
#[derive(Clone, Copy)]
pub struct View<'a> {
    pub words: &'a [u32],
    pub geo: Geometry,
    pub ghost shaped: { Shaped geo words.now },
    pub ghost words32: { Words32 words.now },
}

// A block of an image.
#[derive(Clone, Copy)]
pub struct Block<'a> {
    pub image: View<'a>,
    pub index: usize,
    pub ghost in_image: { index < image.geo.blocks },
}

impl<'a> View<'a> {
    ghost use Rattle.std.specs.Prelude.{◌&&◌, eqb, length, is_some, IfSome};
    ghost use Rattle.geometry.specs.Geometry.{image_length, within_limits};
    ghost use Rattle.image.specs.Views.{of_image};
    ghost use Rattle.image.specs.Slots.{find};
    ghost use Rattle.image.specs.WellFormed.{NoneSuperseded};

    // The image that these words are, if they are one.
    pub fn new(words: &'a [u32], geo: Geometry) -> Option<Self>
        ensures fits { is_some result ≡ (within_limits geo && eqb (length words.now) (image_length geo)) }
        ensures image { IfSome result (λ view. (view.words.now ≡ words.now) × (view.geo ≡ geo)) }
    {
        if !fits(words, geo) {
            return None;
        }
        Some(View { words, geo })
    }

    // The same where it is known that they are.
    pub fn over(words: &'a [u32], geo: Geometry) -> Self
        requires { Shaped geo words.now }
        ensures words { result.words.now ≡ words.now }
        ensures geo { result.geo ≡ geo }
    {
        View { words, geo }
    }

    // Block b.
    pub fn block(&self, index: usize) -> Block<'a>
        requires { index < self.now.geo.blocks }
        ensures image { result.image ≡ self.now }
        ensures index { result.index ≡ index }
    {
        Block {
            image: *self,
            index,
        }
    }

    // Where n is live: the first such slot in the order of blocks and slots. By R5 there is no other.
    pub fn find(&self, n: u32) -> Option<Location>
        requires none_superseded { of_image NoneSuperseded self.now }
        requires n_lt_logical { n < self.now.geo.logical }
        ensures { result ≡ of_image find self.now n }
    {
        let blocks = self.geo.blocks as usize;
        let mut found = None;
        'scan: for b in 0..blocks {
            for (i, &entry) in self.block(b).entries().iter().enumerate() {
                if Entry(entry).is_live_for(n) {
                    found = Some((b, i));
                    break 'scan;
                }
            }
        }
        found
    }
}

impl<'a> Block<'a> {
    ghost use Rattle.std.specs.Prelude.{length};
    ghost use Rattle.geometry.specs.Geometry.{d, sector_words};
    ghost use Rattle.image.specs.Words.{erase_count, map_words, entries, contents};
    ghost use Rattle.image.specs.Views.{of_block};
    ghost use Rattle.image.specs.Slots.{own_slot};

    // How often it was erased.
    pub fn erase_count(&self) -> u32
        ensures { result ≡ of_block erase_count self.now }
    {
        let at = self.image.geo.start(self.index);
        self.image.words[at]
    }

    // Slot i by its own entry and its own map bit.
    pub fn own_slot(&self, i: usize) -> Slot
        requires { i < d self.now.image.geo }
        ensures { result ≡ of_block own_slot self.now i }
    {
        let set = bits::is_set(self.map_words()[i / 32], (i % 32) as u32);
        slot_of(self.image.geo.logical, set, self.entries()[i])
    }

    // The words of its free map.
    pub fn map_words(&self) -> &'a [u32]
        ensures { result.now ≡ of_block map_words self.now }
    {
        let from = self.image.geo.map_start(self.index);
        &self.image.words[from..from + self.image.geo.k()]
    }

    // Its entries, one for each slot.
    pub fn entries(&self) -> &'a [u32]
        ensures { result.now ≡ of_block entries self.now }
    {
        let from = self.image.geo.entries_start(self.index);
        &self.image.words[from..from + self.image.geo.d()]
    }

    // The contents of slot i, where they are.
    pub fn contents(&self, i: usize) -> &'a [u32]
        requires { i < d self.now.image.geo }
        ensures { result.now ≡ of_block contents self.now i }
    {
        let from = self.image.geo.contents_start(self.index, i);
        &self.image.words[from..from + 128]
    }

    // Copies the contents of slot i to a buffer of one sector.
    pub fn copy_contents(&self, i: usize, buffer: &mut [u32])
        requires i_bound { i < d self.now.image.geo }
        requires buffer_len { length buffer.old ≡ sector_words }
        ensures { buffer.new ≡ of_block contents self.now i }
    {
        // A loop, and not `copy_from_slice`: that is a call of memmove, and the library calls nothing but memcpy and memset (a rule of the project).
        let words = self.image.words;
        let at = self.image.geo.contents_start(self.index, i);
        for j in 0..128 {
            buffer[j] = words[at + j];
        }
    }
}
