#![tactic(auto)]

// Each rule of a block by itself, as far as the block alone decides it: R1 to R4, and R7 whatever the kinds of the slots are taken from. And the
// set of numbers that R5 is checked by: a bit for each number.
ghost use Rattle.std.specs.Prelude.{true, not, ◌||◌, ◌≡◌, ℕ, ◌*◌, ◌<◌, eqb, length, replicate};
ghost use Rattle.bits.specs.Word.{ones};
ghost use Rattle.geometry.specs.Geometry.{d, sector_words};
ghost use Rattle.image.specs.Words.{least_mapped, greatest_mapped, contents};
ghost use Rattle.image.specs.WellFormed.{all_ones, map_agrees, rest_set, bounds_kept, R1, R2, R3, R4};
ghost use Rattle.image.specs.Views.{of_image, of_block};
ghost use Rattle.rules.specs.Marks.{mark_words, seen};

use blocks::is_full;
use image::Slot;
use image::kinds::Kinds;
use image::view::Block;

// Whether every word of a sector is all ones. There is no way out of the loop, so that the compiler takes several words at a time: a check spends
// its time here (docs/BENCHMARKS.md).
fn all_ones(sector: &[u32]) -> bool
    requires { length sector.now ≡ sector_words }
    ensures { result ≡ all_ones sector.now }
{
    let mut all = 0xFFFF_FFFFu32;
    for &word in sector {
        all &= word;
    }
    all == 0xFFFF_FFFF
}

// R1: the erase count is not above the ceiling.
pub fn rule1(block: &Block) -> bool
    ensures { result ≡ of_block R1 block.now }
{
    block.erase_count() <= 1_000_000
}

// R2, of the slots: the map has no bit set for an entry in use.
fn map_agrees(block: &Block) -> bool
    ensures { result ≡ of_block map_agrees block.now }
{
    let map = block.map_words();
    let entries = block.entries();
    ranges::all(block.image.geo.d(), |i| {
        !bits::is_set(map[i / 32], (i % 32) as u32) || entries[i] == 0xFFFF_FFFF
    })
}

// R2, of the rest: the map bits that belong to no slot are set.
pub fn rest_set(block: &Block) -> bool
    ensures { result ≡ of_block rest_set block.now }
{
    let d = block.image.geo.d();
    let map = block.map_words();
    ranges::all(
        32 * block.image.geo.k() - d,
        |j| bits::is_set(map[(d + j) / 32], ((d + j) % 32) as u32),
    )
}

// R2: both.
pub fn rule2(block: &Block) -> bool
    ensures { result ≡ of_block R2 block.now }
{
    map_agrees(block) && rest_set(block)
}

// Whether all content words of slot i are ones.
pub fn contents_clean(block: &Block, i: usize) -> bool
    requires { i < d block.now.image.geo }
    ensures { result ≡ all_ones (of_block contents block.now i) }
{
    all_ones(block.contents(i))
}

// R3: the contents of every free slot are ones.
pub fn rule3(block: &Block) -> bool
    ensures { result ≡ of_block R3 block.now }
{
    ranges::all(
        block.image.geo.d(),
        |i| !matches!(block.own_slot(i), Slot::Free) || contents_clean(block, i),
    )
}

// R4: no slot is faulty.
pub fn rule4(block: &Block) -> bool
    ensures { result ≡ of_block R4 block.now }
{
    ranges::all(
        block.image.geo.d(),
        |i| !matches!(block.own_slot(i), Slot::Faulty),
    )
}

// Word 1 of a block.
pub fn least_mapped(block: &Block) -> u32
    ensures { result ≡ of_block least_mapped block.now }
{
    block.image.words[block.image.geo.start(block.index) + 1]
}

// Word 2 of a block.
pub fn greatest_mapped(block: &Block) -> u32
    ensures { result ≡ of_block greatest_mapped block.now }
{
    block.image.words[block.image.geo.start(block.index) + 2]
}

// R7, of a block that keeps R2.
pub fn rule7<K: Kinds>(kinds: &K) -> bool
    requires { of_block R2 (K.block_of kinds.now) ≡ true }
    ensures { result ≡ of_image bounds_kept (K.block_of kinds.now).image (K.kind kinds.now) (K.block_of kinds.now).index }
{
    let block = kinds.block();
    let least = least_mapped(&block);
    let greatest = greatest_mapped(&block);
    if !is_full(&block) {
        return (least == 0xFFFF_FFFF) & (greatest == 0xFFFF_FFFF);
    }
    if (least == 0xFFFF_FFFF) | (greatest == 0xFFFF_FFFF) {
        return false;
    }
    kinds.live_between(least, greatest)
}

// A set of the numbers that there can be: the bit of each is clear once it was marked.
#[derive(Drop)]
pub struct NumberSet {
    pub words: [u32; 124],
}

impl NumberSet {
    // No number was marked. (In the caller's own place, and not copied there: the stack of a check is narrow.)
    #[inline(always)]
    pub fn new() -> Self
        ensures { result.words ≡ replicate mark_words ones }
    {
        NumberSet {
            words: [0xFFFF_FFFF; 124],
        }
    }

    // Marks the number n. Whether it was not marked before.
    pub fn mark(&mut self, n: u32) -> bool
        requires { n < 32 * mark_words }
        ensures value { result ≡ not (seen self.old.words n) }
        ensures by_index { (m : ℕ) → seen self.new.words m ≡ (seen self.old.words m || eqb n m) }
        ensures long { length self.new.words ≡ mark_words }
    {
        let at = (n / 32) as usize;
        let new = bits::is_set(self.words[at], n % 32);
        self.words[at] = bits::clear_bit(self.words[at], n % 32);
        new
    }

    // Whether the number n is marked.
    pub fn is_marked(&self, n: u32) -> bool
        requires { n < 32 * mark_words }
        ensures { result ≡ seen self.now.words n }
    {
        let at = (n / 32) as usize;
        !bits::is_set(self.words[at], n % 32)
    }
}
