#![tactic(auto)]

// What the slots of a block say of it, and the blocks that a write chooses by them.
// No function of std is called in what the public calls stand on: crate ranges says why, and stands in for the methods of an iterator.
ghost use Rattle.std.specs.Prelude.{true, ◌≡◌};
ghost use Rattle.ranges.specs.Range.{count_below, index_below};
ghost use Rattle.image.specs.Words.{erase_count};
ghost use Rattle.image.specs.Views.{of_image, of_block};
ghost use Rattle.image.specs.Blocks.{blank, full, is_open, tally, free_slots, live_slots, lowest_free, lowest_open, least_worn_blank, victim};
ghost use Rattle.image.specs.WellFormed.{R2, sound, MapsAgree, NoneSuperseded};
ghost use Rattle.image.specs.Mending.{count_unset};

use image::Tally;
use image::kinds::count_live;
use image::view::{Block, View};

// The free slots of a block, by a count of ones: the map's words have a one for each, and ones from d on.
pub fn free_slots(block: &Block) -> usize
    requires { of_block R2 block.now ≡ true }
    ensures { result ≡ of_block free_slots block.now }
{
    let mut ones = 0usize;
    for &word in block.map_words() {
        ones += bits::count_set(word) as usize;
    }
    ones - (block.image.geo.k() * 32 - block.image.geo.d())
}

// The live slots of a block: where none is superseded, their own kinds tell them.
pub fn live_slots(block: &Block) -> u32
    requires { of_image NoneSuperseded block.now.image }
    ensures { result ≡ of_block live_slots block.now }
{
    count_live(block)
}

// The free, live and dead slots of a block of a sound image: what is neither free nor live is dead.
pub fn tally(block: &Block) -> Tally
    requires { of_image sound block.now.image ≡ true }
    ensures { result ≡ of_block tally block.now }
{
    let free = free_slots(block) as u32;
    let live = live_slots(block);
    let dead = block.image.geo.d() as u32 - free - live;
    Tally { free, live, dead }
}

// The lowest free slot of a block, by the trailing zeros of a map word; d where none is free, as by R2 the bits from d on are ones.
pub fn lowest_free(block: &Block) -> usize
    requires { of_block R2 block.now ≡ true }
    ensures { result ≡ of_block lowest_free block.now }
{
    for (m, &word) in block.map_words().iter().enumerate() {
        let z = bits::lowest_set(word) as usize;
        if z < 32 {
            return m * 32 + z;
        }
    }
    block.image.geo.d()
}

// Whether no slot of a block is free.
pub fn is_full(block: &Block) -> bool
    requires { of_block R2 block.now ≡ true }
    ensures { result ≡ of_block full block.now }
{
    lowest_free(block) == block.image.geo.d()
}

// Whether some slots of a block are free, and not all.
fn is_open(block: &Block) -> bool
    requires { of_block R2 block.now ≡ true }
    ensures { result ≡ of_block is_open block.now }
{
    let free = free_slots(block);
    (0 < free) & (free < block.image.geo.d())
}

// The first open block, if one is open.
pub fn lowest_open(image: &View) -> Option<usize>
    requires { of_image MapsAgree image.now }
    ensures { result ≡ index_below image.now.geo.blocks (of_image lowest_open image.now) }
{
    ranges::find(image.geo.blocks as usize, |b| is_open(&image.block(b)))
}

// Whether a block is blank: then, by R2, every word of its map is all ones.
fn is_blank(block: &Block) -> bool
    requires { of_block R2 block.now ≡ true }
    ensures { result ≡ of_block blank block.now }
{
    let map = block.map_words();
    ranges::all(map.len(), |m| map[m] == 0xFFFF_FFFF)
}

// K4, (iii) of a repair: whether a block is blank, and was not given its count.
pub fn count_unset(block: &Block) -> bool
    requires { of_block R2 block.now ≡ true }
    ensures { result ≡ of_block count_unset block.now }
{
    block.erase_count() == 0xFFFF_FFFF && is_blank(block)
}

// How many blocks are blank.
pub fn count_blank(image: &View) -> usize
    requires { of_image MapsAgree image.now }
    ensures { result ≡ count_below image.now.geo.blocks (of_image blank image.now) }
{
    ranges::count(image.geo.blocks as usize, |b| is_blank(&image.block(b))) as usize
}

// The blank block that rule 2 takes, if there is one: the least worn, the first among equals.
pub fn least_worn_blank(image: &View) -> Option<usize>
    requires { of_image MapsAgree image.now }
    ensures { result ≡ index_below image.now.geo.blocks (of_image least_worn_blank image.now) }
{
    ranges::least(
        image.geo.blocks as usize,
        |b| is_blank(&image.block(b)),
        |b| (0, image.block(b).erase_count()),
    )
}

// What rule 3 goes by, the least first: how many slots of a full block are live, as all others are dead, then how often it was erased.
fn rank(block: &Block) -> (u32, u32)
    requires { of_image NoneSuperseded block.now.image }
    ensures { result ≡ (of_block live_slots block.now, of_block erase_count block.now) }
{
    (live_slots(block), block.erase_count())
}

// The victim of rule 3, if a block is full: of the full ones the one with most dead slots, the least worn among equals, and the first of those.
pub fn victim(image: &View) -> Option<usize>
    requires { of_image sound image.now ≡ true }
    ensures { result ≡ index_below image.now.geo.blocks (of_image victim image.now) }
{
    ranges::least(
        image.geo.blocks as usize,
        |b| is_full(&image.block(b)),
        |b| rank(&image.block(b)),
    )
}
