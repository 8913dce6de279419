#![tactic(auto)]

// The lookup table that a caller may lend (K2): looked at, kept up and built. A call that is lent none hands on one of no words: there no
// number has a word, so that nothing is looked at and nothing kept up.
// No function of std is called in what the public calls stand on (ranges/src/lib.rt says why): so `get` and `fill` are written out here.
ghost use Rattle.std.specs.Prelude.{◌&&◌, true, ◌≡◌, ◌<◌, ◌/◌, ◌%◌, ltb, length, replicate, set};
ghost use Rattle.geometry.specs.Geometry.{Limits, d};
ghost use Rattle.image.specs.Found.{At};
ghost use Rattle.image.specs.Slots.{slot, is_live_for, find};
ghost use Rattle.image.specs.WellFormed.{sound, NoneSuperseded};
ghost use Rattle.image.specs.Views.{of_image, of_block};
ghost use Rattle.tables.specs.Tables.{nowhere, place_word, right_table, block_noted};

use geometry::Geometry;
use image::view::{Block, View};
use image::{Entry, Location, Slot};

// Whether b is a block of the image, and its slot i is live for n: whatever b is, nothing outside the image is read.
fn confirmed(image: &View, n: u32, b: usize, i: usize) -> bool
    requires none_superseded { of_image NoneSuperseded image.now }
    requires n_lt_logical { n < image.now.geo.logical }
    requires i_bound { i < d image.now.geo }
    ensures { result ≡ (ltb b image.now.geo.blocks && is_live_for n (of_image slot image.now b i)) }
{
    b < image.geo.blocks as usize && Entry(image.block(b).entries()[i]).is_live_for(n)
}

// Where n is live. The table's word is taken only where the entry there says so too; by R5 that is then the one slot. Else every entry is
// looked at.
pub fn look_up(image: &View, n: u32, table: &[u16]) -> Option<Location>
    requires n_lt_logical { n < image.now.geo.logical }
    requires image_value { of_image sound image.now ≡ true }
    ensures { result ≡ of_image find image.now n }
{
    let at = n as usize;
    if at < table.len() {
        let word = table[at] as usize;
        let d = image.geo.d();
        let (b, i) = (word / d, word % d);
        if confirmed(image, n, b, i) {
            return Some((b, i));
        }
    }
    image.find(n)
}

// The word for slot i of block b.
pub fn word_at(geo: Geometry, b: usize, i: usize) -> u16
    requires limits { Limits geo }
    requires b_lt_blocks { b < geo.blocks }
    requires i_bound { i < d geo }
    ensures { result ≡ place_word geo (At b i) }
{
    (b * geo.d() + i) as u16
}

// Sets the word of n, if n has one. (Of a write through `get_mut` the proof does not learn what the table is then.)
pub fn note(table: &mut [u16], n: u32, word: u16)
    ensures { table.new ≡ set table.old n word }
{
    let at = n as usize;
    if at < table.len() {
        table[at] = word;
    }
}

// Sets every word to that of a number that is live nowhere.
fn forget(table: &mut [u16])
    ensures { table.new ≡ replicate (length table.old) nowhere }
{
    for word in table.iter_mut() {
        *word = 0xFFFF;
    }
}

// Notes the live slots of a block.
fn note_block(block: &Block, table: &mut [u16])
    requires { of_image NoneSuperseded block.now.image }
    ensures { table.new ≡ of_block block_noted block.now table.old (d block.now.image.geo) }
{
    let d = block.image.geo.d();
    for i in 0..d {
        if let Slot::Live(n) = block.own_slot(i) {
            note(table, n, word_at(block.image.geo, block.index, i));
        }
    }
}

// Builds the table afresh, whatever it holds.
pub fn build(image: &View, table: &mut [u16])
    requires image_value { of_image sound image.now ≡ true }
    requires table_len { length table.old ≡ image.now.geo.logical }
    ensures { table.new ≡ of_image right_table image.now }
{
    let blocks = image.geo.blocks as usize;
    forget(table);
    for b in 0..blocks {
        note_block(&image.block(b), table);
    }
}
