#![tactic(auto)]

// Placing a sector in a slot, (a) to (g), and releasing one: as many of the steps as are left of those that a call may do (K4); a whole call has
// more than any needs.
ghost use Rattle.std.specs.Prelude.{Bool, true, ◌≡◌, ℕ, ◌<◌};
ghost use Rattle.ranges.specs.Range.{or_at};
ghost use Rattle.geometry.specs.Geometry.{d};
ghost use Rattle.image.specs.Found.{At};
ghost use Rattle.image.specs.declared.Slot.TheVariants.{Free};
ghost use Rattle.image.specs.Slots.{slot, find};
ghost use Rattle.image.specs.Views.{of_image, of_block};
ghost use Rattle.image.specs.WellFormed.{R2, sound, NoneSuperseded};
ghost use Rattle.tables.specs.Tables.{noted};
ghost use Rattle.flash.specs.Runs.{Does, of_run};
ghost use Rattle.flash.specs.Ahead.{bounds_with};
ghost use Rattle.flash.specs.Placing.{InImage, entry_at, programs_entry, takes_slot, stores_contents, closes_block, placing, invalidates};
ghost use Rattle.placing.specs.Bounds.{bounds_of, bounds_below, bounds_among};

use blocks::is_full;
use flash::run::Run;
use flash::steps::program;
use flash::{LiveBounds, Sector};
use image::kinds::Kinds;
use image::view::{Block, View};
use image::{Entry, Location};
use tables::{look_up, note, word_at};

// (a): the map word with the slot's bit cleared.
fn take_slot(run: &mut Run, b: usize, i: usize)
    requires b_lt_blocks { b < run.old.geo.blocks }
    requires i_bound { i < d run.old.geo }
    ensures { Does run.old run.new (of_run takes_slot run.old b i) }
{
    let at = run.geo.map_start(b) + i / 32;
    let word = run.words[at];
    run.program(at, bits::clear_bit(word, (i % 32) as u32));
}

// The entry at a place where a number was found; 0 where it was not.
pub fn entry_at(image: &View, found: Option<Location>) -> u32
    requires { InImage image.now.geo found }
    ensures { result ≡ of_image entry_at image.now found }
{
    match found {
        Some((b, i)) => image.block(b).entries()[i],
        None => 0,
    }
}

// (b), (f) and a release: that entry programmed, where there is one.
fn program_entry(run: &mut Run, found: Option<Location>, asked: u32)
    requires { InImage run.old.geo found }
    ensures { Does run.old run.new (programs_entry run.old.geo found asked) }
{
    if let Some((b, i)) = found {
        let at = run.geo.entries_start(b) + i;
        run.program(at, asked);
    }
}

// (c): the contents, from the first word on. The words are programmed in the slice, and taken off those that are left once: a test of each would
// cost the loop more than the words do.
fn store_contents(run: &mut Run, b: usize, i: usize, sector: &Sector)
    requires b_lt_blocks { b < run.old.geo.blocks }
    requires i_bound { i < d run.old.geo }
    ensures { Does run.old run.new (stores_contents run.old.geo b i sector.now.words.now) }
{
    let at = run.geo.contents_start(b, i);
    let stored = bits::lesser(run.left, 128);
    let words = &mut *run.words;
    for (j, &word) in sector.words[..stored as usize].iter().enumerate() {
        program(words, at + j, word);
    }
    run.left -= stored;
}

// The bounds of some numbers and of one more.
pub fn widened(live: Option<LiveBounds>, n: u32) -> LiveBounds
    ensures { (m : ℕ) (f : ℕ → Bool) → n < m → live ≡ bounds_below m (bounds_of m f) → result ≡ bounds_of m (or_at f n) }
{
    match live {
        Some(live) => LiveBounds {
            least: bits::lesser(n, live.least),
            greatest: bits::greater(n, live.greatest),
        },
        None => LiveBounds {
            least: n,
            greatest: n,
        },
    }
}

// The least and the greatest number live in a block, if any is. (The loop begins with L and 0: every number is below the one and none below the other, so
// that no turn asks whether there was a number before it.)
pub fn live_bounds<K: Kinds>(kinds: &K) -> Option<LiveBounds>
    ensures { result ≡ bounds_among (K.block_of kinds.now).image.geo (K.kind kinds.now (K.block_of kinds.now).index) }
{
    let geo = kinds.block().image.geo;
    let d = geo.d();
    let logical = geo.logical;
    let mut least = logical;
    let mut greatest = 0u32;
    for i in 0..d {
        if let Some(n) = kinds.live_at(i) {
            least = bits::lesser(n, least);
            greatest = bits::greater(n, greatest);
        }
    }
    if least == logical {
        return None;
    }
    Some(LiveBounds { least, greatest })
}

// The same with n as one of the numbers. Whether an entry is live, its own kind says where none is superseded.
pub fn bounds_with(block: &Block, n: u32) -> LiveBounds
    requires none_superseded { of_image NoneSuperseded block.now.image }
    requires n_lt_logical { n < block.now.image.geo.logical }
    ensures { result ≡ of_block bounds_with block.now n }
{
    widened(live_bounds(block), n)
}

// Bounds as (g) programs them: where no number is live, L for both.
pub fn or_logical(live: Option<LiveBounds>, logical: u32) -> LiveBounds
    ensures { (f : ℕ → Bool) → live ≡ bounds_below logical (bounds_of logical f) → result ≡ bounds_of logical f }
{
    match live {
        Some(live) => live,
        None => LiveBounds {
            least: logical,
            greatest: logical,
        },
    }
}

// (g): words 1 and 2, if the block has no free slot left.
fn close_block(run: &mut Run, b: usize)
    requires none_superseded { of_run NoneSuperseded run.old }
    requires b_lt_blocks { b < run.old.geo.blocks }
    requires b_value { of_run R2 run.old b ≡ true }
    ensures { Does run.old run.new (of_run closes_block run.old b) }
{
    let block = run.view().block(b);
    if is_full(&block) {
        let live = or_logical(live_bounds(&block), run.geo.logical);
        let start = run.geo.start(b);
        run.program(start + 1, live.least);
        run.program(start + 2, live.greatest);
    }
}

// Places a sector in slot i of block b, where its number was found before at old: (a) to (g). What (g) looks at is there only when all before it
// was done.
pub fn place_over(run: &mut Run, sector: &Sector, b: usize, i: usize, old: Option<Location>)
    requires image_value { of_run sound run.old ≡ true }
    requires number_lt_logical { sector.now.number < run.old.geo.logical }
    requires b_lt_blocks { b < run.old.geo.blocks }
    requires i_bound { i < d run.old.geo }
    requires i_value { of_run slot run.old b i ≡ Free }
    requires value { old ≡ of_run find run.old sector.now.number }
    ensures { Does run.old run.new (of_run placing run.old sector.now.number sector.now.words.now b i) }
{
    let entry = run.geo.entries_start(b) + i;
    let outdated = bits::clear_bit(entry_at(&run.view(), old), 30);
    take_slot(run, b, i);
    program_entry(run, old, outdated);
    store_contents(run, b, i, sector);
    run.program(entry, Entry::begun(sector.number).0);
    run.program(entry, Entry::complete(sector.number).0);
    program_entry(run, old, bits::clear_bit(outdated, 31));
    if run.left > 0 {
        close_block(run, b);
    }
}

// Places a sector, wherever its number was before: that is looked up first, and noted where it is now, as if every step were done.
pub fn place(run: &mut Run, sector: &Sector, b: usize, i: usize, table: &mut [u16])
    requires image_value { of_run sound run.old ≡ true }
    requires number_lt_logical { sector.now.number < run.old.geo.logical }
    requires b_lt_blocks { b < run.old.geo.blocks }
    requires i_bound { i < d run.old.geo }
    requires i_value { of_run slot run.old b i ≡ Free }
    ensures run_after { Does run.old run.new (of_run placing run.old sector.now.number sector.now.words.now b i) }
    ensures table_after { table.new ≡ noted run.old.geo table.old sector.now.number (At b i) }
{
    let old = look_up(&run.view(), sector.number, table);
    place_over(run, sector, b, i, old);
    note(table, sector.number, word_at(run.geo, b, i));
}

// Releases what was found: its live entry with bit 31 cleared.
pub fn release(run: &mut Run, live: Option<Location>)
    requires { InImage run.old.geo live }
    ensures { Does run.old run.new (of_run invalidates run.old live) }
{
    let invalid = bits::clear_bit(entry_at(&run.view(), live), 31);
    program_entry(run, live, invalid);
}
