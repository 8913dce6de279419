ghost use Rattle.std.specs.Prelude.{true, ◌≡◌, ◌<◌};
ghost use Rattle.image.specs.Blocks.{least_worn_blank};
ghost use Rattle.image.specs.Views.{of_image};
ghost use Rattle.image.specs.WellFormed.{well_formed};
ghost use Rattle.flash.specs.Steps.{step_at};
ghost use Rattle.flash.specs.Writing.{Reclaim, reclaiming_first, planned};
ghost use Rattle.flash.specs.Ahead.{taken_up_to};

use super::nth::nth_live;
use super::placements::placement_step;
use blocks::{least_worn_blank, live_slots};
use flash::{LiveBounds, NextStep, Placement, Sector, Step};
use image::kinds::Kinds;
use image::view::{Block, View};
use image::{Entry, Location};
use placing::{bounds_with, entry_at};

// The reclaim that is planned for a write: the live slots of the victim are copied in turn to the target, a blank block, and the victim is erased.
#[derive(Clone, Copy)]
struct Reclaiming<'a> {
    victim: Block<'a>,
    target: usize,
    ghost well: { of_image well_formed victim.image ≡ true },
    ghost plan: { of_image planned victim.image ≡ Reclaim victim.index },
    ghost target_is: { target ≡ of_image least_worn_blank victim.image },
}

// The map word of slot i with it taken, where those before it are taken and the others free.
fn taken_up_to(i: usize) -> u32
    ensures { result ≡ taken_up_to i }
{
    let k = (i % 32) as u32;
    let free = 0xFFFF_FFFF - ((1u32 << k) - 1);
    bits::clear_bit(free, k)
}

impl<'a> Reclaiming<'a> {
    ghost use Rattle.std.specs.Prelude.{◌≤◌};
    ghost use Rattle.geometry.specs.Geometry.{d};
    ghost use Rattle.image.specs.Words.{entry};
    ghost use Rattle.image.specs.Slots.{number_in};
    ghost use Rattle.image.specs.Views.{of_block};
    ghost use Rattle.flash.specs.Placing.{InImage};
    ghost use Rattle.flash.specs.Ahead.{live_before, copy_placement, moved_to, moved_entry, block_after, last_placement};

    // How many of the victim's first m slots are live.
    fn live_before(&self, m: usize) -> usize
        requires { m ≤ d self.now.victim.image.geo }
        ensures { result ≡ of_block live_before self.now.victim m }
    {
        ranges::count(m, |i| matches!(self.victim.live_at(i), Some(_))) as usize
    }

    // The copying of the victim's slot m, which is live.
    fn copy_placement(&self, m: usize) -> Placement
        requires { m < d self.now.victim.image.geo }
        ensures { result ≡ of_block copy_placement self.now.victim self.now.target m (number_in (of_block entry self.now.victim m)) }
    {
        let slot = self.live_before(m);
        let old = Some((self.victim.index, m));
        let entry = entry_at(&self.victim.image, old);
        Placement {
            number: Entry(entry).number(),
            block: self.target,
            slot,
            map: taken_up_to(slot),
            old,
            entry,
            closes: false,
            bounds: LiveBounds {
                least: 0,
                greatest: 0,
            },
        }
    }

    // Where a number that is found there is behind the reclaim.
    fn moved_to(&self, found: Option<Location>) -> Option<Location>
        requires { InImage self.now.victim.image.geo found }
        ensures { result ≡ of_block moved_to self.now.victim self.now.target found }
    {
        match found {
            Some((b, i)) => {
                if b == self.victim.index {
                    return Some((self.target, self.live_before(i)));
                }
                found
            }
            None => None,
        }
    }

    // The entry of n there, where it is found here before; 0 where it is not.
    fn moved_entry(&self, n: u32, found: Option<Location>) -> u32
        requires n_lt_logical { n < self.now.victim.image.geo.logical }
        requires in_image { InImage self.now.victim.image.geo found }
        ensures { result ≡ of_block moved_entry self.now.victim n found }
    {
        match found {
            Some((b, _)) => {
                if b == self.victim.index {
                    return Entry::complete(n).0;
                }
                entry_at(&self.victim.image, found)
            }
            None => 0,
        }
    }

    // The block that the write goes to behind the reclaim: the target, unless nothing was copied there and the victim comes before it as a blank block.
    fn block_after(&self) -> usize
        ensures { result ≡ of_block block_after self.now.victim self.now.target }
    {
        if live_slots(&self.victim) != 0 {
            return self.target;
        }
        let target = Block {
            image: self.victim.image,
            index: self.target,
        };
        let erased = self.victim.erase_count() + 1;
        let other = target.erase_count();
        if erased < other || erased == other && self.victim.index < self.target {
            return self.victim.index;
        }
        self.target
    }

    // The placing of n that ends a write with this reclaim.
    fn last_placement(&self, n: u32) -> Placement
        requires { n < self.now.victim.image.geo.logical }
        ensures { result ≡ of_block last_placement self.now.victim self.now.target n }
    {
        let slot = live_slots(&self.victim) as usize;
        let found = self.victim.image.find(n);
        Placement {
            number: n,
            block: self.block_after(),
            slot,
            map: taken_up_to(slot),
            old: self.moved_to(found),
            entry: self.moved_entry(n, found),
            closes: slot + 1 == self.victim.image.geo.d(),
            bounds: bounds_with(&self.victim, n),
        }
    }

    // Step i of a write of a sector with this reclaim: of the copies, each of 133 steps, whose contents are lent on where they are; the erasing of the
    // victim, and its new count; and the placing of the sector.
    fn step(&self, sector: &Sector, i: u32) -> NextStep
        requires { sector.now.number < self.now.victim.image.geo.logical }
        ensures { result ≡ step_at (of_block reclaiming_first self.now.victim sector.now.number sector.now.words.now) i }
    {
        let geo = self.victim.image.geo;
        if let Some(m) = nth_live(&self.victim, (i / 133) as usize) {
            let p = self.copy_placement(m);
            return placement_step(geo, p, self.victim.contents(m), i % 133);
        }
        let j = i - live_slots(&self.victim) * 133;
        if j == 0 {
            return NextStep::Next(Step::Erase(self.victim.index));
        }
        if j == 1 {
            let count = self.victim.erase_count() + 1;
            let at = geo.start(self.victim.index);
            return NextStep::Next(Step::Program(at, count));
        }
        let p = self.last_placement(sector.number);
        placement_step(geo, p, sector.words, j - 2)
    }
}

// Step i of a write of a sector with a reclaim of v, as it is planned: into the least worn blank block. (There is one then; with none there would be no
// step.)
pub fn reclaim_step(image: &View, v: usize, sector: &Sector, i: u32) -> NextStep
    requires image_value { of_image well_formed image.now ≡ true }
    requires plan { of_image planned image.now ≡ Reclaim v }
    requires number_lt_logical { sector.now.number < image.now.geo.logical }
    ensures { result ≡ step_at (of_image reclaiming_first image.now v sector.now.number sector.now.words.now) i }
{
    let victim = Block {
        image: *image,
        index: v,
    };
    match least_worn_blank(image) {
        Some(target) => Reclaiming { victim, target }.step(sector, i),
        None => NextStep::Done,
    }
}
