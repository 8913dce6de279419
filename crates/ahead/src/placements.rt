ghost use Rattle.std.specs.Prelude.{◌≡◌, length};
ghost use Rattle.geometry.specs.Geometry.{sector_words, Limits};
ghost use Rattle.flash.specs.Steps.{step_at};
ghost use Rattle.flash.specs.Ahead.{closes_with, behind_contents, from_contents, placement_steps};
ghost use Rattle.ahead.specs.Ahead.{Placeable};

use flash::{NextStep, Placement, Step};
use geometry::Geometry;
use image::{Entry, Location};

// (g): words 1 and 2, if the block is full then.
fn closing_step(geo: Geometry, p: Placement, s: u32) -> NextStep
    requires limits { Limits geo }
    requires placeable { Placeable geo p }
    ensures { result ≡ step_at (closes_with geo p) s }
{
    let start = geo.start(p.block);
    if p.closes {
        if s == 0 {
            let least = start + 1;
            return NextStep::Next(Step::Program(least, p.bounds.least));
        }
        if s == 1 {
            let greatest = start + 2;
            return NextStep::Next(Step::Program(greatest, p.bounds.greatest));
        }
    }
    NextStep::Done
}

// Behind the contents: (d), (e), then the old entry once more, if there is one (f), and (g).
fn step_behind(geo: Geometry, p: Placement, s: u32) -> NextStep
    requires limits { Limits geo }
    requires placeable { Placeable geo p }
    ensures { result ≡ step_at (behind_contents geo p) s }
{
    let entry = geo.entries_start(p.block) + p.slot;
    if s == 0 {
        return NextStep::Next(Step::Program(entry, Entry::begun(p.number).0));
    }
    if s == 1 {
        return NextStep::Next(Step::Program(entry, Entry::complete(p.number).0));
    }
    let old = p.old;
    match old {
        Some((b, i)) => {
            if s == 2 {
                let at = geo.entries_start(b) + i;
                let invalid = bits::clear_bit(bits::clear_bit(p.entry, 30), 31);
                return NextStep::Next(Step::Program(at, invalid));
            }
            closing_step(geo, p, s - 3)
        }
        None => closing_step(geo, p, s - 2),
    }
}

// From the contents on: (c), and what comes behind them.
fn step_from_contents(geo: Geometry, p: Placement, words: &[u32], s: u32) -> NextStep
    requires limits { Limits geo }
    requires placeable { Placeable geo p }
    requires words_len { length words.now ≡ sector_words }
    ensures { result ≡ step_at (from_contents geo p words.now) s }
{
    if s < 128 {
        let j = s as usize;
        let at = geo.contents_start(p.block, p.slot) + j;
        let word = words[j];
        return NextStep::Next(Step::Program(at, word));
    }
    step_behind(geo, p, s - 128)
}

// Step s of a placing that is known beforehand, with these contents; none where it has no more.
pub fn placement_step(geo: Geometry, p: Placement, words: &[u32], s: u32) -> NextStep
    requires limits { Limits geo }
    requires placeable { Placeable geo p }
    requires words_len { length words.now ≡ sector_words }
    ensures { result ≡ step_at (placement_steps geo p words.now) s }
{
    if s == 0 {
        let at = geo.map_start(p.block) + p.slot / 32;
        return NextStep::Next(Step::Program(at, p.map));
    }
    let old = p.old;
    match old {
        Some((b, i)) => {
            if s == 1 {
                let at = geo.entries_start(b) + i;
                return NextStep::Next(Step::Program(at, bits::clear_bit(p.entry, 30)));
            }
            step_from_contents(geo, p, words, s - 2)
        }
        None => step_from_contents(geo, p, words, s - 1),
    }
}
