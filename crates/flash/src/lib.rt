#![tactic(auto)]

// What changes an image: the two kinds of step. The definitions (specs/) have placing, releasing, reclaiming and writing as lists of
// them, and the laws (proofs/) what each list leaves; the crates placing and writing carry them out.
pub mod run;
pub mod steps;

ghost use Rattle.std.specs.Prelude.{◌≡◌, length};
ghost use Rattle.geometry.specs.Geometry.{sector_words};
ghost use Rattle.image.specs.Words.{Words32};

use image::Location;

// A step: a word to program at a place, or a block to erase.
#[derive(Clone, Copy)]
pub enum Step {
    Program(usize, u32),
    Erase(usize),
}

// The step that was asked for, or that there is none: the call is done.
#[derive(Clone, Copy)]
pub enum NextStep {
    Next(Step),
    Done,
}

// A sector that is written: its number, and its contents.
#[derive(Clone, Copy)]
pub struct Sector<'a> {
    pub number: u32,
    pub words: &'a [u32],
    pub ghost whole: { length words.now ≡ sector_words },
    pub ghost words32: { Words32 words.now },
}

// The least and the greatest number live in a block. By the definitions they are L where none is, and so (g) programs them.
#[derive(Clone, Copy)]
pub struct LiveBounds {
    pub least: u32,
    pub greatest: u32,
}

// How a write that is not refused goes about it: by rule 1 or 2; or by rule 3 with this victim.
#[derive(Clone, Copy, Debug, PartialEq, Eq)]
pub enum WritePlan {
    Fill,
    Reclaim(usize),
}

// A placing as it is known before its first step: the number and the slot that it goes to; the map word with that slot taken (a); where the
// number is until then and the entry there, 0 where it is nowhere (b), (f); and whether the block is full then, with which bounds (g).
#[derive(Clone, Copy)]
pub struct Placement {
    pub number: u32,
    pub block: usize,
    pub slot: usize,
    pub map: u32,
    pub old: Option<Location>,
    pub entry: u32,
    pub closes: bool,
    pub bounds: LiveBounds,
}
