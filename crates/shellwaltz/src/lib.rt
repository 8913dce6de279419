#![tactic(auto)]

// The calls: each tests its rows of the table of refusals (docs/FORMAT.md, Refusals), in the order there, and then does its work.
// Any geometry, image, number or buffer may be handed in; a refused call changes no word. One that refuses with 4 passes on the first block
// and rule that fail. A read, a write, a release and a repair are those of the crate `calls`, with a lookup table of no words where they take one.
ghost use Rattle.std.specs.Prelude.{true, ◌≡◌, Ok};
ghost use Rattle.image.specs.Words.{Shaped};
ghost use Rattle.image.specs.Views.{of_image};
ghost use Rattle.image.specs.WellFormed.{well_formed};
ghost use Rattle.calls.specs.Refusals.{check_answer, read_answer};
ghost use Rattle.calls.specs.Outcomes.{counts_of, sums_of};
ghost use Rattle.calls.specs.Calls.{counts_zeroed, format_outcome, formatted, totals_of, reported, read_buffer, write_outcome, written, release_outcome, released, repair_outcome, repaired};

use answers::{Answer, Refusal};
use calls::{Counts, Totals};
use geometry::Geometry;
use image::view::{Block, View};

// Sets word 0 of every block to 0.
fn zero_counts(image: &mut [u32], geo: Geometry)
    requires { Shaped geo image.old }
    ensures { image.new ≡ counts_zeroed geo image.old geo.blocks }
{
    let blocks = geo.blocks as usize;
    for b in 0..blocks {
        let at = geo.start(b);
        image[at] = 0;
    }
}

// Makes a fresh image: no number is mapped, every slot is free, no block was erased. Refuses 1.
pub fn format(image: &mut [u32], geo: Geometry) -> Result<Counts, Refusal>
    ensures value { result ≡ counts_of (format_outcome geo image.old) }
    ensures image_after { image.new ≡ formatted geo image.old }
{
    if !image::slots::fits(image, geo) {
        return Err(Refusal::BadGeometry);
    }
    flash::steps::erase(image);
    zero_counts(image, geo);
    Ok(Counts {
        words: 0,
        erasures: 0,
    })
}

// Whether the image is well formed, and if not, the first block and rule that fail. Refuses 1 and 4. (With `match`, and not with `?`: no public call
// stands on a function of std, since `determined` proves of each (`runs`) that an environment has its code, and std's tables cannot be named.)
pub fn check(image: &[u32], geo: Geometry) -> Answer
    ensures { result ≡ check_answer geo image.now }
{
    let Some(image) = View::new(image, geo) else {
        return Err(Refusal::BadGeometry);
    };
    match checking::first_fault(&image) {
        Ok(()) => Ok(()),
        Err(fault) => Err(Refusal::from(fault)),
    }
}

// The totals of a well-formed image. (One pass with four sums: four chains of iterators would go over the image four times.)
fn add_up(image: &View) -> Totals
    requires { of_image well_formed image.now ≡ true }
    ensures { Ok result ≡ sums_of (of_image totals_of image.now) }
{
    let blocks = image.geo.blocks as usize;
    let mut mapped = 0u32;
    let mut free = 0u32;
    let mut dead = 0u32;
    let mut erase_sum = 0u32;
    for b in 0..blocks {
        let block = Block {
            image: *image,
            index: b,
        };
        let slots = blocks::tally(&block);
        mapped += slots.live;
        free += slots.free;
        dead += slots.dead;
        erase_sum += block.erase_count();
    }
    Totals {
        mapped,
        free,
        dead,
        erase_sum,
    }
}

// Mapped, free and dead slots and the sum of the erase counts. Refuses 1 and 4.
pub fn report(image: &[u32], geo: Geometry) -> Result<Totals, Refusal>
    ensures { result ≡ sums_of (reported geo image.now) }
{
    if let Err(why) = check(image, geo) {
        return Err(why);
    }
    Ok(add_up(&View { words: image, geo }))
}

// Copies the 128 words of sector n to the buffer. Refuses 1, 2, 3, 4 and 5.
pub fn read(image: &[u32], geo: Geometry, n: u32, buffer: &mut [u32]) -> Answer
    ensures value { result ≡ read_answer geo image.now n buffer.old }
    ensures buffer_after { buffer.new ≡ read_buffer geo image.now n buffer.old }
{
    calls::read_by(image, geo, n, buffer, &[])
}

// Writes the 128 words of the buffer as sector n. Refuses 1, 2, 3, 4 and 6.
pub fn write(image: &mut [u32], geo: Geometry, n: u32, buffer: &[u32]) -> Result<Counts, Refusal>
    ensures value { result ≡ counts_of (write_outcome geo image.old n buffer.now) }
    ensures image_after { image.new ≡ written geo image.old n buffer.now }
{
    calls::write_by(image, geo, n, buffer, &mut [])
}

// Releases sector n: its number is not mapped any more. Refuses 1, 3, 4 and 5.
pub fn release(image: &mut [u32], geo: Geometry, n: u32) -> Result<Counts, Refusal>
    ensures value { result ≡ counts_of (release_outcome geo image.old n) }
    ensures image_after { image.new ≡ released geo image.old n }
{
    calls::release_by(image, geo, n, &mut [])
}

// Mends what a call that was cut short has left (K4); every number stays mapped, or not, as it was. Refuses 1, 4, 10 and 6.
pub fn repair(image: &mut [u32], geo: Geometry) -> Result<Counts, Refusal>
    ensures value { result ≡ counts_of (repair_outcome geo image.old) }
    ensures image_after { image.new ≡ repaired geo image.old }
{
    calls::repair_by(image, geo)
}
