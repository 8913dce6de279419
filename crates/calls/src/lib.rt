#![tactic(auto)]

// The calls that look a number up, with a lookup table (K2) of any length: a number whose word is not there is searched for, and not noted.
// The calls without a table (shellwaltz) hand on one of no words; those with one (tabled) ask for its length first. And a repair (K4), which looks
// none up. Each tests its rows of the table of refusals (docs/FORMAT.md, Refusals), in the order there, with 2 for the buffer alone, and then does
// its work. (With `match`, and not with `?`: no function of std is called in what the public calls stand on; ranges/src/lib.rt says why.)
ghost use Rattle.std.specs.Prelude.{◌≡◌, ◌<◌, length, Ok, IfOk};
ghost use Rattle.answers.specs.Answers.{answer_of};
ghost use Rattle.image.specs.Views.{of_image};
ghost use Rattle.flash.specs.Steps.{first_of};
ghost use Rattle.calls.specs.Refusals.{first_that_applies, sector_rows, read_answer, write_answer, release_answer};
ghost use Rattle.calls.specs.Courses.{write_course, release_course, repair_course};
ghost use Rattle.calls.specs.Outcomes.{counts_of};
ghost use Rattle.calls.specs.Calls.{read_buffer, counted, write_steps, write_outcome, written, write_first_outcome, written_first, table_after_writing, release_outcome, released, release_first_outcome, released_first, table_after_releasing, repair_outcome, repaired, repair_steps, repair_first_outcome, repaired_first};

use answers::{Answer, Refusal};
use flash::run::Run;
use flash::{Sector, WritePlan};
use geometry::Geometry;
use image::Location;
use image::view::View;
use repairing::RepairPlan;

// What format, write, release and repair report: the words programmed and the blocks erased.
#[derive(Clone, Copy, Debug, Default, PartialEq, Eq)]
pub struct Counts {
    pub words: u32,
    pub erasures: u32,
}

// What report reports: mapped, free and dead slots, and the sum of the erase counts.
#[derive(Clone, Copy, Debug, Default, PartialEq, Eq)]
pub struct Totals {
    pub mapped: u32,
    pub free: u32,
    pub dead: u32,
    pub erase_sum: u32,
}

// Rows 1 to 4 of the calls that take a sector, a read and a write: the image, where none of them applies.
fn sector_image<'a>(
    image: &'a [u32],
    geo: Geometry,
    n: u32,
    buffer: &[u32],
) -> Result<View<'a>, Refusal>
    ensures answer { answer_of result ≡ first_that_applies (sector_rows geo image.now n buffer.now) }
    ensures image { IfOk result (λ view. (view.words.now ≡ image.now) × (view.geo ≡ geo)) }
{
    let Some(image) = View::new(image, geo) else {
        return Err(Refusal::BadGeometry);
    };
    if buffer.len() != 128 {
        return Err(Refusal::BadBuffer);
    }
    if geo.logical <= n {
        return Err(Refusal::BadNumber);
    }
    match checking::first_fault(&image) {
        Ok(()) => Ok(image),
        Err(fault) => Err(Refusal::from(fault)),
    }
}

// A read, with n looked up by a table of any length, which may have no words. (An Option of a table would ask of each place that notes a word whether
// there is one.)
pub fn read_by(image: &[u32], geo: Geometry, n: u32, buffer: &mut [u32], table: &[u16]) -> Answer
    ensures value { result ≡ read_answer geo image.now n buffer.old }
    ensures buffer_after { buffer.new ≡ read_buffer geo image.now n buffer.old }
{
    let image = match sector_image(image, geo, n, buffer) {
        Ok(image) => image,
        Err(why) => return Err(why),
    };
    let Some((b, i)) = tables::look_up(&image, n, table) else {
        return Err(Refusal::Unmapped);
    };
    image.block(b).copy_contents(i, buffer);
    Ok(())
}

// The course of a write of n: its rows of the table of refusals are tested, in the table's order.
pub fn write_course(
    image: &[u32],
    geo: Geometry,
    n: u32,
    buffer: &[u32],
) -> Result<WritePlan, Refusal>
    ensures { result ≡ write_course geo image.now n buffer.now }
{
    let image = match sector_image(image, geo, n, buffer) {
        Ok(image) => image,
        Err(why) => return Err(why),
    };
    writing::filling::plan(&image)
}

// The entry that a release of n makes invalid, of an image past rows 1 and 3: rows 4 and 5.
fn mapped_entry(image: &View, n: u32, table: &[u16]) -> Result<Option<Location>, Refusal>
    requires { n < image.now.geo.logical }
    ensures { result ≡ of_image release_course image.now n }
{
    if let Err(fault) = checking::first_fault(image) {
        return Err(Refusal::from(fault));
    }
    match tables::look_up(image, n, table) {
        Some(live) => Ok(Some(live)),
        None => Err(Refusal::Unmapped),
    }
}

// The course of a release of n likewise, with n looked up by a table of any length: the entry that becomes invalid. (Always inlined, so that a step of a
// release that is refused by row 1 or 3 hands nothing on.)
#[inline(always)]
pub fn release_course(
    image: &[u32],
    geo: Geometry,
    n: u32,
    table: &[u16],
) -> Result<Option<Location>, Refusal>
    ensures { result ≡ release_course geo image.now n }
{
    let Some(image) = View::new(image, geo) else {
        return Err(Refusal::BadGeometry);
    };
    if n >= geo.logical {
        return Err(Refusal::BadNumber);
    }
    mapped_entry(&image, n, table)
}

// The course of a repair: its rows, 1, 4, 10 and 6 in this order. The pair of 4 is looked for only where there is a fault that cannot be mended.
pub fn repair_course(image: &[u32], geo: Geometry) -> Result<RepairPlan, Refusal>
    ensures { result ≡ repair_course geo image.now }
{
    let Some(image) = View::new(image, geo) else {
        return Err(Refusal::BadGeometry);
    };
    if !mending::is_mendable(&image) {
        if let Err(fault) = checking::first_fault(&image) {
            return Err(Refusal::from(fault));
        }
    }
    repairing::plan(&image)
}

// The first steps of a write that goes by this plan, at most so many (K4). The table is kept up where more may be done than there are; else nothing is
// said of it. (The plan is decided before, by the caller, so that the check's stack and that of a reclaim are not taken at the same time.)
fn write_along(
    image: &mut [u32],
    geo: Geometry,
    n: u32,
    buffer: &[u32],
    table: &mut [u16],
    plan: WritePlan,
    most: u32,
) -> Counts
    requires { write_course geo image.old n buffer.now ≡ Ok plan }
    ensures value { result ≡ counted (first_of most (write_steps geo image.old n buffer.now)) }
    ensures image_after { image.new ≡ written_first geo image.old n buffer.now most }
    ensures table_after { length (write_steps geo image.old n buffer.now) < most → table.new ≡ table_after_writing geo image.old (write_answer geo image.old n buffer.now) n table.old }
{
    let sector = Sector {
        number: n,
        words: buffer,
    };
    let mut run = Run {
        words: image,
        geo,
        left: most,
    };
    let erased = writing::filling::write_along(&mut run, plan, &sector, table);
    Counts {
        words: most - run.left - erased,
        erasures: erased,
    }
}

// The first steps of a write, with n looked up by a table of any length.
pub fn write_within(
    image: &mut [u32],
    geo: Geometry,
    n: u32,
    buffer: &[u32],
    table: &mut [u16],
    most: u32,
) -> Result<Counts, Refusal>
    ensures value { result ≡ counts_of (write_first_outcome geo image.old n buffer.now most) }
    ensures image_after { image.new ≡ written_first geo image.old n buffer.now most }
    ensures table_after { length (write_steps geo image.old n buffer.now) < most → table.new ≡ table_after_writing geo image.old (write_answer geo image.old n buffer.now) n table.old }
{
    match write_course(image, geo, n, buffer) {
        Ok(plan) => Ok(write_along(image, geo, n, buffer, table, plan, most)),
        Err(why) => Err(why),
    }
}

// A write, with n looked up by a table of any length, which is kept up: no write has 4,294,967,295 steps. (It stays beside `write_within`, as the two
// others do, since its contract is of the whole call, which `shellwaltz` and `tabled` promise.)
pub fn write_by(
    image: &mut [u32],
    geo: Geometry,
    n: u32,
    buffer: &[u32],
    table: &mut [u16],
) -> Result<Counts, Refusal>
    ensures value { result ≡ counts_of (write_outcome geo image.old n buffer.now) }
    ensures image_after { image.new ≡ written geo image.old n buffer.now }
    ensures table_after { table.new ≡ table_after_writing geo image.old (write_answer geo image.old n buffer.now) n table.old }
{
    write_within(image, geo, n, buffer, table, u32::MAX)
}

// The first steps of a release, at most so many. The table is kept up as if all were done.
pub fn release_within(
    image: &mut [u32],
    geo: Geometry,
    n: u32,
    table: &mut [u16],
    most: u32,
) -> Result<Counts, Refusal>
    ensures value { result ≡ counts_of (release_first_outcome geo image.old n most) }
    ensures image_after { image.new ≡ released_first geo image.old n most }
    ensures table_after { table.new ≡ table_after_releasing geo image.old (release_answer geo image.old n) n table.old }
{
    let live = match release_course(image, geo, n, table) {
        Ok(live) => live,
        Err(why) => return Err(why),
    };
    let mut run = Run {
        words: image,
        geo,
        left: most,
    };
    placing::release(&mut run, live);
    tables::note(table, n, 0xFFFF);
    Ok(Counts {
        words: most - run.left,
        erasures: 0,
    })
}

// A release, with n looked up by a table of any length, which is kept up.
pub fn release_by(
    image: &mut [u32],
    geo: Geometry,
    n: u32,
    table: &mut [u16],
) -> Result<Counts, Refusal>
    ensures value { result ≡ counts_of (release_outcome geo image.old n) }
    ensures image_after { image.new ≡ released geo image.old n }
    ensures table_after { table.new ≡ table_after_releasing geo image.old (release_answer geo image.old n) n table.old }
{
    release_within(image, geo, n, table, u32::MAX)
}

// The first steps of a repair that goes by this plan, at most so many. (Decided before, as with a write.)
fn repair_along(image: &mut [u32], geo: Geometry, plan: RepairPlan, most: u32) -> Counts
    requires { repair_course geo image.old ≡ Ok plan }
    ensures value { result ≡ counted (first_of most (repair_steps geo image.old)) }
    ensures image_after { image.new ≡ repaired_first geo image.old most }
{
    let mut run = Run {
        words: image,
        geo,
        left: most,
    };
    let emptied = repairing::repair_along(&mut run, plan);
    Counts {
        words: most - run.left - emptied,
        erasures: emptied,
    }
}

// The first steps of a repair.
pub fn repair_within(image: &mut [u32], geo: Geometry, most: u32) -> Result<Counts, Refusal>
    ensures value { result ≡ counts_of (repair_first_outcome geo image.old most) }
    ensures image_after { image.new ≡ repaired_first geo image.old most }
{
    match repair_course(image, geo) {
        Ok(plan) => Ok(repair_along(image, geo, plan, most)),
        Err(why) => Err(why),
    }
}

// A repair: none has 4,294,967,295 steps.
pub fn repair_by(image: &mut [u32], geo: Geometry) -> Result<Counts, Refusal>
    ensures value { result ≡ counts_of (repair_outcome geo image.old) }
    ensures image_after { image.new ≡ repaired geo image.old }
{
    repair_within(image, geo, u32::MAX)
}
