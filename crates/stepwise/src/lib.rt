#![tactic(auto)]

// K4: a write, a release and a repair step by step. One step of it is told from the image before the call, which stays as it is; or its first steps are
// carried out, by the code of the whole call. Each refuses as the whole call does, and a refused one has no step.
// (A trait of the three kinds of call would add a layer to six functions of one to five lines: README lists all six.)
ghost use Rattle.std.specs.Prelude.{◌≡◌};
ghost use Rattle.calls.specs.Calls.{write_first_outcome, written_first, release_first_outcome, released_first, repair_first_outcome, repaired_first};
ghost use Rattle.calls.specs.Outcomes.{counts_of};
ghost use Rattle.stepwise.specs.Calls.{step_of, write_step, release_step, repair_step};

use answers::Refusal;
use calls::Counts;
use flash::{NextStep, Sector, WritePlan};
use geometry::Geometry;
use image::view::View;

// Step i, from 0, of the write of the buffer as sector n. Refuses 1, 2, 3, 4 and 6. (With `match`, here and below, and not with `?`: no public call
// stands on a function of std, since `determined` proves of each (`runs`) that an environment has its code, and std's tables cannot be named.)
pub fn write_step(
    image: &[u32],
    geo: Geometry,
    n: u32,
    buffer: &[u32],
    i: u32,
) -> Result<NextStep, Refusal>
    ensures { result ≡ step_of (write_step geo image.now n buffer.now i) }
{
    match calls::write_course(image, geo, n, buffer) {
        Ok(plan) => {
            let image = View { words: image, geo };
            let sector = Sector {
                number: n,
                words: buffer,
            };
            match plan {
                WritePlan::Fill => Ok(ahead::plain::fill_step(&image, &sector, i)),
                WritePlan::Reclaim(v) => {
                    Ok(ahead::reclaims::reclaim_step(&image, v, &sector, i))
                }
            }
        }
        Err(why) => Err(why),
    }
}

// Step i, from 0, of the release of sector n. Refuses 1, 3, 4 and 5.
pub fn release_step(image: &[u32], geo: Geometry, n: u32, i: u32) -> Result<NextStep, Refusal>
    ensures { result ≡ step_of (release_step geo image.now n i) }
{
    match calls::release_course(image, geo, n, &[]) {
        Ok(live) => {
            let image = View { words: image, geo };
            Ok(ahead::plain::release_step(&image, live, i))
        }
        Err(why) => Err(why),
    }
}

// Step i, from 0, of a repair. Refuses 1, 4, 10 and 6.
pub fn repair_step(image: &[u32], geo: Geometry, i: u32) -> Result<NextStep, Refusal>
    ensures { result ≡ step_of (repair_step geo image.now i) }
{
    match calls::repair_course(image, geo) {
        Ok(plan) => {
            let image = View { words: image, geo };
            Ok(repair_ahead::repairs::repair_step(&image, plan, i))
        }
        Err(why) => Err(why),
    }
}

// Carries out the first steps of that write, `most` of them or all where there are fewer. Refuses 1, 2, 3, 4 and 6.
pub fn write_first(
    image: &mut [u32],
    geo: Geometry,
    n: u32,
    buffer: &[u32],
    most: u32,
) -> Result<Counts, Refusal>
    ensures value { result ≡ counts_of (write_first_outcome geo image.old n buffer.now most) }
    ensures image_after { image.new ≡ written_first geo image.old n buffer.now most }
{
    calls::write_within(image, geo, n, buffer, &mut [], most)
}

// Carries out the first steps of that release, likewise. Refuses 1, 3, 4 and 5.
pub fn release_first(image: &mut [u32], geo: Geometry, n: u32, most: u32) -> Result<Counts, Refusal>
    ensures value { result ≡ counts_of (release_first_outcome geo image.old n most) }
    ensures image_after { image.new ≡ released_first geo image.old n most }
{
    calls::release_within(image, geo, n, &mut [], most)
}

// Carries out the first steps of a repair, likewise. Refuses 1, 4, 10 and 6.
pub fn repair_first(image: &mut [u32], geo: Geometry, most: u32) -> Result<Counts, Refusal>
    ensures value { result ≡ counts_of (repair_first_outcome geo image.old most) }
    ensures image_after { image.new ≡ repaired_first geo image.old most }
{
    calls::repair_within(image, geo, most)
}
