ghost use Rattle.std.specs.Prelude.{true, Ok, ◌≡◌, ◌<◌};
ghost use Rattle.image.specs.Blocks.{victim};
ghost use Rattle.image.specs.Views.{of_image};
ghost use Rattle.image.specs.WellFormed.{MapsAgree, sound, well_formed};
ghost use Rattle.flash.specs.Runs.{Does, of_run};
ghost use Rattle.flash.specs.Steps.{progress};
ghost use Rattle.flash.specs.Writing.{Reclaim, next_slot, must_reclaim, filling, reclaiming_first, writing, planned};
ghost use Rattle.flash.specs.Tables.{table_filled, table_reclaimed_first, table_written};
ghost use Rattle.writing.specs.Planned.{plan_or_refusal, place_below};

use super::reclaiming::{copy_live, erase_victim};
use answers::Refusal;
use blocks::{count_blank, least_worn_blank, lowest_free, lowest_open, victim};
use flash::run::Run;
use flash::{Sector, WritePlan};
use image::Location;
use image::view::View;
use placing::place;

// Whether rule 3 applies: no block is open, and a single one is blank.
fn must_reclaim(image: &View) -> bool
    requires { of_image MapsAgree image.now }
    ensures { result ≡ of_image must_reclaim image.now }
{
    match lowest_open(image) {
        Some(_) => false,
        None => count_blank(image) == 1,
    }
}

// How a write goes about it. It is refused where it must reclaim and its victim cannot be erased once more.
pub fn plan(image: &View) -> Result<WritePlan, Refusal>
    requires image_value { of_image sound image.now ≡ true }
    requires image_bound { of_image must_reclaim image.now ≡ true → of_image victim image.now < image.now.geo.blocks }
    ensures { result ≡ plan_or_refusal (of_image planned image.now) }
{
    if !must_reclaim(image) {
        return Ok(WritePlan::Fill);
    }
    // There is a victim (image_bound). The arm is never taken: `unreachable` is a function of std.
    let Some(v) = victim(image) else {
        return Ok(WritePlan::Fill);
    };
    if image.block(v).erase_count() == 1_000_000 {
        return Err(Refusal::WornOut);
    }
    Ok(WritePlan::Reclaim(v))
}

// The slot of rules 1 and 2: the first free one of the first open block or, if none is open, slot 0 of the least worn blank block. There is none
// where no block is open and none is blank.
pub fn next_slot(image: &View) -> Option<Location>
    requires { of_image MapsAgree image.now }
    ensures { result ≡ place_below image.now.geo.blocks (of_image next_slot image.now) }
{
    if let Some(open) = lowest_open(image) {
        return Some((open, lowest_free(&image.block(open))));
    }
    if let Some(blank) = least_worn_blank(image) {
        return Some((blank, 0));
    }
    None
}

// Places a sector in that slot.
pub fn fill(run: &mut Run, sector: &Sector, table: &mut [u16])
    requires image_value { of_run well_formed run.old ≡ true }
    requires number_lt_logical { sector.now.number < run.old.geo.logical }
    ensures run_after { Does run.old run.new (of_run filling run.old sector.now.number sector.now.words.now) }
    ensures table_after { table.new ≡ of_run table_filled run.old sector.now.number table.old }
{
    if let Some((b, i)) = next_slot(&run.view()) {
        place(run, sector, b, i, table);
    }
}

// Rule 3 with the victim v, then rule 1 or 2: each part is begun only when all before it was done, so that it finds the image that it needs. Returns
// how many blocks were erased.
pub fn reclaim_and_fill(run: &mut Run, v: usize, sector: &Sector, table: &mut [u16]) -> u32
    requires image_value { of_run well_formed run.old ≡ true }
    requires image_value_2 { of_run planned run.old ≡ Reclaim v }
    requires number_lt_logical { sector.now.number < run.old.geo.logical }
    ensures value { result ≡ (progress run.old.left (of_run reclaiming_first run.old v sector.now.number sector.now.words.now)).erasures }
    ensures run_after { Does run.old run.new (of_run reclaiming_first run.old v sector.now.number sector.now.words.now) }
    ensures table_after { (run.new.left ≡ 0 → ⊥) → table.new ≡ of_run table_reclaimed_first run.old v sector.now.number table.old }
{
    let image = run.view();
    // There is a blank block, as the image is well formed: this arm is never taken either.
    let Some(blank) = least_worn_blank(&image) else {
        return 0;
    };
    let count = image.block(v).erase_count();
    copy_live(run, v, blank, table);
    if run.left == 0 {
        return 0;
    }
    erase_victim(run, v, count);
    if run.left > 0 {
        fill(run, sector, table);
    }
    1
}

// A write by its plan, as far as steps are left. Returns how many blocks it erased.
pub fn write_along(run: &mut Run, plan: WritePlan, sector: &Sector, table: &mut [u16]) -> u32
    requires image_value { of_run well_formed run.old ≡ true }
    requires plan_value { plan_or_refusal (of_run planned run.old) ≡ Ok plan }
    requires number_lt_logical { sector.now.number < run.old.geo.logical }
    ensures value { result ≡ (progress run.old.left (of_run writing run.old sector.now.number sector.now.words.now)).erasures }
    ensures run_after { Does run.old run.new (of_run writing run.old sector.now.number sector.now.words.now) }
    ensures table_after { (run.new.left ≡ 0 → ⊥) → table.new ≡ of_run table_written run.old sector.now.number table.old }
{
    match plan {
        WritePlan::Fill => {
            fill(run, sector, table);
            0
        }
        WritePlan::Reclaim(v) => reclaim_and_fill(run, v, sector, table),
    }
}
