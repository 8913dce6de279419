#![tactic(auto)]

// A repair (K4): what it decides before its first step, and then (i) to (iv), one after the other, as far as steps are left.
ghost use Rattle.std.specs.Prelude.{true, Ok, ◌≡◌, ◌<◌, ◌≤◌};
ghost use Rattle.geometry.specs.Geometry.{d};
ghost use Rattle.image.specs.Words.{Words32, erase_count};
ghost use Rattle.image.specs.Blocks.{live_slots, lowest_open};
ghost use Rattle.image.specs.WellFormed.{ceiling, MapsAgree};
ghost use Rattle.image.specs.Mending.{mendable};
ghost use Rattle.image.specs.Views.{of_image};
ghost use Rattle.flash.specs.Steps.{progress};
ghost use Rattle.flash.specs.Writing.{EachInTurn, copying, reclaiming};
ghost use Rattle.flash.specs.Repairing.{repairing, room_in};
ghost use Rattle.flash.specs.Runs.{Does, of_run};
ghost use Rattle.repairing.specs.Planned.{mending, repair_planned, plan_or_refusal};

use answers::Refusal;
use blocks::{count_blank, free_slots, lowest_open};
use flash::run::Run;
use image::kinds::count_live;
use image::view::View;
use mending::emptiest;
use naming::judged::Judged;
use naming::mark_all_completes;
use restoring::{restore_bounds, restore_count};
use retiring::retire_superseded;
use rules::NumberSet;
use writing::reclaiming::{copy_live, erase_victim};

// How a repair that is not refused goes about it: (i) to (iii), as a block is blank; or these and then this block is emptied.
#[derive(Clone, Copy, Debug, PartialEq, Eq)]
pub enum RepairPlan {
    Mend,
    Empty(usize),
}

// The free slots of the first open block, which the live slots of the emptied block go to; 0 where none is open.
fn room(image: &View) -> usize
    requires { of_image MapsAgree image.now }
    ensures { result ≡ of_image room_in image.now }
{
    match lowest_open(image) {
        Some(open) => free_slots(&image.block(open)),
        None => 0,
    }
}

// How a repair goes about it, told from the image before (i): what (i) changes bears on none of it. It is refused where a block has to be emptied and
// there is no room for what is live there, or it cannot be erased once more.
pub fn plan(image: &View) -> Result<RepairPlan, Refusal>
    requires { of_image mendable image.now ≡ true }
    ensures { result ≡ plan_or_refusal (of_image repair_planned image.now) }
{
    if count_blank(image) != 0 {
        return Ok(RepairPlan::Mend);
    }
    let mut completes = NumberSet::new();
    mark_all_completes(image, &mut completes);
    let Some(v) = emptiest(image, &completes) else {
        return Err(Refusal::NoRoom);
    };
    let block = image.block(v);
    let judged = Judged {
        block,
        completes: &completes,
    };
    if room(image) < count_live(&judged) as usize {
        return Err(Refusal::NoRoom);
    }
    if block.erase_count() == 1_000_000 {
        return Err(Refusal::WornOut);
    }
    Ok(RepairPlan::Empty(v))
}

// (i) to (iii), each begun only when all before it was done. (It hands on what (i) says of the words.)
fn mend(run: &mut Run)
    requires { of_run mendable run.old ≡ true }
    ensures words32 { Words32 run.old.words.now }
    ensures run_after { Does run.old run.new (of_run mending run.old) }
{
    retire_superseded(run);
    if run.left == 0 {
        return;
    }
    restore_bounds(run);
    if run.left == 0 {
        return;
    }
    restore_count(run);
}

// (iv), its copying: the live slots of block v go to the first open block. Where no block is open, none of its slots is live.
fn copy_out(run: &mut Run, v: usize)
    requires maps_agree { of_run MapsAgree run.old }
    requires v_lt_blocks { v < run.old.geo.blocks }
    requires each_in_turn { of_run lowest_open run.old < run.old.geo.blocks → of_run EachInTurn run.old v (of_run lowest_open run.old) }
    requires v_value { run.old.geo.blocks ≤ of_run lowest_open run.old → of_run live_slots run.old v ≡ 0 }
    ensures { Does run.old run.new (of_run copying run.old v (of_run lowest_open run.old) (d run.old.geo)) }
{
    if let Some(t) = lowest_open(&run.view()) {
        copy_live(run, v, t, &mut []);
    }
}

// (iv): block v is emptied, and then erased. Returns how many blocks it erased.
fn empty(run: &mut Run, v: usize) -> u32
    requires maps_agree { of_run MapsAgree run.old }
    requires v_lt_blocks { v < run.old.geo.blocks }
    requires v_bound { of_run erase_count run.old v < ceiling }
    requires each_in_turn { of_run lowest_open run.old < run.old.geo.blocks → of_run EachInTurn run.old v (of_run lowest_open run.old) }
    requires v_value { run.old.geo.blocks ≤ of_run lowest_open run.old → of_run live_slots run.old v ≡ 0 }
    ensures value { result ≡ (progress run.old.left (of_run reclaiming run.old v (of_run lowest_open run.old))).erasures }
    ensures run_after { Does run.old run.new (of_run reclaiming run.old v (of_run lowest_open run.old)) }
{
    let count = run.view().block(v).erase_count();
    copy_out(run, v);
    if run.left == 0 {
        return 0;
    }
    erase_victim(run, v, count);
    1
}

// A repair by its plan, as far as steps are left. Returns how many blocks it erased.
pub fn repair_along(run: &mut Run, plan: RepairPlan) -> u32
    requires image_value { of_run mendable run.old ≡ true }
    requires plan_value { plan_or_refusal (of_run repair_planned run.old) ≡ Ok plan }
    ensures value { result ≡ (progress run.old.left (of_run repairing run.old)).erasures }
    ensures run_after { Does run.old run.new (of_run repairing run.old) }
{
    mend(run);
    if run.left == 0 {
        return 0;
    }
    match plan {
        RepairPlan::Mend => 0,
        RepairPlan::Empty(v) => empty(run, v),
    }
}
