ghost use Rattle.std.specs.Prelude.{◌≡◌, ◌<◌};
ghost use Rattle.geometry.specs.Geometry.{d};
ghost use Rattle.image.specs.WellFormed.{ceiling};
ghost use Rattle.flash.specs.Runs.{Does, of_run};
ghost use Rattle.flash.specs.Writing.{EachInTurn, copying, erases_victim};
ghost use Rattle.flash.specs.Tables.{table_copied};

use blocks::lowest_free;
use flash::Sector;
use flash::run::Run;
use image::Slot;
use placing::place_over;
use tables::{note, word_at};

// Goes through the slots of block v and places each live one in the lowest free slot of block t. The number of a slot is found in that slot when
// its turn comes, so it is not looked up again; it is noted where it is placed. With no step left it stops, and nothing is said of the table then.
pub fn copy_live(run: &mut Run, v: usize, t: usize, table: &mut [u16])
    requires v_lt_blocks { v < run.old.geo.blocks }
    requires t_lt_blocks { t < run.old.geo.blocks }
    requires each_in_turn { of_run EachInTurn run.old v t }
    ensures run_after { Does run.old run.new (of_run copying run.old v t (d run.old.geo)) }
    ensures table_after { (run.new.left ≡ 0 → ⊥) → table.new ≡ of_run table_copied run.old v t table.old (d run.old.geo) }
{
    let d = run.geo.d();
    for i in 0..d {
        let image = run.view();
        let from = image.block(v);
        if let Slot::Live(number) = from.own_slot(i) {
            let mut buffer = [0u32; 128];
            from.copy_contents(i, &mut buffer);
            let taken = lowest_free(&image.block(t));
            let sector = Sector {
                number,
                words: &buffer,
            };
            place_over(run, &sector, t, taken, Some((v, i)));
            if run.left == 0 {
                return;
            }
            note(table, number, word_at(run.geo, t, taken));
        }
    }
}

// Erases block v and gives it the count that follows this one.
pub fn erase_victim(run: &mut Run, v: usize, count: u32)
    requires v_lt_blocks { v < run.old.geo.blocks }
    requires count_lt_ceiling { count < ceiling }
    ensures { Does run.old run.new (erases_victim run.old.geo v count) }
{
    let start = run.geo.start(v);
    run.erase(v);
    run.program(start, count + 1);
}
