#![tactic(auto)]

// (i) of a repair (K4): superseded entries are made invalid, block by block and slot by slot, as many as there are steps left for. No complete
// entry changes, so the numbers that have one are marked once.
ghost use Rattle.std.specs.Prelude.{◌<◌};
ghost use Rattle.ranges.specs.Range.{join_below};
ghost use Rattle.geometry.specs.Geometry.{d};
ghost use Rattle.image.specs.Words.{Words32};
ghost use Rattle.naming.specs.Completes.{Completes};
ghost use Rattle.flash.specs.Repairing.{clears_slot, clearing};
ghost use Rattle.flash.specs.Runs.{Does, of_run};

use flash::run::Run;
use naming::judged::Judged;
use naming::mark_all_completes;
use rules::NumberSet;

// The entry of slot i of block b with bit 31 cleared, if the slot is superseded.
fn retire_slot(run: &mut Run, completes: &NumberSet, b: usize, i: usize)
    requires completes { of_run Completes run.old completes.now.words }
    requires b_lt_blocks { b < run.old.geo.blocks }
    requires i_bound { i < d run.old.geo }
    ensures { Does run.old run.new (of_run clears_slot run.old b i) }
{
    let block = run.view().block(b);
    let judged = Judged { block, completes };
    if judged.is_superseded(i) {
        let at = run.geo.entries_start(b) + i;
        let entry = run.words[at];
        run.program(at, bits::clear_bit(entry, 31));
    }
}

// The slots of block b. With no step left it stops.
fn retire_in_block(run: &mut Run, completes: &NumberSet, b: usize)
    requires completes { of_run Completes run.old completes.now.words }
    requires b_lt_blocks { b < run.old.geo.blocks }
    ensures { Does run.old run.new (join_below (d run.old.geo) (of_run clears_slot run.old b)) }
{
    let d = run.view().geo.d();
    for i in 0..d {
        if run.left == 0 {
            return;
        }
        retire_slot(run, completes, b, i);
    }
}

// The blocks: (i) as a whole. (Its callers have no slice to read from that the words are of 32 bits, so it says that too.)
pub fn retire_superseded(run: &mut Run)
    ensures words32 { Words32 run.old.words.now }
    ensures run_after { Does run.old run.new (of_run clearing run.old) }
{
    let mut completes = NumberSet::new();
    mark_all_completes(&run.view(), &mut completes);
    let blocks = run.geo.blocks as usize;
    for b in 0..blocks {
        if run.left == 0 {
            return;
        }
        retire_in_block(run, &completes, b);
    }
}
