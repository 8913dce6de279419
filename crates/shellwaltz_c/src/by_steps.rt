// A write, a release and a repair step by step (K4) for C: a step is its kind, its place and its word, each through a pointer, as
// include/shellwaltz.h has them.
ghost use Rattle.std.specs.Prelude.{◌≡◌};
ghost use Rattle.geometry.specs.Geometry.{shape};
ghost use Rattle.answers.specs.Answers.{number_of, block_of, rule_of};
ghost use Rattle.answers.specs.Answers.{answer_of};
ghost use Rattle.calls.specs.Calls.{write_first_outcome, written_first, release_first_outcome, released_first, repair_first_outcome, repaired_first};
ghost use Rattle.stepwise.specs.Calls.{write_step, release_step, repair_step};
ghost use Rattle.shellwaltz_c.specs.Told.{kind_of, place_of, word_of};
ghost use Rattle.shellwaltz_c.specs.Told.{next_of};

use super::{answer_of, geometry, tell, tell_counts};
use answers::Refusal;
use flash::{NextStep, Step};

// Tells what a call for one step gave: the kind of the step, its place or its block, and its word, all 0 where there is none; and its answer. (The
// kinds are 0, 1 and 2 for C, as the header names them.)
fn tell_step(
    told: Result<NextStep, Refusal>,
    kind: &mut u32,
    place: &mut usize,
    word: &mut u32,
    bad_block: &mut u32,
    bad_rule: &mut u32,
) -> u32
    ensures value { result ≡ number_of (answer_of told) }
    ensures kind_after { kind.new ≡ kind_of (next_of told) }
    ensures place_after { place.new ≡ place_of (next_of told) }
    ensures word_after { word.new ≡ word_of (next_of told) }
    ensures bad_block_after { bad_block.new ≡ block_of (answer_of told) }
    ensures bad_rule_after { bad_rule.new ≡ rule_of (answer_of told) }
{
    (*kind, *place, *word) = match told {
        Ok(NextStep::Next(Step::Program(place, word))) => (1, place, word),
        Ok(NextStep::Next(Step::Erase(block))) => (2, block, 0),
        Ok(NextStep::Done) | Err(_) => (0, 0, 0),
    };
    tell(answer_of(told), bad_block, bad_rule)
}

// Step `step`, from 0, of the write of the buffer as a sector. Refuses 1, 2, 3, 4 and 6.
#[unsafe(no_mangle)]
pub extern "C" fn shellwaltz_write_step(
    blocks: u32,
    sectors: u32,
    logical: u32,
    image: &[u32],
    number: u32,
    buffer: &[u32],
    step: u32,
    kind: &mut u32,
    place: &mut usize,
    word: &mut u32,
    bad_block: &mut u32,
    bad_rule: &mut u32,
) -> u32
    ensures value { result ≡ number_of (write_step (shape blocks sectors logical) image.now number buffer.now step).answer }
    ensures kind_after { kind.new ≡ kind_of (write_step (shape blocks sectors logical) image.now number buffer.now step).next }
    ensures place_after { place.new ≡ place_of (write_step (shape blocks sectors logical) image.now number buffer.now step).next }
    ensures word_after { word.new ≡ word_of (write_step (shape blocks sectors logical) image.now number buffer.now step).next }
    ensures bad_block_after { bad_block.new ≡ block_of (write_step (shape blocks sectors logical) image.now number buffer.now step).answer }
    ensures bad_rule_after { bad_rule.new ≡ rule_of (write_step (shape blocks sectors logical) image.now number buffer.now step).answer }
{
    let geo = geometry(blocks, sectors, logical);
    let told = stepwise::write_step(image, geo, number, buffer, step);
    tell_step(told, kind, place, word, bad_block, bad_rule)
}

// Step `step`, from 0, of the release of a sector. Refuses 1, 3, 4 and 5.
#[unsafe(no_mangle)]
pub extern "C" fn shellwaltz_release_step(
    blocks: u32,
    sectors: u32,
    logical: u32,
    image: &[u32],
    number: u32,
    step: u32,
    kind: &mut u32,
    place: &mut usize,
    word: &mut u32,
    bad_block: &mut u32,
    bad_rule: &mut u32,
) -> u32
    ensures value { result ≡ number_of (release_step (shape blocks sectors logical) image.now number step).answer }
    ensures kind_after { kind.new ≡ kind_of (release_step (shape blocks sectors logical) image.now number step).next }
    ensures place_after { place.new ≡ place_of (release_step (shape blocks sectors logical) image.now number step).next }
    ensures word_after { word.new ≡ word_of (release_step (shape blocks sectors logical) image.now number step).next }
    ensures bad_block_after { bad_block.new ≡ block_of (release_step (shape blocks sectors logical) image.now number step).answer }
    ensures bad_rule_after { bad_rule.new ≡ rule_of (release_step (shape blocks sectors logical) image.now number step).answer }
{
    let geo = geometry(blocks, sectors, logical);
    let told = stepwise::release_step(image, geo, number, step);
    tell_step(told, kind, place, word, bad_block, bad_rule)
}

// Step `step`, from 0, of a repair. Refuses 1, 4, 10 and 6.
#[unsafe(no_mangle)]
pub extern "C" fn shellwaltz_repair_step(
    blocks: u32,
    sectors: u32,
    logical: u32,
    image: &[u32],
    step: u32,
    kind: &mut u32,
    place: &mut usize,
    word: &mut u32,
    bad_block: &mut u32,
    bad_rule: &mut u32,
) -> u32
    ensures value { result ≡ number_of (repair_step (shape blocks sectors logical) image.now step).answer }
    ensures kind_after { kind.new ≡ kind_of (repair_step (shape blocks sectors logical) image.now step).next }
    ensures place_after { place.new ≡ place_of (repair_step (shape blocks sectors logical) image.now step).next }
    ensures word_after { word.new ≡ word_of (repair_step (shape blocks sectors logical) image.now step).next }
    ensures bad_block_after { bad_block.new ≡ block_of (repair_step (shape blocks sectors logical) image.now step).answer }
    ensures bad_rule_after { bad_rule.new ≡ rule_of (repair_step (shape blocks sectors logical) image.now step).answer }
{
    let geo = geometry(blocks, sectors, logical);
    let told = stepwise::repair_step(image, geo, step);
    tell_step(told, kind, place, word, bad_block, bad_rule)
}

// The first `most` steps of that write, or all where there are fewer. Refuses 1, 2, 3, 4 and 6.
#[unsafe(no_mangle)]
pub extern "C" fn shellwaltz_write_first(
    blocks: u32,
    sectors: u32,
    logical: u32,
    image: &mut [u32],
    number: u32,
    buffer: &[u32],
    most: u32,
    words: &mut u32,
    erasures: &mut u32,
    bad_block: &mut u32,
    bad_rule: &mut u32,
) -> u32
    ensures value { result ≡ number_of (write_first_outcome (shape blocks sectors logical) image.old number buffer.now most).answer }
    ensures image_after { image.new ≡ written_first (shape blocks sectors logical) image.old number buffer.now most }
    ensures words_after { words.new ≡ (write_first_outcome (shape blocks sectors logical) image.old number buffer.now most).words }
    ensures erasures_after { erasures.new ≡ (write_first_outcome (shape blocks sectors logical) image.old number buffer.now most).erasures }
    ensures bad_block_after { bad_block.new ≡ block_of (write_first_outcome (shape blocks sectors logical) image.old number buffer.now most).answer }
    ensures bad_rule_after { bad_rule.new ≡ rule_of (write_first_outcome (shape blocks sectors logical) image.old number buffer.now most).answer }
{
    let geo = geometry(blocks, sectors, logical);
    let wrote = stepwise::write_first(image, geo, number, buffer, most);
    tell_counts(wrote, words, erasures, bad_block, bad_rule)
}

// The first `most` steps of that release, likewise. Refuses 1, 3, 4 and 5.
#[unsafe(no_mangle)]
pub extern "C" fn shellwaltz_release_first(
    blocks: u32,
    sectors: u32,
    logical: u32,
    image: &mut [u32],
    number: u32,
    most: u32,
    words: &mut u32,
    erasures: &mut u32,
    bad_block: &mut u32,
    bad_rule: &mut u32,
) -> u32
    ensures value { result ≡ number_of (release_first_outcome (shape blocks sectors logical) image.old number most).answer }
    ensures image_after { image.new ≡ released_first (shape blocks sectors logical) image.old number most }
    ensures words_after { words.new ≡ (release_first_outcome (shape blocks sectors logical) image.old number most).words }
    ensures erasures_after { erasures.new ≡ (release_first_outcome (shape blocks sectors logical) image.old number most).erasures }
    ensures bad_block_after { bad_block.new ≡ block_of (release_first_outcome (shape blocks sectors logical) image.old number most).answer }
    ensures bad_rule_after { bad_rule.new ≡ rule_of (release_first_outcome (shape blocks sectors logical) image.old number most).answer }
{
    let geo = geometry(blocks, sectors, logical);
    let freed = stepwise::release_first(image, geo, number, most);
    tell_counts(freed, words, erasures, bad_block, bad_rule)
}

// The first `most` steps of a repair, or all where there are fewer. Refuses 1, 4, 10 and 6.
#[unsafe(no_mangle)]
pub extern "C" fn shellwaltz_repair_first(
    blocks: u32,
    sectors: u32,
    logical: u32,
    image: &mut [u32],
    most: u32,
    words: &mut u32,
    erasures: &mut u32,
    bad_block: &mut u32,
    bad_rule: &mut u32,
) -> u32
    ensures value { result ≡ number_of (repair_first_outcome (shape blocks sectors logical) image.old most).answer }
    ensures image_after { image.new ≡ repaired_first (shape blocks sectors logical) image.old most }
    ensures words_after { words.new ≡ (repair_first_outcome (shape blocks sectors logical) image.old most).words }
    ensures erasures_after { erasures.new ≡ (repair_first_outcome (shape blocks sectors logical) image.old most).erasures }
    ensures bad_block_after { bad_block.new ≡ block_of (repair_first_outcome (shape blocks sectors logical) image.old most).answer }
    ensures bad_rule_after { bad_rule.new ≡ rule_of (repair_first_outcome (shape blocks sectors logical) image.old most).answer }
{
    let geo = geometry(blocks, sectors, logical);
    let mended = stepwise::repair_first(image, geo, most);
    tell_counts(mended, words, erasures, bad_block, bad_rule)
}
