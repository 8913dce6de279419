#![tactic(auto)]

// The calls for C: plain numbers, an image or a buffer as a pointer and a length in words, counts and the bad block and rule (K1) through
// pointers, and the answer's number in the table of refusals (FORMAT.md, Refusals). include/shellwaltz.h is their header. Each contract is
// that of the call it passes on to, for any three 32-bit numbers as geometry.
// (The numbers of a geometry, the bad pair, the counts and the parts of a step stay parameters of their own: the header's functions have them so.)
ghost use Rattle.std.specs.Prelude.{◌≡◌};
ghost use Rattle.geometry.specs.Geometry.{shape};
ghost use Rattle.answers.specs.Answers.{number_of, block_of, rule_of};
ghost use Rattle.answers.specs.Answers.{answer_of};
ghost use Rattle.calls.specs.Refusals.{check_answer, read_answer};
ghost use Rattle.calls.specs.Outcomes.{outcome_of, totals_of_sums};
ghost use Rattle.calls.specs.Calls.{formatted, format_outcome, reported, read_buffer, write_outcome, written, release_outcome, released, repair_outcome, repaired};
ghost use Rattle.shellwaltz_c.specs.Plain.{narrowed};

use answers::{Answer, Refusal};
use calls::{Counts, Totals};
use geometry::Geometry;

pub mod by_steps;
pub mod with_table;

// A number of blocks or sectors in 16 bits: one that does not fit becomes the greatest that does, which breaks its limit as well. (A cast here and a
// `match` below, and not methods of std: no public call stands on a function of std, since `determined` proves of each (`runs`) that an environment
// has its code, and std's tables cannot be named.)
fn narrow(x: u32) -> u16
    ensures { result ≡ narrowed x }
{
    if x > u16::MAX as u32 {
        return u16::MAX;
    }
    x as u16
}

// The geometry that the Rattle calls take.
fn geometry(blocks: u32, sectors: u32, logical: u32) -> Geometry
    ensures { result ≡ shape (narrowed blocks) (narrowed sectors) logical }
{
    Geometry {
        blocks: narrow(blocks),
        sectors: narrow(sectors),
        logical,
    }
}

// The answer of a call that gave this.
fn answer_of<T: Drop>(given: Result<T, Refusal>) -> Answer
    ensures { result ≡ answer_of given }
{
    match given {
        Ok(_) => Ok(()),
        Err(why) => Err(why),
    }
}

// Tells an answer: the pair that it names, and its number.
fn tell(answer: Answer, bad_block: &mut u32, bad_rule: &mut u32) -> u32
    ensures value { result ≡ number_of answer }
    ensures bad_block_after { bad_block.new ≡ block_of answer }
    ensures bad_rule_after { bad_rule.new ≡ rule_of answer }
{
    *bad_block = answers::bad_block(answer);
    *bad_rule = answers::bad_rule(answer);
    answers::number(answer)
}

// Tells what a call that changes the image gave: its counts, 0 and 0 where it is refused, and its answer.
fn tell_counts(
    done: Result<Counts, Refusal>,
    words: &mut u32,
    erasures: &mut u32,
    bad_block: &mut u32,
    bad_rule: &mut u32,
) -> u32
    ensures value { result ≡ number_of (outcome_of done).answer }
    ensures words_after { words.new ≡ (outcome_of done).words }
    ensures erasures_after { erasures.new ≡ (outcome_of done).erasures }
    ensures bad_block_after { bad_block.new ≡ block_of (outcome_of done).answer }
    ensures bad_rule_after { bad_rule.new ≡ rule_of (outcome_of done).answer }
{
    (*words, *erasures) = match done {
        Ok(counts) => (counts.words, counts.erasures),
        Err(_) => (0, 0),
    };
    tell(answer_of(done), bad_block, bad_rule)
}

// Tells what a report gave: its numbers, zeros where it is refused, and its answer.
fn tell_totals(
    added: Result<Totals, Refusal>,
    mapped: &mut u32,
    free: &mut u32,
    dead: &mut u32,
    erase_sum: &mut u32,
    bad_block: &mut u32,
    bad_rule: &mut u32,
) -> u32
    ensures value { result ≡ number_of (totals_of_sums added).answer }
    ensures mapped_after { mapped.new ≡ (totals_of_sums added).mapped }
    ensures free_after { free.new ≡ (totals_of_sums added).free }
    ensures dead_after { dead.new ≡ (totals_of_sums added).dead }
    ensures erase_sum_after { erase_sum.new ≡ (totals_of_sums added).erase_sum }
    ensures bad_block_after { bad_block.new ≡ block_of (totals_of_sums added).answer }
    ensures bad_rule_after { bad_rule.new ≡ rule_of (totals_of_sums added).answer }
{
    (*mapped, *free, *dead, *erase_sum) = match added {
        Ok(totals) => (totals.mapped, totals.free, totals.dead, totals.erase_sum),
        Err(_) => (0, 0, 0, 0),
    };
    tell(answer_of(added), bad_block, bad_rule)
}

// Makes a fresh image. Refuses 1.
#[unsafe(no_mangle)]
pub extern "C" fn shellwaltz_format(
    blocks: u32,
    sectors: u32,
    logical: u32,
    image: &mut [u32],
    words: &mut u32,
    erasures: &mut u32,
) -> u32
    ensures value { result ≡ number_of (format_outcome (shape blocks sectors logical) image.old).answer }
    ensures image_after { image.new ≡ formatted (shape blocks sectors logical) image.old }
    ensures words_after { words.new ≡ (format_outcome (shape blocks sectors logical) image.old).words }
    ensures erasures_after { erasures.new ≡ (format_outcome (shape blocks sectors logical) image.old).erasures }
{
    let made = shellwaltz::format(image, geometry(blocks, sectors, logical));
    tell_counts(made, words, erasures, &mut 0, &mut 0)
}

// Whether the image is well formed, and if not, the first block and rule that fail. Refuses 1 and 4.
#[unsafe(no_mangle)]
pub extern "C" fn shellwaltz_check(
    blocks: u32,
    sectors: u32,
    logical: u32,
    image: &[u32],
    bad_block: &mut u32,
    bad_rule: &mut u32,
) -> u32
    ensures value { result ≡ number_of (check_answer (shape blocks sectors logical) image.now) }
    ensures bad_block_after { bad_block.new ≡ block_of (check_answer (shape blocks sectors logical) image.now) }
    ensures bad_rule_after { bad_rule.new ≡ rule_of (check_answer (shape blocks sectors logical) image.now) }
{
    let found = shellwaltz::check(image, geometry(blocks, sectors, logical));
    tell(found, bad_block, bad_rule)
}

// Mapped, free and dead slots and the sum of the erase counts. Refuses 1 and 4, with four zeros.
#[unsafe(no_mangle)]
pub extern "C" fn shellwaltz_report(
    blocks: u32,
    sectors: u32,
    logical: u32,
    image: &[u32],
    mapped: &mut u32,
    free: &mut u32,
    dead: &mut u32,
    erase_sum: &mut u32,
    bad_block: &mut u32,
    bad_rule: &mut u32,
) -> u32
    ensures value { result ≡ number_of (reported (shape blocks sectors logical) image.now).answer }
    ensures mapped_after { mapped.new ≡ (reported (shape blocks sectors logical) image.now).mapped }
    ensures free_after { free.new ≡ (reported (shape blocks sectors logical) image.now).free }
    ensures dead_after { dead.new ≡ (reported (shape blocks sectors logical) image.now).dead }
    ensures erase_sum_after { erase_sum.new ≡ (reported (shape blocks sectors logical) image.now).erase_sum }
    ensures bad_block_after { bad_block.new ≡ block_of (reported (shape blocks sectors logical) image.now).answer }
    ensures bad_rule_after { bad_rule.new ≡ rule_of (reported (shape blocks sectors logical) image.now).answer }
{
    let added = shellwaltz::report(image, geometry(blocks, sectors, logical));
    tell_totals(added, mapped, free, dead, erase_sum, bad_block, bad_rule)
}

// Copies the 128 words of a sector to the buffer. Refuses 1, 2, 3, 4 and 5.
#[unsafe(no_mangle)]
pub extern "C" fn shellwaltz_read(
    blocks: u32,
    sectors: u32,
    logical: u32,
    image: &[u32],
    number: u32,
    buffer: &mut [u32],
    bad_block: &mut u32,
    bad_rule: &mut u32,
) -> u32
    ensures value { result ≡ number_of (read_answer (shape blocks sectors logical) image.now number buffer.old) }
    ensures buffer_after { buffer.new ≡ read_buffer (shape blocks sectors logical) image.now number buffer.old }
    ensures bad_block_after { bad_block.new ≡ block_of (read_answer (shape blocks sectors logical) image.now number buffer.old) }
    ensures bad_rule_after { bad_rule.new ≡ rule_of (read_answer (shape blocks sectors logical) image.now number buffer.old) }
{
    let told = shellwaltz::read(image, geometry(blocks, sectors, logical), number, buffer);
    tell(told, bad_block, bad_rule)
}

// Writes the 128 words of the buffer as a sector. Refuses 1, 2, 3, 4 and 6.
#[unsafe(no_mangle)]
pub extern "C" fn shellwaltz_write(
    blocks: u32,
    sectors: u32,
    logical: u32,
    image: &mut [u32],
    number: u32,
    buffer: &[u32],
    words: &mut u32,
    erasures: &mut u32,
    bad_block: &mut u32,
    bad_rule: &mut u32,
) -> u32
    ensures value { result ≡ number_of (write_outcome (shape blocks sectors logical) image.old number buffer.now).answer }
    ensures image_after { image.new ≡ written (shape blocks sectors logical) image.old number buffer.now }
    ensures words_after { words.new ≡ (write_outcome (shape blocks sectors logical) image.old number buffer.now).words }
    ensures erasures_after { erasures.new ≡ (write_outcome (shape blocks sectors logical) image.old number buffer.now).erasures }
    ensures bad_block_after { bad_block.new ≡ block_of (write_outcome (shape blocks sectors logical) image.old number buffer.now).answer }
    ensures bad_rule_after { bad_rule.new ≡ rule_of (write_outcome (shape blocks sectors logical) image.old number buffer.now).answer }
{
    let wrote = shellwaltz::write(image, geometry(blocks, sectors, logical), number, buffer);
    tell_counts(wrote, words, erasures, bad_block, bad_rule)
}

// Releases a sector: its number is not mapped any more. Refuses 1, 3, 4 and 5.
#[unsafe(no_mangle)]
pub extern "C" fn shellwaltz_release(
    blocks: u32,
    sectors: u32,
    logical: u32,
    image: &mut [u32],
    number: u32,
    words: &mut u32,
    erasures: &mut u32,
    bad_block: &mut u32,
    bad_rule: &mut u32,
) -> u32
    ensures value { result ≡ number_of (release_outcome (shape blocks sectors logical) image.old number).answer }
    ensures image_after { image.new ≡ released (shape blocks sectors logical) image.old number }
    ensures words_after { words.new ≡ (release_outcome (shape blocks sectors logical) image.old number).words }
    ensures erasures_after { erasures.new ≡ (release_outcome (shape blocks sectors logical) image.old number).erasures }
    ensures bad_block_after { bad_block.new ≡ block_of (release_outcome (shape blocks sectors logical) image.old number).answer }
    ensures bad_rule_after { bad_rule.new ≡ rule_of (release_outcome (shape blocks sectors logical) image.old number).answer }
{
    let freed = shellwaltz::release(image, geometry(blocks, sectors, logical), number);
    tell_counts(freed, words, erasures, bad_block, bad_rule)
}

// Mends what a call that was cut short has left (K4). Refuses 1, 4, 10 and 6.
#[unsafe(no_mangle)]
pub extern "C" fn shellwaltz_repair(
    blocks: u32,
    sectors: u32,
    logical: u32,
    image: &mut [u32],
    words: &mut u32,
    erasures: &mut u32,
    bad_block: &mut u32,
    bad_rule: &mut u32,
) -> u32
    ensures value { result ≡ number_of (repair_outcome (shape blocks sectors logical) image.old).answer }
    ensures image_after { image.new ≡ repaired (shape blocks sectors logical) image.old }
    ensures words_after { words.new ≡ (repair_outcome (shape blocks sectors logical) image.old).words }
    ensures erasures_after { erasures.new ≡ (repair_outcome (shape blocks sectors logical) image.old).erasures }
    ensures bad_block_after { bad_block.new ≡ block_of (repair_outcome (shape blocks sectors logical) image.old).answer }
    ensures bad_rule_after { bad_rule.new ≡ rule_of (repair_outcome (shape blocks sectors logical) image.old).answer }
{
    let mended = shellwaltz::repair(image, geometry(blocks, sectors, logical));
    tell_counts(mended, words, erasures, bad_block, bad_rule)
}
