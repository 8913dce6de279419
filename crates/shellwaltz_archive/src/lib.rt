#![tactic(auto)]

// What the archive for C exports: each function of `shellwaltz_c`, under its name and with its contract, as a call of that. A crate is a library or a
// static library, and `shellwaltz_c` is the library: theorems and other crates name its contracts. tools/build-archive makes the archive of this one.
// (So each export stands in both crates, with one parameter list and contract: tests/every-contract compares them.)
ghost use Rattle.std.specs.Prelude.{◌≡◌};
ghost use Rattle.geometry.specs.Geometry.{shape};
ghost use Rattle.answers.specs.Answers.{number_of, block_of, rule_of};
ghost use Rattle.calls.specs.Refusals.{check_answer, read_answer};
ghost use Rattle.calls.specs.Calls.{formatted, format_outcome, reported, read_buffer, write_outcome, written, release_outcome, released, repair_outcome, repaired};

pub mod by_steps;
pub mod with_table;

// Makes a fresh image. Refuses 1.
#[unsafe(no_mangle)]
pub extern "C" fn shellwaltz_format(
    blocks: u32,
    sectors: u32,
    logical: u32,
    image: &mut [u32],
    words: &mut u32,
    erasures: &mut u32,
) -> u32
    ensures value { result ≡ number_of (format_outcome (shape blocks sectors logical) image.old).answer }
    ensures image_after { image.new ≡ formatted (shape blocks sectors logical) image.old }
    ensures words_after { words.new ≡ (format_outcome (shape blocks sectors logical) image.old).words }
    ensures erasures_after { erasures.new ≡ (format_outcome (shape blocks sectors logical) image.old).erasures }
{
    shellwaltz_c::shellwaltz_format(blocks, sectors, logical, image, words, erasures)
}

// Whether the image is well formed, and if not, the first block and rule that fail. Refuses 1 and 4.
#[unsafe(no_mangle)]
pub extern "C" fn shellwaltz_check(
    blocks: u32,
    sectors: u32,
    logical: u32,
    image: &[u32],
    bad_block: &mut u32,
    bad_rule: &mut u32,
) -> u32
    ensures value { result ≡ number_of (check_answer (shape blocks sectors logical) image.now) }
    ensures bad_block_after { bad_block.new ≡ block_of (check_answer (shape blocks sectors logical) image.now) }
    ensures bad_rule_after { bad_rule.new ≡ rule_of (check_answer (shape blocks sectors logical) image.now) }
{
    shellwaltz_c::shellwaltz_check(blocks, sectors, logical, image, bad_block, bad_rule)
}

// Mapped, free and dead slots and the sum of the erase counts. Refuses 1 and 4, with four zeros.
#[unsafe(no_mangle)]
pub extern "C" fn shellwaltz_report(
    blocks: u32,
    sectors: u32,
    logical: u32,
    image: &[u32],
    mapped: &mut u32,
    free: &mut u32,
    dead: &mut u32,
    erase_sum: &mut u32,
    bad_block: &mut u32,
    bad_rule: &mut u32,
) -> u32
    ensures value { result ≡ number_of (reported (shape blocks sectors logical) image.now).answer }
    ensures mapped_after { mapped.new ≡ (reported (shape blocks sectors logical) image.now).mapped }
    ensures free_after { free.new ≡ (reported (shape blocks sectors logical) image.now).free }
    ensures dead_after { dead.new ≡ (reported (shape blocks sectors logical) image.now).dead }
    ensures erase_sum_after { erase_sum.new ≡ (reported (shape blocks sectors logical) image.now).erase_sum }
    ensures bad_block_after { bad_block.new ≡ block_of (reported (shape blocks sectors logical) image.now).answer }
    ensures bad_rule_after { bad_rule.new ≡ rule_of (reported (shape blocks sectors logical) image.now).answer }
{
    shellwaltz_c::shellwaltz_report(
        blocks, sectors, logical, image, mapped, free, dead, erase_sum, bad_block, bad_rule,
    )
}

// Copies the 128 words of a sector to the buffer. Refuses 1, 2, 3, 4 and 5.
#[unsafe(no_mangle)]
pub extern "C" fn shellwaltz_read(
    blocks: u32,
    sectors: u32,
    logical: u32,
    image: &[u32],
    number: u32,
    buffer: &mut [u32],
    bad_block: &mut u32,
    bad_rule: &mut u32,
) -> u32
    ensures value { result ≡ number_of (read_answer (shape blocks sectors logical) image.now number buffer.old) }
    ensures buffer_after { buffer.new ≡ read_buffer (shape blocks sectors logical) image.now number buffer.old }
    ensures bad_block_after { bad_block.new ≡ block_of (read_answer (shape blocks sectors logical) image.now number buffer.old) }
    ensures bad_rule_after { bad_rule.new ≡ rule_of (read_answer (shape blocks sectors logical) image.now number buffer.old) }
{
    shellwaltz_c::shellwaltz_read(
        blocks, sectors, logical, image, number, buffer, bad_block, bad_rule,
    )
}

// Writes the 128 words of the buffer as a sector. Refuses 1, 2, 3, 4 and 6.
#[unsafe(no_mangle)]
pub extern "C" fn shellwaltz_write(
    blocks: u32,
    sectors: u32,
    logical: u32,
    image: &mut [u32],
    number: u32,
    buffer: &[u32],
    words: &mut u32,
    erasures: &mut u32,
    bad_block: &mut u32,
    bad_rule: &mut u32,
) -> u32
    ensures value { result ≡ number_of (write_outcome (shape blocks sectors logical) image.old number buffer.now).answer }
    ensures image_after { image.new ≡ written (shape blocks sectors logical) image.old number buffer.now }
    ensures words_after { words.new ≡ (write_outcome (shape blocks sectors logical) image.old number buffer.now).words }
    ensures erasures_after { erasures.new ≡ (write_outcome (shape blocks sectors logical) image.old number buffer.now).erasures }
    ensures bad_block_after { bad_block.new ≡ block_of (write_outcome (shape blocks sectors logical) image.old number buffer.now).answer }
    ensures bad_rule_after { bad_rule.new ≡ rule_of (write_outcome (shape blocks sectors logical) image.old number buffer.now).answer }
{
    shellwaltz_c::shellwaltz_write(
        blocks, sectors, logical, image, number, buffer, words, erasures, bad_block, bad_rule,
    )
}

// Releases a sector: its number is not mapped any more. Refuses 1, 3, 4 and 5.
#[unsafe(no_mangle)]
pub extern "C" fn shellwaltz_release(
    blocks: u32,
    sectors: u32,
    logical: u32,
    image: &mut [u32],
    number: u32,
    words: &mut u32,
    erasures: &mut u32,
    bad_block: &mut u32,
    bad_rule: &mut u32,
) -> u32
    ensures value { result ≡ number_of (release_outcome (shape blocks sectors logical) image.old number).answer }
    ensures image_after { image.new ≡ released (shape blocks sectors logical) image.old number }
    ensures words_after { words.new ≡ (release_outcome (shape blocks sectors logical) image.old number).words }
    ensures erasures_after { erasures.new ≡ (release_outcome (shape blocks sectors logical) image.old number).erasures }
    ensures bad_block_after { bad_block.new ≡ block_of (release_outcome (shape blocks sectors logical) image.old number).answer }
    ensures bad_rule_after { bad_rule.new ≡ rule_of (release_outcome (shape blocks sectors logical) image.old number).answer }
{
    shellwaltz_c::shellwaltz_release(
        blocks, sectors, logical, image, number, words, erasures, bad_block, bad_rule,
    )
}

// Mends what a call that was cut short has left (K4). Refuses 1, 4, 10 and 6.
#[unsafe(no_mangle)]
pub extern "C" fn shellwaltz_repair(
    blocks: u32,
    sectors: u32,
    logical: u32,
    image: &mut [u32],
    words: &mut u32,
    erasures: &mut u32,
    bad_block: &mut u32,
    bad_rule: &mut u32,
) -> u32
    ensures value { result ≡ number_of (repair_outcome (shape blocks sectors logical) image.old).answer }
    ensures image_after { image.new ≡ repaired (shape blocks sectors logical) image.old }
    ensures words_after { words.new ≡ (repair_outcome (shape blocks sectors logical) image.old).words }
    ensures erasures_after { erasures.new ≡ (repair_outcome (shape blocks sectors logical) image.old).erasures }
    ensures bad_block_after { bad_block.new ≡ block_of (repair_outcome (shape blocks sectors logical) image.old).answer }
    ensures bad_rule_after { bad_rule.new ≡ rule_of (repair_outcome (shape blocks sectors logical) image.old).answer }
{
    shellwaltz_c::shellwaltz_repair(
        blocks, sectors, logical, image, words, erasures, bad_block, bad_rule,
    )
}
