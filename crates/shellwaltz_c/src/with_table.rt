// The calls with a lookup table (K2) for C: the table is a pointer to words of 16 bits, and how many they are.
ghost use Rattle.std.specs.Prelude.{◌≡◌};
ghost use Rattle.geometry.specs.Geometry.{shape};
ghost use Rattle.answers.specs.Answers.{number_of, block_of, rule_of};
ghost use Rattle.tabled.specs.Refusals.{build_answer, read_answer_with};
ghost use Rattle.tabled.specs.Calls.{table_built, read_buffer_with, write_outcome_with, written_with, write_table, release_outcome_with, released_with, release_table};

use super::{geometry, tell, tell_counts};

// Builds the table afresh, whatever it holds. Refuses 1, 2 and 4.
#[unsafe(no_mangle)]
pub extern "C" fn shellwaltz_build_table(
    blocks: u32,
    sectors: u32,
    logical: u32,
    image: &[u32],
    table: &mut [u16],
    bad_block: &mut u32,
    bad_rule: &mut u32,
) -> u32
    ensures value { result ≡ number_of (build_answer (shape blocks sectors logical) image.now table.old) }
    ensures table_after { table.new ≡ table_built (shape blocks sectors logical) image.now table.old }
    ensures bad_block_after { bad_block.new ≡ block_of (build_answer (shape blocks sectors logical) image.now table.old) }
    ensures bad_rule_after { bad_rule.new ≡ rule_of (build_answer (shape blocks sectors logical) image.now table.old) }
{
    let built = tabled::build(image, geometry(blocks, sectors, logical), table);
    tell(built, bad_block, bad_rule)
}

// Copies the 128 words of a sector to the buffer. Refuses 1, 2, 3, 4 and 5.
#[unsafe(no_mangle)]
pub extern "C" fn shellwaltz_read_with_table(
    blocks: u32,
    sectors: u32,
    logical: u32,
    image: &[u32],
    number: u32,
    buffer: &mut [u32],
    table: &[u16],
    bad_block: &mut u32,
    bad_rule: &mut u32,
) -> u32
    ensures value { result ≡ number_of (read_answer_with (shape blocks sectors logical) image.now number buffer.old table.now) }
    ensures buffer_after { buffer.new ≡ read_buffer_with (shape blocks sectors logical) image.now number buffer.old table.now }
    ensures bad_block_after { bad_block.new ≡ block_of (read_answer_with (shape blocks sectors logical) image.now number buffer.old table.now) }
    ensures bad_rule_after { bad_rule.new ≡ rule_of (read_answer_with (shape blocks sectors logical) image.now number buffer.old table.now) }
{
    let geo = geometry(blocks, sectors, logical);
    let told = tabled::read(image, geo, number, buffer, table);
    tell(told, bad_block, bad_rule)
}

// Writes the 128 words of the buffer as a sector. Refuses 1, 2, 3, 4 and 6.
#[unsafe(no_mangle)]
pub extern "C" fn shellwaltz_write_with_table(
    blocks: u32,
    sectors: u32,
    logical: u32,
    image: &mut [u32],
    number: u32,
    buffer: &[u32],
    table: &mut [u16],
    words: &mut u32,
    erasures: &mut u32,
    bad_block: &mut u32,
    bad_rule: &mut u32,
) -> u32
    ensures value { result ≡ number_of (write_outcome_with (shape blocks sectors logical) image.old number buffer.now table.old).answer }
    ensures image_after { image.new ≡ written_with (shape blocks sectors logical) image.old number buffer.now table.old }
    ensures table_after { table.new ≡ write_table (shape blocks sectors logical) image.old number buffer.now table.old }
    ensures words_after { words.new ≡ (write_outcome_with (shape blocks sectors logical) image.old number buffer.now table.old).words }
    ensures erasures_after { erasures.new ≡ (write_outcome_with (shape blocks sectors logical) image.old number buffer.now table.old).erasures }
    ensures bad_block_after { bad_block.new ≡ block_of (write_outcome_with (shape blocks sectors logical) image.old number buffer.now table.old).answer }
    ensures bad_rule_after { bad_rule.new ≡ rule_of (write_outcome_with (shape blocks sectors logical) image.old number buffer.now table.old).answer }
{
    let geo = geometry(blocks, sectors, logical);
    let wrote = tabled::write(image, geo, number, buffer, table);
    tell_counts(wrote, words, erasures, bad_block, bad_rule)
}

// Releases a sector: its number is not mapped any more. Refuses 1, 2, 3, 4 and 5.
#[unsafe(no_mangle)]
pub extern "C" fn shellwaltz_release_with_table(
    blocks: u32,
    sectors: u32,
    logical: u32,
    image: &mut [u32],
    number: u32,
    table: &mut [u16],
    words: &mut u32,
    erasures: &mut u32,
    bad_block: &mut u32,
    bad_rule: &mut u32,
) -> u32
    ensures value { result ≡ number_of (release_outcome_with (shape blocks sectors logical) image.old number table.old).answer }
    ensures image_after { image.new ≡ released_with (shape blocks sectors logical) image.old number table.old }
    ensures table_after { table.new ≡ release_table (shape blocks sectors logical) image.old number table.old }
    ensures words_after { words.new ≡ (release_outcome_with (shape blocks sectors logical) image.old number table.old).words }
    ensures erasures_after { erasures.new ≡ (release_outcome_with (shape blocks sectors logical) image.old number table.old).erasures }
    ensures bad_block_after { bad_block.new ≡ block_of (release_outcome_with (shape blocks sectors logical) image.old number table.old).answer }
    ensures bad_rule_after { bad_rule.new ≡ rule_of (release_outcome_with (shape blocks sectors logical) image.old number table.old).answer }
{
    let freed = tabled::release(image, geometry(blocks, sectors, logical), number, table);
    tell_counts(freed, words, erasures, bad_block, bad_rule)
}
