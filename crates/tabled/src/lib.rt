#![tactic(auto)]

// K2: the calls with a lookup table, which the caller lends. Each is the call without one (shellwaltz), and whatever the table holds, what is
// answered, reported and left of image and buffer is what that call gives; a table of another length is refused, and a refused call leaves it alone.
// (README lists these calls and those without a table, so both stay; the one function behind each pair is in `calls`.)
ghost use Rattle.std.specs.Prelude.{◌≡◌};
ghost use Rattle.calls.specs.Refusals.{first_that_applies};
ghost use Rattle.calls.specs.Outcomes.{counts_of};
ghost use Rattle.tabled.specs.Refusals.{table_rows, build_answer, read_answer_with};
ghost use Rattle.tabled.specs.Calls.{table_built, read_buffer_with, write_outcome_with, written_with, write_table, release_outcome_with, released_with, release_table};

use answers::{Answer, Refusal};
use calls::Counts;
use geometry::Geometry;
use image::view::View;

// Rows 1 and 2, for the length of a table.
fn check_table(image: &[u32], geo: Geometry, table: &[u16]) -> Answer
    ensures { result ≡ first_that_applies (table_rows geo image.now table.now) }
{
    if !image::slots::fits(image, geo) {
        return Err(Refusal::BadGeometry);
    }
    if table.len() != geo.logical as usize {
        return Err(Refusal::BadBuffer);
    }
    Ok(())
}

// Builds the table afresh, whatever it holds. Refuses 1, 2 and 4. (With `if let`, here and below, and not with `?`: no public call stands on a
// function of std, since `determined` proves of each (`runs`) that an environment has its code, and std's tables cannot be named.)
pub fn build(image: &[u32], geo: Geometry, table: &mut [u16]) -> Answer
    ensures value { result ≡ build_answer geo image.now table.old }
    ensures table_after { table.new ≡ table_built geo image.now table.old }
{
    if let Err(why) = check_table(image, geo, table) {
        return Err(why);
    }
    if let Err(why) = shellwaltz::check(image, geo) {
        return Err(why);
    }
    tables::build(&View { words: image, geo }, table);
    Ok(())
}

// Reads with a table. Refuses 1, 2, 3, 4 and 5.
pub fn read(image: &[u32], geo: Geometry, n: u32, buffer: &mut [u32], table: &[u16]) -> Answer
    ensures value { result ≡ read_answer_with geo image.now n buffer.old table.now }
    ensures buffer_after { buffer.new ≡ read_buffer_with geo image.now n buffer.old table.now }
{
    if let Err(why) = check_table(image, geo, table) {
        return Err(why);
    }
    calls::read_by(image, geo, n, buffer, table)
}

// Writes with a table. Refuses 1, 2, 3, 4 and 6.
pub fn write(
    image: &mut [u32],
    geo: Geometry,
    n: u32,
    buffer: &[u32],
    table: &mut [u16],
) -> Result<Counts, Refusal>
    ensures value { result ≡ counts_of (write_outcome_with geo image.old n buffer.now table.old) }
    ensures image_after { image.new ≡ written_with geo image.old n buffer.now table.old }
    ensures table_after { table.new ≡ write_table geo image.old n buffer.now table.old }
{
    if let Err(why) = check_table(image, geo, table) {
        return Err(why);
    }
    calls::write_by(image, geo, n, buffer, table)
}

// Releases with a table. Refuses 1, 2, 3, 4 and 5.
pub fn release(
    image: &mut [u32],
    geo: Geometry,
    n: u32,
    table: &mut [u16],
) -> Result<Counts, Refusal>
    ensures value { result ≡ counts_of (release_outcome_with geo image.old n table.old) }
    ensures image_after { image.new ≡ released_with geo image.old n table.old }
    ensures table_after { table.new ≡ release_table geo image.old n table.old }
{
    if let Err(why) = check_table(image, geo, table) {
        return Err(why);
    }
    calls::release_by(image, geo, n, table)
}
