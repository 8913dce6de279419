#![tactic(auto)]

// A script's records (docs/FORMAT.md, The script program): what the bytes of one say, and what it does to the script's image and to its L, the number
// of logical sectors. The crate `text` goes from the bytes that are read to those that are printed.
// (An image and its L stay two parameters: the contracts of `end` and `carry_out`, and of text's `reply` and `last`, have an equation for each of the two.)
ghost use Rattle.std.specs.Prelude.{◌≡◌, ◌+◌, ◌≤◌};
ghost use Rattle.geometry.specs.Geometry.{filled};
ghost use Rattle.calls.specs.Calls.{formatted, written, released};
ghost use Rattle.calls.specs.Outcomes.{outcome_of, sums_of};
ghost use Rattle.records.specs.Records.{script_geometry, default_logical, started_image, end_totals, number_at, operation_of, record_of, outcome_line, write_line, read_line, release_line, format_line, other_line, short_line, line_of, image_after, logical_formatted, logical_after};

use answers::Refusal;
use calls::{Counts, Totals};
use geometry::Geometry;

// The three numbers of a record.
#[derive(Clone, Copy, Debug, PartialEq, Eq)]
pub struct Record {
    pub operation: u32,
    pub number: u32,
    pub fill: u32,
}

// What a record can ask for.
#[derive(Clone, Copy, Debug, PartialEq, Eq)]
enum Operation {
    Write,
    Read,
    Release,
    Format,
}

// The answers that a line shows beside those of the calls: to another operation, and to a last record that is cut short. (Nothing asks which of the
// two it is: an enum would be made a number, as `other_line` of specs/Records takes it, at once.)
const ANOTHER_OPERATION: u32 = 7;

const CUT_SHORT: u32 = 8;

// What a line says. The letter is in ASCII. (The answer is its number, as `line_of` of specs/Records has it: 7 and 8 are no refusals of a call.)
#[derive(Clone, Copy, Debug, PartialEq, Eq)]
pub struct Line {
    pub letter: u8,
    pub number: u32,
    pub answer: u32,
    pub words: u32,
    pub erasures: u32,
    pub first: u32,
}

// The geometry of a script whose L is `logical`.
fn script_geometry(logical: u32) -> Geometry
    ensures { result ≡ script_geometry logical }
{
    Geometry {
        blocks: 8,
        sectors: 16,
        logical,
    }
}

// Makes the image that a script starts from, and gives the L that it starts with (K3). An image of another length stays as it is.
pub fn start(image: &mut [u32]) -> u32
    ensures value { result ≡ default_logical }
    ensures image_after { image.new ≡ started_image image.old }
{
    let logical = 70;
    let _ = shellwaltz::format(image, script_geometry(logical));
    logical
}

// The totals of the image that a script ends with.
pub fn end(image: &[u32], logical: u32) -> Result<Totals, Refusal>
    ensures { result ≡ sums_of (end_totals image.now logical) }
{
    shellwaltz::report(image, script_geometry(logical))
}

// The operation of a number, or the number where it is none of the four.
impl TryFrom<u32> for Operation {
    type Error = u32;

    ghost try_from_gives = { λ n r. r ≡ operation_of n };

    fn try_from(operation: u32) -> Result<Operation, u32> {
        match operation {
            1 => Ok(Operation::Write),
            2 => Ok(Operation::Read),
            3 => Ok(Operation::Release),
            4 => Ok(Operation::Format),
            other => Err(other),
        }
    }
}

// The number of the four bytes from `at` on, the least significant first. (Not with `from_le_bytes`: no public call stands on a function of std,
// since `determined` proves of each (`runs`) that an environment has its code, and std's tables cannot be named.)
fn number_at(bytes: &[u8; 12], at: usize) -> u32
    requires { at + 4 ≤ 12 }
    ensures { result ≡ number_at bytes.now at }
{
    let [a, b, c, d] = [bytes[at], bytes[at + 1], bytes[at + 2], bytes[at + 3]];
    a as u32 + b as u32 * 0x100 + c as u32 * 0x1_0000 + d as u32 * 0x100_0000
}

// What the bytes of a record say.
pub fn record_of(bytes: &[u8; 12]) -> Record
    ensures { result ≡ record_of bytes.now }
{
    Record {
        operation: number_at(bytes, 0),
        number: number_at(bytes, 4),
        fill: number_at(bytes, 8),
    }
}

// The line of a record that is none of the four operations.
fn other(number: u32, answer: u32) -> Line
    ensures { result ≡ other_line number answer }
{
    Line {
        letter: b'X',
        number,
        answer,
        words: 0,
        erasures: 0,
        first: 0,
    }
}

// The line of a last record that is cut short.
pub fn short() -> Line
    ensures { result ≡ short_line }
{
    other(0, CUT_SHORT)
}

// The line of a write, a release or a format: one that is refused shows zeros.
fn outcome_line(letter: u8, number: u32, done: Result<Counts, Refusal>) -> Line
    ensures { result ≡ outcome_line letter number (outcome_of done) }
{
    let (answer, words, erasures) = match done {
        Ok(counts) => (Ok(()), counts.words, counts.erasures),
        Err(why) => (Err(why), 0, 0),
    };
    Line {
        letter,
        number,
        answer: answers::number(answer),
        words,
        erasures,
        first: 0,
    }
}

fn write(image: &mut [u32], logical: u32, number: u32, fill: u32) -> Line
    ensures value { result ≡ write_line image.old logical number fill }
    ensures image_after { image.new ≡ written (script_geometry logical) image.old number (filled fill) }
{
    let buffer = [fill; 128];
    let done = shellwaltz::write(image, script_geometry(logical), number, &buffer);
    outcome_line(b'W', number, done)
}

fn read(image: &[u32], logical: u32, number: u32) -> Line
    ensures { result ≡ read_line image.now logical number }
{
    let mut buffer = [0u32; 128];
    let answer = shellwaltz::read(image, script_geometry(logical), number, &mut buffer);
    Line {
        letter: b'R',
        number,
        answer: answers::number(answer),
        words: 0,
        erasures: 0,
        first: buffer[0],
    }
}

fn release(image: &mut [u32], logical: u32, number: u32) -> Line
    ensures value { result ≡ release_line image.old logical number }
    ensures image_after { image.new ≡ released (script_geometry logical) image.old number }
{
    let done = shellwaltz::release(image, script_geometry(logical), number);
    outcome_line(b'D', number, done)
}

// Operation 4: a format whose L is `number` (K3).
fn format(image: &mut [u32], logical: &mut u32, number: u32) -> Line
    ensures value { result ≡ format_line image.old number }
    ensures image_after { image.new ≡ formatted (script_geometry number) image.old }
    ensures logical_after { logical.new ≡ logical_formatted image.old logical.old number }
{
    let done = shellwaltz::format(image, script_geometry(number));
    if let Ok(_) = done {
        *logical = number;
    }
    outcome_line(b'L', number, done)
}

// Carries a record out on the image with the script's L, and gives its line.
pub fn carry_out(image: &mut [u32], logical: &mut u32, r: Record) -> Line
    ensures value { result ≡ line_of image.old logical.old r }
    ensures image_after { image.new ≡ image_after image.old logical.old r }
    ensures logical_after { logical.new ≡ logical_after image.old logical.old r }
{
    match Operation::try_from(r.operation) {
        Ok(Operation::Write) => write(image, *logical, r.number, r.fill),
        Ok(Operation::Read) => read(image, *logical, r.number),
        Ok(Operation::Release) => release(image, *logical, r.number),
        Ok(Operation::Format) => format(image, logical, r.number),
        Err(_) => other(r.number, ANOTHER_OPERATION),
    }
}
