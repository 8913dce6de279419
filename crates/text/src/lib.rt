#![tactic(auto)]

// What the script program prints (docs/FORMAT.md, The script program), from the bytes of a record to those of its line, and the line of the totals.
// Each line goes to the start of a buffer that the caller lends.
ghost use Rattle.std.specs.Prelude.{◌≡◌, ◌+◌, ◌*◌, ◌≤◌, ◌<◌, length, set};
ghost use Rattle.std.proofs.lemmas.List.Edits.{sets};
ghost use Rattle.calls.specs.Outcomes.{totals_of_sums};
ghost use Rattle.records.specs.Records.{record_of};
ghost use Rattle.text.specs.Decimal.{digit, decimal};
ghost use Rattle.text.specs.Lines.{row, line_text, totals_text, put_first};
ghost use Rattle.text.specs.Replies.{reply_text, image_replied, logical_replied, last_text};

use answers::Refusal;
use calls::Totals;
use records::{Line, Record};

// (Digits and lines are put by hand at the start of a lent buffer, and their length is answered: there is no heap for a String; `write!` into a slice
// says neither which bytes it puts there nor that the rest stays.)

// The bytes of the longest line: a letter, five times a space and ten digits, a newline.
pub const LONGEST_LINE: usize = 57;

// Puts one digit into out at `at`. Answers where it ends.
fn put_digit(d: u32, out: &mut [u8], at: usize) -> usize
    requires { (d < 10) × (at < length out.old) }
    ensures value { result ≡ at + 1 }
    ensures out_after { out.new ≡ set out.old at (digit d) }
{
    out[at] = 48 + d as u8;
    at + 1
}

// Puts the digits of n into out from `at` on, by the recursion of their definition (specs/Decimal). Answers where they end.
fn put_decimal(n: u32, out: &mut [u8], at: usize) -> usize
    requires { at + length (decimal n) ≤ length out.old }
    ensures value { result ≡ at + length (decimal n) }
    ensures out_after { out.new ≡ sets out.old at (decimal n) }
{
    if n < 10 {
        return put_digit(n, out, at);
    }
    let last = put_decimal(n / 10, out, at);
    put_digit(n % 10, out, last)
}

// Puts a letter, the numbers, each after a space, and a newline at the start of out, which has room for ten digits of each. Answers how many bytes
// these are.
fn put_row(letter: u8, numbers: &[u32], out: &mut [u8]) -> usize
    requires { 11 * length numbers.now + 2 ≤ length out.old }
    ensures value { result ≡ length (row letter numbers.now) }
    ensures out_after { out.new ≡ put_first (row letter numbers.now) out.old }
{
    out[0] = letter;
    let mut at = 1;
    for &n in numbers {
        out[at] = b' ';
        at = put_decimal(n, out, at + 1);
    }
    out[at] = b'\n';
    at + 1
}

// The line of a record, at the start of a buffer. Answers how many bytes it has. (This and the next name what each row shows; a row is one function.)
fn line_text(line: Line, out: &mut [u8; LONGEST_LINE]) -> usize
    ensures value { result ≡ length (line_text line) }
    ensures out_after { out.new ≡ put_first (line_text line) out.old }
{
    let numbers = [
        line.number,
        line.answer,
        line.words,
        line.erasures,
        line.first,
    ];
    put_row(line.letter, &numbers, out)
}

// The line of the totals likewise: zeros where they are refused. (With `match`, and not with `unwrap_or_default`: no public call stands on a function
// of std, since `determined` proves of each (`runs`) that an environment has its code, and std's tables cannot be named.)
fn totals_text(added: Result<Totals, Refusal>, out: &mut [u8; LONGEST_LINE]) -> usize
    ensures value { result ≡ length (totals_text (totals_of_sums added)) }
    ensures out_after { out.new ≡ put_first (totals_text (totals_of_sums added)) out.old }
{
    let numbers = match added {
        Ok(totals) => [totals.mapped, totals.free, totals.dead, totals.erase_sum],
        Err(_) => [0; 4],
    };
    put_row(b'T', &numbers, out)
}

// What the first 12 of these bytes say.
fn first_record(bytes: &[u8]) -> Record
    requires { 12 ≤ length bytes.now }
    ensures { result ≡ record_of bytes.now }
{
    records::record_of(&[
        bytes[0], bytes[1], bytes[2], bytes[3], bytes[4], bytes[5], bytes[6], bytes[7], bytes[8],
        bytes[9], bytes[10], bytes[11],
    ])
}

// Replies to what was read for the next record, the first 12 of these bytes or what came of them: carries the record out on the image with the
// script's L, and puts its line at the start of a buffer. Fewer bytes than 12 are a record that is cut short, and none are the input's end, which has
// no line. Answers how many bytes the line has.
#[tactic(auto, unfolding(crate::specs::Replies::reply_text, crate::specs::Replies::image_replied, crate::specs::Replies::logical_replied))]
pub fn reply(
    image: &mut [u32],
    logical: &mut u32,
    bytes: &[u8],
    out: &mut [u8; LONGEST_LINE],
) -> usize
    ensures value { result ≡ length (reply_text image.old logical.old bytes.now (length bytes.now)) }
    ensures image_after { image.new ≡ image_replied image.old logical.old bytes.now (length bytes.now) }
    ensures logical_after { logical.new ≡ logical_replied image.old logical.old bytes.now (length bytes.now) }
    ensures out_after { out.new ≡ put_first (reply_text image.old logical.old bytes.now (length bytes.now)) out.old }
{
    match bytes.len() {
        0 => 0,
        1..12 => line_text(records::short(), out),
        _ => line_text(records::carry_out(image, logical, first_record(bytes)), out),
    }
}

// The last line, of the image and the L that the script ends with, likewise.
pub fn last(image: &[u32], logical: u32, out: &mut [u8; LONGEST_LINE]) -> usize
    ensures value { result ≡ length (last_text image.now logical) }
    ensures out_after { out.new ≡ put_first (last_text image.now logical) out.old }
{
    totals_text(records::end(image, logical), out)
}
