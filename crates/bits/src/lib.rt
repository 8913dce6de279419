#![tactic(auto)]

ghost use Rattle.std.specs.Prelude.{◌≡◌, min, max};
ghost use Rattle.bits.specs.Word.{is_set, cleared, programmed, lowest_set, set_bits};

// Whether bit j of w is set. A word has no bit from 32 on.
pub fn is_set(w: u32, j: u32) -> bool
    ensures { result ≡ is_set w j }
{
    if 32 <= j {
        return false;
    }
    (w >> j) % 2 == 1
}

// w with bit j cleared.
pub fn clear_bit(w: u32, j: u32) -> u32
    ensures { result ≡ cleared w j }
{
    if 32 <= j {
        return w;
    }
    w & (0xFFFF_FFFF - (1u32 << j))
}

// What programming leaves: the bits that the old word and the asked one both have set.
pub fn program(old: u32, asked: u32) -> u32
    ensures { result ≡ programmed old asked }
{
    old & asked
}

// The place of the lowest set bit of w, or 32.
pub fn lowest_set(w: u32) -> u32
    ensures { result ≡ lowest_set w }
{
    u32::trailing_zeros(w)
}

// How many bits of w are set.
pub fn count_set(w: u32) -> u32
    ensures { result ≡ set_bits w }
{
    u32::count_ones(w)
}

// The lesser of two words. (This and the next one are not the methods of std: but for `trailing_zeros` and `count_ones`, which the compiler has itself,
// no function of std is called in what the public calls stand on, since `determined` proves of each of them, `runs`, that an environment has its code, and
// the tables of std cannot be named.)
pub fn lesser(a: u32, b: u32) -> u32
    ensures { result ≡ min a b }
{
    if a < b { a } else { b }
}

// The greater of two words.
pub fn greater(a: u32, b: u32) -> u32
    ensures { result ≡ max a b }
{
    if a < b { b } else { a }
}
