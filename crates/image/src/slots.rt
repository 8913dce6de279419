ghost use Rattle.std.specs.Prelude.{◌&&◌, ◌≡◌, eqb, length};
ghost use Rattle.geometry.specs.Geometry.{image_length, within_limits};
ghost use Rattle.image.specs.Words.{Words32};
ghost use Rattle.image.specs.Slots.{slot_of};

use super::{Entry, Slot};
use geometry::Geometry;

// What an entry says by itself, with so many logical sectors and its map bit.
pub fn slot_of(logical: u32, set: bool, entry: u32) -> Slot
    ensures { result ≡ slot_of logical set entry }
{
    let entry = Entry(entry);
    let number = entry.number();
    if entry.has_number() {
        if number < logical {
            return Slot::Live(number);
        }
        if entry.is_complete() {
            return Slot::Faulty;
        }
        return Slot::Dead;
    }
    if entry.is_free() {
        if set {
            return Slot::Free;
        }
    }
    Slot::Dead
}

// How many words a slice has.
fn length(words: &[u32]) -> usize
    ensures { result ≡ length words.now }
{
    words.len()
}

// How many words a slice has; and each is one of 32 bits, whatever is lent. So `Words32`, which statements about lists ask of an image or a
// buffer, asks nothing of a caller. (The language tells what it knows of a slice where one is passed on: hence the call.)
pub fn words_in(words: &[u32]) -> usize
    ensures value { result ≡ length words.now }
    ensures words32 { Words32 words.now }
{
    length(words)
}

// Whether the geometry is within its limits and the image has its length: row 1 of the refusals, turned round.
pub fn fits(image: &[u32], geo: Geometry) -> bool
    ensures { result ≡ (within_limits geo && eqb (length image.now) (image_length geo)) }
{
    if !geo.within_limits() {
        return false;
    }
    words_in(image) == geo.length()
}
