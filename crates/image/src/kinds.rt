// A block by the kinds of its slots, whatever they are taken from: the slots' own entries alone, or the other entries of the image too.
ghost use Rattle.std.specs.Prelude.{◌≡◌, ℕ, Bool, ◌<◌, not, IfSome};
ghost use Rattle.ranges.specs.Range.{count_below};
ghost use Rattle.geometry.specs.Geometry.{d};
ghost use Rattle.image.specs.declared.Slot.{Slot};
ghost use Rattle.image.specs.declared.view.Block.{Block};
ghost use Rattle.image.specs.Live.{live_number};
ghost use Rattle.image.specs.Slots.{slot_of, own_slot, is_live, is_live_with};
ghost use Rattle.image.specs.WellFormed.{outside, none_with};
ghost use Rattle.image.specs.Views.{of_image};

use super::slots::slot_of;
use super::view::Block;
use super::{Entry, Slot};

// A block whose slots have kinds.
pub trait Kinds {
    ghost block_of: { Self → Block };

    ghost kind: { Self → ℕ → ℕ → Slot };

    fn block(&self) -> Block<'_>
        ensures { result ≡ block_of self.now };

    // The number that slot i is live for, if it is live: one of the image's.
    fn live_at(&self, i: usize) -> Option<u32>
        requires { i < d (block_of self.now).image.geo }
        ensures value { result ≡ live_number (kind self.now (block_of self.now).index i) }
        ensures in_range { IfSome result (λ n. n < (block_of self.now).image.geo.logical) };

    // Whether the live numbers lie between two words.
    fn live_between(&self, least: u32, greatest: u32) -> bool
        ensures { result ≡ none_with (block_of self.now).image.geo (kind self.now) (outside least greatest) (block_of self.now).index };
}

// Whether the number of an entry, if it is live, lies between two words: its map bit does not matter. There is no branch here and no way out
// of the loop that calls it, so that the compiler takes several entries at a time.
fn bounded(logical: u32, entry: u32, least: u32, greatest: u32) -> bool
    ensures { (set : Bool) → result ≡ not (is_live_with (outside least greatest) (slot_of logical set entry)) }
{
    let entry = Entry(entry);
    let n = entry.number();
    !entry.has_number() | (logical <= n) | (least <= n) & (n <= greatest)
}

// By the slots' own kinds. Whether an entry is live, its map bit does not say.
impl<'a> Kinds for Block<'a> {
    ghost block_of = { λ block. block };

    ghost kind = { λ block. of_image own_slot block.image };

    fn block(&self) -> Block<'_> {
        *self
    }

    fn live_at(&self, i: usize) -> Option<u32> {
        match slot_of(self.image.geo.logical, false, self.entries()[i]) {
            Slot::Live(n) => Some(n),
            _ => None,
        }
    }

    fn live_between(&self, least: u32, greatest: u32) -> bool {
        let logical = self.image.geo.logical;
        let mut inside = true;
        for &entry in self.entries() {
            inside &= bounded(logical, entry, least, greatest);
        }
        inside
    }
}

// How many slots are live. The count is of 32 bits, so that the compiler counts four slots at a time where their kinds are their own
// (docs/BENCHMARKS.md).
pub fn count_live<K: Kinds>(kinds: &K) -> u32
    ensures { result ≡ count_below (d (K.block_of kinds.now).image.geo) (λ i. is_live (K.kind kinds.now (K.block_of kinds.now).index i)) }
{
    ranges::count(
        kinds.block().image.geo.d(),
        |i| matches!(kinds.live_at(i), Some(_)),
    )
}
