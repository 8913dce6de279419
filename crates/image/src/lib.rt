#![tactic(auto)]

// What an image says: its slots and blocks, where a number is live, and whether the image is well formed.
// Nothing here changes a word.
// No function of std is called in what the public calls stand on (ranges/src/lib.rt says why).
pub mod kinds;
pub mod slots;
pub mod view;

ghost use Rattle.std.specs.Prelude.{◌||◌, ◌≡◌, ◌+◌, ◌^◌, ◌<◌, eqb};
ghost use Rattle.bits.specs.Word.{cleared};
ghost use Rattle.image.specs.Slots.{current_bit, number_in, is_free_entry, is_complete, is_passing};

// What a slot is. Superseded (K4) it is by the other entries of the image: its own never say so.
#[derive(Clone, Copy, Debug, PartialEq, Eq)]
pub enum Slot {
    Free,
    Live(u32),
    Dead,
    Faulty,
    Superseded,
}

// A slot: its block, and its place there.
pub type Location = (usize, usize);

// How many slots of a block are free, live and dead.
#[derive(Clone, Copy, Debug, PartialEq, Eq)]
pub struct Tally {
    pub free: u32,
    pub live: u32,
    pub dead: u32,
}

// What the check names (K1): a block and the rule that fails there, by its number. (Where nothing fails it names none; the definition
// `first_fault` has two zeros then.)
#[derive(Clone, Copy, Debug, PartialEq, Eq)]
pub struct Fault {
    pub block: u32,
    pub rule: u32,
}

// The word of an entry (FORMAT.md, Entries). Its upper three bits are 31 valid, 30 current and 29 unfinished, and below them is its number.
#[derive(Clone, Copy, Debug, PartialEq, Eq)]
pub struct Entry(pub u32);

impl Entry {
    // An entry that is begun for n, and not finished (step d).
    pub fn begun(n: u32) -> Entry
        requires { n < 2 ^ 29 }
        ensures { result.0 ≡ 0xE000_0000 + n }
    {
        Entry(0xE000_0000 + n)
    }

    // The complete entry for n (step e).
    pub fn complete(n: u32) -> Entry
        requires { n < 2 ^ 29 }
        ensures { result.0 ≡ 0xC000_0000 + n }
    {
        Entry(0xC000_0000 + n)
    }

    // All ones: no entry was begun here.
    pub fn is_free(self) -> bool
        ensures { result ≡ is_free_entry self.0 }
    {
        self.0 == 0xFFFF_FFFF
    }

    // Bits 31 and 30 are set, and 29 is clear.
    pub fn is_complete(self) -> bool
        ensures { result ≡ is_complete self.0 }
    {
        self.0 / 0x2000_0000 == 6
    }

    // Bit 31 alone is set: the sector was written anew, and this is its outdated entry (K4).
    pub fn is_passing(self) -> bool
        ensures { result ≡ is_passing self.0 }
    {
        self.0 / 0x2000_0000 == 4
    }

    // Either of the two: so it has a number. (In one test of the upper bits: a check makes it for every slot.)
    pub fn has_number(self) -> bool
        ensures { result ≡ (is_complete self.0 || is_passing self.0) }
    {
        let upper = self.0 / 0x2000_0000;
        (upper == 6) | (upper == 4)
    }

    // The bits below the upper three.
    pub fn number(self) -> u32
        ensures { result ≡ number_in self.0 }
    {
        self.0 % 0x2000_0000
    }

    // Whether it is complete or in passing, with the number n: with bit 30 cleared it is the same word.
    pub fn is_live_for(self, n: u32) -> bool
        requires { n < 2 ^ 29 }
        ensures { result ≡ eqb (cleared self.0 current_bit) (0x8000_0000 + n) }
    {
        bits::clear_bit(self.0, 30) == 0x8000_0000 + n
    }
}
