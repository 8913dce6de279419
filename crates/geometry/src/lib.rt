#![tactic(auto)]

// No function of std is called in what the public calls stand on (ranges/src/lib.rt says why): so `saturating_sub`, `div_ceil` and `contains` are
// written out here.
ghost use Rattle.std.specs.Prelude.{◌&&◌, ◌≡◌, ◌<◌, ◌-◌, leb};
ghost use Rattle.geometry.specs.Geometry.{d, k, g, block_length, image_length, within_limits, Limits};
ghost use Rattle.geometry.specs.Places.{place, erase_word, map_word, entry_word, content_word};

// The three numbers B, S and L (FORMAT.md, Geometry), by value. Any three may be handed in:
// each method is total, and what it gives is what specs/Geometry.antt says, within the limits or not.
#[derive(Clone, Copy, Debug, PartialEq, Eq)]
pub struct Geometry {
    pub blocks: u16,
    pub sectors: u16,
    pub logical: u32,
}

// Whether a number of blocks, or of sectors in a block, is within its limits.
fn is_side(n: u16) -> bool
    ensures { result ≡ (leb 2 n && leb n 64) }
{
    (2 <= n) & (n <= 64)
}

// All of so many but one; 0 of none.
fn all_but_one(n: u16) -> usize
    ensures { result ≡ n - 1 }
{
    if n == 0 {
        return 0;
    }
    n as usize - 1
}

impl Geometry {
    // The slots of a block.
    pub fn d(self) -> usize
        ensures { result ≡ d self }
    {
        all_but_one(self.sectors)
    }

    // The words of a block's free map.
    pub fn k(self) -> usize
        ensures { result ≡ k self }
    {
        (self.d() + 31) / 32
    }

    // The words of a block.
    pub fn block_length(self) -> usize
        ensures { result ≡ block_length self }
    {
        self.sectors as usize * 128
    }

    // The words of the image.
    pub fn length(self) -> usize
        ensures { result ≡ image_length self }
    {
        self.blocks as usize * self.block_length()
    }

    // What a reclaim is sure to gain.
    pub fn g(self) -> usize
        ensures { result ≡ g self }
    {
        let logical = self.logical as usize;
        let others = all_but_one(self.blocks);
        let room = others * self.d();
        if room <= logical {
            return 0;
        }
        (room - logical + (others - 1)) / others
    }

    // Whether the three numbers are within their limits. (One after the other, so that a call that
    // is refused for one looks at no more.)
    pub fn within_limits(self) -> bool
        ensures { result ≡ within_limits self }
    {
        let logical = self.logical as usize;
        if logical < 1 {
            return false;
        }
        if !is_side(self.blocks) {
            return false;
        }
        if !is_side(self.sectors) {
            return false;
        }
        logical < all_but_one(self.blocks) * self.d()
    }

    // Where block b starts. These four say where things lie, for a block of a geometry that is within its limits.
    pub fn start(self, b: usize) -> usize
        requires limits { Limits self }
        requires b_lt_blocks { b < self.blocks }
        ensures { result ≡ place self b erase_word }
    {
        b * self.block_length()
    }

    // Where the free map of block b starts.
    pub fn map_start(self, b: usize) -> usize
        requires limits { Limits self }
        requires b_lt_blocks { b < self.blocks }
        ensures { result ≡ place self b (map_word 0) }
    {
        self.start(b) + 3
    }

    // Where the entries of block b start.
    pub fn entries_start(self, b: usize) -> usize
        requires limits { Limits self }
        requires b_lt_blocks { b < self.blocks }
        ensures { result ≡ place self b (entry_word self 0) }
    {
        self.map_start(b) + self.k()
    }

    // Where the contents of slot i of block b start.
    pub fn contents_start(self, b: usize, i: usize) -> usize
        requires limits { Limits self }
        requires b_lt_blocks { b < self.blocks }
        requires i_bound { i < d self }
        ensures { result ≡ place self b (content_word self i 0) }
    {
        self.start(b) + 128 * (1 + i)
    }
}
