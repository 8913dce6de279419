ghost use Rattle.std.specs.Prelude.{[], ◌∷◌, ◌≡◌, ◌-◌, ◌<◌, length, replicate};
ghost use Rattle.bits.specs.Word.{ones};
ghost use Rattle.image.specs.Words.{Shaped};
ghost use Rattle.geometry.specs.declared.Geometry.{Geometry};
ghost use Rattle.flash.specs.declared.Step.TheVariants.{Program};
ghost use Rattle.flash.specs.Steps.{programmed_at, run, first_of, erased_block};

use geometry::Geometry;

// Programs one word: bits of it are cleared where the asked word has them clear.
pub fn program(image: &mut [u32], place: usize, asked: u32)
    requires { place < length image.old }
    ensures { image.new ≡ programmed_at image.old place asked }
{
    image[place] = bits::program(image[place], asked);
}

// Programs one word as a step of those that are left: with none left, nothing is done. Returns how many are left then.
pub fn program_within(image: &mut [u32], place: usize, asked: u32, left: u32) -> u32
    requires { place < length image.old }
    ensures value { result ≡ left - 1 }
    ensures image_after { (geo : Geometry) → image.new ≡ run geo image.old (first_of left (Program place asked ∷ [])) }
{
    if left == 0 {
        return 0;
    }
    program(image, place, asked);
    left - 1
}

// Sets every word of a part to ones. (A loop, and not `fill`: no function of std is called in what the public calls stand on; ranges/src/lib.rt
// says why.)
pub fn erase(part: &mut [u32])
    ensures { part.new ≡ replicate (length part.old) ones }
{
    for i in 0..part.len() {
        part[i] = 0xFFFF_FFFF;
    }
}

// Erases block b: its part of the image is lent on to the eraser.
pub fn erase_block(image: &mut [u32], geo: Geometry, b: usize)
    requires shaped { Shaped geo image.old }
    requires b_lt_blocks { b < geo.blocks }
    ensures { image.new ≡ erased_block geo image.old b }
{
    let from = geo.start(b);
    let to = from + geo.block_length();
    erase(&mut image[from..to]);
}
