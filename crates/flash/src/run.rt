// The steps of a call, carried out: as many as are left of those that it may do (K4). With none left, nothing is done.
ghost use Rattle.image.specs.Words.{Shaped};

use super::steps::{erase_block, program_within};
use geometry::Geometry;
use image::view::View;

#[derive(Drop)]
pub struct Run<'a> {
    pub words: &'a mut [u32],
    pub geo: Geometry,
    pub left: u32,
    pub ghost shaped: { Shaped geo words.now },
}

impl<'a> Run<'a> {
    ghost use Rattle.std.specs.Prelude.{[], ◌∷◌, ◌≡◌, ◌<◌, length};
    ghost use Rattle.flash.specs.declared.Step.TheVariants.{Program, Erase};
    ghost use Rattle.flash.specs.Runs.{Does};

    // The image as it is now.
    pub fn view(&self) -> View<'_>
        ensures words { result.words.now ≡ self.now.words.now }
        ensures geo { result.geo ≡ self.now.geo }
    {
        View::over(self.words, self.geo)
    }

    // Programs one word.
    pub fn program(&mut self, place: usize, asked: u32)
        requires { place < length self.old.words.now }
        ensures { Does self.old self.new (Program place asked ∷ []) }
    {
        self.left = program_within(self.words, place, asked, self.left);
    }

    // Erases block b.
    pub fn erase(&mut self, b: usize)
        requires { b < self.old.geo.blocks }
        ensures { Does self.old self.new (Erase b ∷ []) }
    {
        if self.left > 0 {
            erase_block(self.words, self.geo, b);
            self.left -= 1;
        }
    }
}
