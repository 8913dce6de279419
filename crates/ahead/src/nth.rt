ghost use Rattle.std.specs.Prelude.{◌≡◌};
ghost use Rattle.ranges.specs.Range.{first_below, index_below, nth_passing};
ghost use Rattle.geometry.specs.Geometry.{d};
ghost use Rattle.image.specs.Slots.{is_live};

use image::kinds::Kinds;

// The live slot of a block that has r live ones before it, if there is one.
pub fn nth_live<K: Kinds>(kinds: &K, r: usize) -> Option<usize>
    ensures { result ≡ index_below (d (K.block_of kinds.now).image.geo) (first_below (d (K.block_of kinds.now).image.geo) (nth_passing r (λ m. is_live (K.kind kinds.now (K.block_of kinds.now).index m)))) }
{
    ranges::nth(
        kinds.block().image.geo.d(),
        r,
        |m| matches!(kinds.live_at(m), Some(_)),
    )
}
