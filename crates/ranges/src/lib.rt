#![tactic(auto)]

// Tests, sums, lists and searches over 0, 1, .. m − 1: their definitions are in specs/, the laws of these in proofs/, and here are those that run,
// each over a closure that is asked at the indices in turn.
// No function of std is called in what the public calls stand on, but for what the compiler has itself (`trailing_zeros`, `count_ones`): `determined`
// proves of each of them that an environment has its code (`runs`), and std's tables cannot be named there. So these stand in the place of the methods of
// an iterator.
ghost use Rattle.std.specs.Prelude.{Bool, ◌≡◌, ℕ, ◌<◌, ◌^◌};
ghost use Rattle.ranges.specs.Asked.{MayBeAsked, Tells};
ghost use Rattle.ranges.specs.Range.{all_below, count_below, first_below, best_below, index_below, largest_below, nth_passing, pair_below, by_key};

// Whether a test passes at each index below m.
pub fn all<F: Fn(usize) -> bool>(m: usize, test: F) -> bool
    requires { MayBeAsked (F.pre test) m }
    ensures { (f : ℕ → Bool) → Tells (F.post test) m f → result ≡ all_below m f }
{
    for i in 0..m {
        if !test(i) {
            return false;
        }
    }
    true
}

// At how many indices below m a test passes. The count is of 32 bits, so that the compiler counts four at a time where the test has no branch.
pub fn count<F: Fn(usize) -> bool>(m: usize, test: F) -> u32
    requires few { m < 2 ^ 32 }
    requires test { MayBeAsked (F.pre test) m }
    ensures { (f : ℕ → Bool) → Tells (F.post test) m f → result ≡ count_below m f }
{
    let mut passed = 0u32;
    for i in 0..m {
        if test(i) {
            passed += 1;
        }
    }
    passed
}

// The first index below m at which a test passes.
pub fn find<F: Fn(usize) -> bool>(m: usize, test: F) -> Option<usize>
    requires { MayBeAsked (F.pre test) m }
    ensures { (f : ℕ → Bool) → Tells (F.post test) m f → result ≡ index_below m (first_below m f) }
{
    for first in 0..m {
        if test(first) {
            return Some(first);
        }
    }
    None
}

// The index below m at which a test passes, with n such before it.
pub fn nth<F: Fn(usize) -> bool>(m: usize, n: usize, test: F) -> Option<usize>
    requires { MayBeAsked (F.pre test) m }
    ensures { (f : ℕ → Bool) → Tells (F.post test) m f → result ≡ index_below m (first_below m (nth_passing n f)) }
{
    let mut left = n;
    for i in 0..m {
        if test(i) {
            if left == 0 {
                return Some(i);
            }
            left -= 1;
        }
    }
    None
}

// Whether one pair of numbers is below another: by the first, and among equals by the second.
fn is_below(a: (u32, u32), b: (u32, u32)) -> bool
    ensures { result ≡ pair_below a b }
{
    a.0 < b.0 || a.0 == b.0 && a.1 < b.1
}

// The index below m of the least key, of those at which a test passes: the first among equals.
pub fn least<F: Fn(usize) -> bool, K: Fn(usize) -> (u32, u32)>(
    m: usize,
    test: F,
    key: K,
) -> Option<usize>
    requires test { MayBeAsked (F.pre test) m }
    requires key { MayBeAsked (K.pre key) m }
    ensures { (f : ℕ → Bool) (k : ℕ → ℕ × ℕ) → Tells (F.post test) m f → Tells (K.post key) m k → result ≡ index_below m (best_below (by_key k) m f) }
{
    let mut best = None;
    for i in 0..m {
        if test(i) {
            let rank = key(i);
            best = match best {
                Some((r, least)) if !is_below(rank, least) => Some((r, least)),
                _ => Some((i, rank)),
            };
        }
    }
    match best {
        Some((r, _)) => Some(r),
        None => None,
    }
}

// The largest value at the indices below m; 0 where there is none.
pub fn largest<F: Fn(usize) -> u32>(m: usize, value: F) -> u32
    requires { MayBeAsked (F.pre value) m }
    ensures { (f : ℕ → ℕ) → Tells (F.post value) m f → result ≡ largest_below m f }
{
    let mut largest = 0u32;
    for i in 0..m {
        let here = value(i);
        if largest < here {
            largest = here;
        }
    }
    largest
}
