// How far from the two ends of a code a layer looks, by the code's length.
ghost use Rattle.std.specs.Prelude.{◌≡◌};
ghost use Rattle.keys.specs.Distances.{distances, distances_of};

use faults::fault::{Cause, Fault};

// The two branch distances of a length: w from the front, and w' from the end.
#[derive(Clone, Copy, PartialEq, Eq, Debug)]
pub struct Distances {
    pub w: u8,
    pub w_prime: u8,
}

// The branch distances of a length, which is 2 to 32: w is the whole root of the length and at most two less
// than the length, and w' is one less than w and at least 1.
pub fn branch_distances(len: u8) -> Result<Distances, Fault>
    ensures { result ≡ distances_of len }
{
    if !matches!(len, 2..=32) {
        return Err(Fault::own(Cause::Range));
    }
    Ok(Distances::of(len))
}

impl Distances {
    // What the formulas give: the branch distances of a length that is in range.
    pub fn of(len: u8) -> Distances
        ensures { result ≡ distances len }
    {
        let w = len.isqrt().min(len.saturating_sub(2));
        let w_prime = w.saturating_sub(1).max(1);
        Distances { w, w_prime }
    }
}
