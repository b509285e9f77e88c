// How far a layer looks from the two ends of a code.
ghost use Rattle.std.specs.Prelude.{◌≡◌, ◌≤◌};
ghost use Rattle.keys.specs.Distances.{w_of, w'_of};
ghost use Rattle.ciphers.specs.Layers.{Near};

use keys::distances::branch_distances;

// The length of a code, with its branch distances: a layer looks w symbols ahead of the first, and v behind the end.
#[derive(Clone, Copy)]
pub(crate) struct Reach {
    pub(crate) len: usize,
    pub(crate) w: usize,
    pub(crate) v: usize,
    ghost near: { Near len w v },
    ghost short: { len ≤ 32 },
}

impl Reach {
    // The reach for a length.
    pub(crate) fn of(len: u8) -> Reach
        requires { (2 ≤ len) × (len ≤ 32) }
        ensures len { result.len ≡ len }
        ensures w { result.w ≡ w_of len }
        ensures v { result.v ≡ w'_of len }
    {
        let distances = branch_distances(len).unwrap();
        Reach {
            len: len as usize,
            w: distances.w as usize,
            v: distances.w_prime as usize,
        }
    }
}
