// A pool's boxes as layers look into them.
ghost use Rattle.std.specs.Prelude.{◌≡◌, ◌+◌, ◌*◌, ◌%◌, ◌<◌, ◌≤◌};
ghost use Rattle.pools.specs.Rows.{rows_of};
ghost use Rattle.ciphers.specs.Layers.{image, plus, minus, less, more};
ghost use Rattle.ciphers.specs.Tables.{Reads};

use pools::pool::Pool;

// The boxes of a pool, or their inverses, in one flat table. A row holds its box twice, so that a sum of two symbols
// finds its image with no remainder taken.
#[derive(Clone, Copy)]
pub(crate) struct Boxes<'a> {
    table: &'a [u8; 32768],
    radix: usize,
    ghost reads: { Reads radix table.now },
}

impl<'a> Boxes<'a> {
    // The boxes themselves.
    #[inline]
    pub(crate) fn of(pool: &'a Pool) -> Boxes<'a>
        ensures radix { result.radix ≡ pool.now.radix }
        ensures table { result.table.now ≡ pool.now.forward }
    {
        Boxes {
            table: pool.forward(),
            radix: pool.radix() as usize,
        }
    }

    // Their inverses.
    #[inline]
    pub(crate) fn inverses(pool: &'a Pool) -> Boxes<'a>
        ensures radix { result.radix ≡ pool.now.radix }
        ensures table { result.table.now ≡ pool.now.inverse }
    {
        Boxes {
            table: pool.inverse(),
            radix: pool.radix() as usize,
        }
    }
}

impl Boxes<'_> {
    // S(S(x + b) - c), and S(S(x + b)) at the distance w = 0, S being box i.
    #[inline]
    pub(crate) fn forward_symbol(&self, w: usize, i: u8, x: u8, b: u8, c: u8) -> u8
        requires { (x < self.now.radix) × ((b < self.now.radix) × (c < self.now.radix)) }
        ensures small { result < self.now.radix }
        ensures value { let boxes = rows_of self.now.radix 256 self.now.table.now in result ≡ image boxes i (less self.now.radix w (image boxes i (plus self.now.radix x b)) c) }
    {
        let u = self.look(i, x as usize + b as usize);
        if w == 0 {
            return self.look(i, u as usize);
        }
        self.look(i, u as usize + (self.radix - c as usize))
    }

    // T(T(x) + c) - b, and T(T(x)) - b at the distance w = 0, T being box i.
    #[inline]
    pub(crate) fn backward_symbol(&self, w: usize, i: u8, x: u8, c: u8, b: u8) -> u8
        requires { (x < self.now.radix) × ((c < self.now.radix) × (b < self.now.radix)) }
        ensures small { result < self.now.radix }
        ensures value { let boxes = rows_of self.now.radix 256 self.now.table.now in result ≡ minus self.now.radix (image boxes i (more self.now.radix w (image boxes i x) c)) b }
    {
        let u = self.look(i, x as usize);
        if w == 0 {
            return self.difference(self.look(i, u as usize), b);
        }
        self.difference(self.look(i, u as usize + c as usize), b)
    }

    // The image by box i of t, which may be up to twice the radix.
    #[inline]
    fn look(&self, i: u8, t: usize) -> u8
        requires { t < self.now.radix + self.now.radix }
        ensures small { result < self.now.radix }
        ensures value { result ≡ image (rows_of self.now.radix 256 self.now.table.now) i (t % self.now.radix) }
    {
        self.table[i as usize * (self.radix + self.radix) + t]
    }

    // t - b modulo the radix. A difference of symbols that wraps is above 128: the test of that takes no branch.
    #[inline]
    fn difference(&self, t: u8, b: u8) -> u8
        requires { (t < self.now.radix) × (b < self.now.radix) }
        ensures small { result < self.now.radix }
        ensures value { result ≡ minus self.now.radix t b }
    {
        let rest = t.wrapping_sub(b);
        if rest < 128 {
            return rest;
        }
        rest.wrapping_add(self.radix as u8)
    }
}
