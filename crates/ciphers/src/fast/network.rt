// FAST as a cipher over formats.
ghost use Rattle.std.specs.Prelude.{◌≡◌, ℕ, true};
ghost use Rattle.formats.specs.Codes.{Code};
ghost use Rattle.alphabets.specs.RunNames.{legal};
ghost use Rattle.formats.specs.Shapes.{form};
ghost use Rattle.pools.specs.Pools.{boxes, inverses};
ghost use Rattle.ciphers.specs.Held.{network_of};
ghost use Rattle.ciphers.specs.Networks.{networked, sequence_of};
ghost use Rattle.ciphers.specs.Kept.{label_in, Stands};
ghost use Rattle.ciphers.specs.Networked.{fast_laws};
ghost use Rattle.ciphers.specs.Swaps.{swap as swapping, answer, left};
ghost use Rattle.ciphers.specs.Ways.{map_of};

use crate::checks::check;
use crate::cipher::FormatCipher;
use crate::code::swap_code;
use crate::fast::Fast;
use crate::fast::kept::{KEPT, find, nothing_kept};
use crate::fast::wanted::Wanted;
use crate::reach::Reach;
use crate::way::Way;
use block_cipher::cmac::Cmac;
use faults::fault::Fault;
use formats::shape::Shape;
use keys::label::Sequence;
use pools::pool::{Origin, Pool};

impl Fast {
    // The network over a pool, under a key.
    pub fn new(pool: Pool, key: [u8; 16]) -> Fast
        ensures { network_of result ≡ record { key = key; sequence = sequence_of pool.origin; radix = pool.radix; boxes = boxes pool; inverses = inverses pool } }
    {
        Fast {
            pool,
            mac: Cmac::new(key),
            kept: nothing_kept(),
            next: 0,
        }
    }

    // Which index sequences belong to the pool. The crate of neither enum knows the other.
    fn sequence(&self) -> Sequence
        ensures { result ≡ (network_of self.now).sequence }
    {
        match self.pool.origin() {
            Origin::Given => Sequence::GivenPool,
            Origin::Key => Sequence::KeyPool,
        }
    }

    // Where the wanted index sequence is kept: where it was, and then nothing changes, or made now in the place of
    // another.
    fn place(&mut self, wanted: &Wanted<'_>) -> usize
        ensures stands { Stands (label_in wanted.now) self.new.kept result }
        ensures found { (k : ℕ) → Stands (label_in wanted.now) self.old.kept k → self.new ≡ self.old }
        ensures same { network_of self.new ≡ network_of self.old }
    {
        match find(&self.kept, wanted) {
            Some(place) => place,
            None => self.keep(wanted),
        }
    }

    // Makes an index sequence in the place whose turn it is, and says which that is.
    fn keep(&mut self, wanted: &Wanted<'_>) -> usize
        ensures stands { Stands (label_in wanted.now) self.new.kept result }
        ensures same { network_of self.new ≡ network_of self.old }
    {
        let sequence = self.sequence();
        let radix = self.pool.radix();
        let place = self.next;
        self.kept[place].fill(&self.mac, sequence, radix, wanted);
        self.next = (place + 1) % KEPT;
        place
    }

    // Swaps a code that was checked, one way or the other.
    fn swap_checked(&mut self, way: Way, shape: &Shape, run: &[u8], code: &mut [u8])
        requires taken { (networked (network_of self.old)).taken (form shape.now) ≡ true }
        requires run { legal run.now ≡ true }
        requires code { Code (form shape.now) code.old }
        ensures after { code.new ≡ map_of (networked (network_of self.old)) way (form shape.now) run.now code.old }
        ensures same { network_of self.new ≡ network_of self.old }
    {
        let wanted = Wanted::of(shape, run);
        let reach = Reach::of(wanted.len);
        let place = self.place(&wanted);
        let network = &*self;
        let indices = network.kept[place].first(wanted.layers);
        swap_code(&network.pool, way, indices, reach, code);
    }

    // Swaps a code one way or the other, or refuses it.
    fn swap(&mut self, way: Way, shape: &Shape, run: &[u8], code: &mut [u8]) -> Result<(), Fault>
        ensures value { result ≡ answer (swapping (networked (network_of self.old)) (map_of (networked (network_of self.old)) way) (form shape.now) run.now code.old) }
        ensures after { code.new ≡ left (swapping (networked (network_of self.old)) (map_of (networked (network_of self.old)) way) (form shape.now) run.now code.old) code.old }
        ensures same { network_of self.new ≡ network_of self.old }
    {
        check(self.takes(shape), shape, run, code)?;
        self.swap_checked(way, shape, run, code);
        Ok(())
    }
}

impl FormatCipher for Fast {
    ghost meaning = { λ s. networked (network_of s) };

    ghost lawful = { λ s. fast_laws s };

    fn takes(&self, shape: &Shape) -> bool {
        shape.radix() == self.pool.radix() && shape.len() >= 2
    }

    fn forward(&mut self, shape: &Shape, run: &[u8], code: &mut [u8]) -> Result<(), Fault> {
        self.swap(Way::Forward, shape, run, code)
    }

    fn backward(&mut self, shape: &Shape, run: &[u8], code: &mut [u8]) -> Result<(), Fault> {
        self.swap(Way::Backward, shape, run, code)
    }
}
