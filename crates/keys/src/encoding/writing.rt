// Writing lists as bytes.
ghost use Rattle.std.specs.Prelude.{◌≡◌, [], ◌∷◌, ◌++◌};
ghost use Rattle.keys.specs.Distances.{w_of, w'_of};
ghost use Rattle.keys.specs.Encoded.{written, written_in, encoding_of};
ghost use Rattle.keys.specs.Encodings.{two, opening, encode, of_pool};
ghost use Rattle.keys.specs.Listed.{listed};

use crate::distances::Distances;
use crate::encoding::{Encoding, SequenceList};
use crate::label::{Label, Sequence};
use alphabets::run_name::RunName;
use faults::fault::{Cause, Fault};

// The list of an index sequence of so many layers. Its length is 2 to 32, which its branch distances follow
// from, and its run name is legal.
pub fn encode_sequence(
    counter: u8,
    sequence: Sequence,
    radix: u16,
    len: u8,
    layers: u16,
    run: &[u8],
) -> Result<Encoding, Fault>
    ensures { written_in result ≡ encoding_of counter sequence radix len layers run.now }
{
    if !matches!(len, 2..=32) {
        return Err(Fault::own(Cause::Range));
    }
    let run = RunName::new(run)?;
    let list = SequenceList {
        sequence,
        radix,
        len,
        layers,
        run,
    };
    Ok(list.encode(counter))
}

// The list of the pool of a radix.
pub fn encode_pool(counter: u8, radix: u16) -> [u8; 8]
    ensures { result ≡ encode counter (of_pool radix) }
{
    opening(counter, Label::FpePool, radix)
}

impl SequenceList<'_> {
    // The list with a counter.
    pub(crate) fn encode(&self, counter: u8) -> Encoding
        ensures { written result ≡ encode counter (listed self.now) }
    {
        let run = self.run.as_bytes();
        let len = 14 + run.len();
        let mut bytes = [0u8; 46];
        bytes[..8].copy_from_slice(&opening(counter, self.sequence.label(), self.radix));
        bytes[8..14].copy_from_slice(&sizes(self.len, self.layers, run.len() as u8));
        bytes[14..len].copy_from_slice(run);
        Encoding { bytes, len }
    }
}

// What every list opens with.
fn opening(counter: u8, label: Label, radix: u16) -> [u8; 8]
    ensures { result ≡ opening counter label radix }
{
    let [key_high, key_low] = 256u16.to_be_bytes();
    let [radix_high, radix_low] = radix.to_be_bytes();
    let [boxes_high, boxes_low] = 256u16.to_be_bytes();
    [
        counter,
        label.number(),
        key_high,
        key_low,
        radix_high,
        radix_low,
        boxes_high,
        boxes_low,
    ]
}

// What stands between the opening and the run name.
fn sizes(len: u8, layers: u16, run_len: u8) -> [u8; 6]
    ensures { result ≡ len ∷ (two layers ++ w_of len ∷ w'_of len ∷ run_len ∷ []) }
{
    let distances = Distances::of(len);
    let [high, low] = layers.to_be_bytes();
    [len, high, low, distances.w, distances.w_prime, run_len]
}
