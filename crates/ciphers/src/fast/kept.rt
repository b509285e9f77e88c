// Kept index sequences, each under the label that it was made for.
ghost use Rattle.std.specs.Prelude.{◌≡◌, ℕ, ◌<◌, ◌≤◌, true, List, Some, None, map, length, take, Decides, MatchOption, ◌≢◌, slice_index};
ghost use Rattle.block_cipher.specs.MacKey.{mac_key_of};
ghost use Rattle.keys.specs.Sequences.{pooled};
ghost use Rattle.ciphers.specs.Kept.{label_in, kept_label, label_of, labels, held_indices, defined_of, Stands, Defined};

use crate::fast::wanted::Wanted;
use arrayvec::ArrayVec;
use block_cipher::cmac::Cmac;
use keys::label::Sequence;
use keys::sequence::index_sequence;
use std::array;

// Room for an index sequence, and what it is the sequence of, if one was kept yet: its first indices, as many as the
// label has layers.
#[derive(Drop)]
pub(crate) struct KeptSequence {
    label: Option<Label>,
    indices: [u8; 2048],
}

// A run's name, a length and a number of layers.
#[derive(Drop)]
struct Label {
    name: ArrayVec<u8, 32>,
    len: u8,
    layers: usize,
}

// How many sequences a network keeps.
pub(crate) const KEPT: usize = 8;

// Places with nothing kept: whatever the key and the pool, none of them holds a wrong index.
pub(crate) fn nothing_kept() -> [KeptSequence; KEPT]
    ensures whole { length result ≡ 8 }
    ensures defined { (key : List ℕ) (s : Sequence) (radix : ℕ) → Defined key s radix result }
{
    array::from_fn(|_| KeptSequence {
        label: None,
        indices: [0; 2048],
    })
}

// Where the wanted sequence is kept, if it is.
pub(crate) fn find(kept: &[KeptSequence], wanted: &Wanted<'_>) -> Option<usize>
    ensures { MatchOption result ((k : ℕ) → Stands (label_in wanted.now) kept.now k → ⊥) (Stands (label_in wanted.now) kept.now) }
{
    kept.iter().position(|sequence| sequence.is_of(wanted))
}

impl KeptSequence {
    // The first so many indices.
    pub(crate) fn first(&self, layers: usize) -> &[u8]
        requires { layers ≤ 2048 }
        ensures { result.now ≡ take layers self.now.indices }
    {
        &self.indices[..layers]
    }

    // Is it the wanted sequence?
    fn is_of(&self, wanted: &Wanted<'_>) -> bool
        ensures { Decides result (label_of self.now ≡ Some (label_in wanted.now)) }
    {
        match &self.label {
            Some(label) => label.is(wanted),
            None => false,
        }
    }

    // Makes the wanted sequence here, and labels it so. What is wanted is never refused.
    pub(crate) fn fill(&mut self, mac: &Cmac, sequence: Sequence, radix: u8, wanted: &Wanted<'_>)
        requires { pooled radix ≡ true }
        ensures labelled { label_of self.new ≡ Some (label_in wanted.now) }
        ensures indices { held_indices self.new ≡ Some (defined_of (mac_key_of mac.now) sequence radix (label_in wanted.now)) }
    {
        let mut lent = [0u8; 32];
        let part = &mut self.indices[..wanted.layers];
        let _ = index_sequence(
            mac, sequence, radix, wanted.len, wanted.run, &mut lent, part,
        );
        self.label = Some(Label::of(wanted));
    }
}

impl Label {
    // The label of the wanted sequence, for whose name there is room.
    fn of(wanted: &Wanted<'_>) -> Label
        ensures { kept_label result ≡ label_in wanted.now }
    {
        let mut name = ArrayVec::new();
        let _ = name.try_extend_from_slice(wanted.run);
        Label {
            name,
            len: wanted.len,
            layers: wanted.layers,
        }
    }

    // Is it the label of the wanted sequence?
    fn is(&self, wanted: &Wanted<'_>) -> bool
        ensures { Decides result (kept_label self.now ≡ label_in wanted.now) }
    {
        self.len == wanted.len && self.layers == wanted.layers && self.name.as_slice() == wanted.run
    }
}
