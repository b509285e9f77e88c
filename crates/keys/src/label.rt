// What a derived key is for, told by a label.
ghost use Rattle.std.specs.Prelude.{◌≡◌};
ghost use Rattle.keys.specs.Labels.{number_of, label_of};

// The labels, each with its number.
#[derive(Clone, Copy, PartialEq, Eq, Debug)]
pub enum Label {
    // the index sequences over a pool that does not come from the key
    Tokenization = 1,
    // "FPE SEQ": the index sequences over the pool that comes from the key
    FpeSeq = 2,
    // "FPE Pool": the coins that the pool is made from
    FpePool = 3,
}

impl Label {
    // The label's number, from 1 to 3.
    pub fn number(self) -> u8
        ensures { result ≡ number_of self }
    {
        self as u8
    }
}

// The two kinds of index sequences, by the pool that they index.
#[derive(Clone, Copy, PartialEq, Eq, Debug)]
pub enum Sequence {
    // into a pool from given bytes or a file
    GivenPool,
    // into the pool from the key
    KeyPool,
}

impl Sequence {
    // The label of the sequence's derived key. A call, and no `From`, which would only say it once more.
    pub fn label(self) -> Label
        ensures { result ≡ label_of self }
    {
        match self {
            Sequence::GivenPool => Label::Tokenization,
            Sequence::KeyPool => Label::FpeSeq,
        }
    }
}
