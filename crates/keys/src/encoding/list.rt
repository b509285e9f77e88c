// The list that the key of an index sequence is derived for.
use crate::label::Sequence;
use alphabets::run_name::RunName;

// All that the list says but for its counter: which sequence, of how many layers, and under which run.
#[derive(Clone, Copy)]
pub(crate) struct SequenceList<'a> {
    pub(crate) sequence: Sequence,
    pub(crate) radix: u16,
    pub(crate) len: u8,
    pub(crate) layers: u16,
    pub(crate) run: RunName<'a>,
}
