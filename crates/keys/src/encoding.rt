// The lists that keys are derived for, as bytes.
ghost use Rattle.std.specs.Prelude.{◌≡◌, ◌≤◌, take};

mod list;
mod writing;

pub(crate) use list::SequenceList;
pub use writing::{encode_pool, encode_sequence};

// The list of an index sequence as bytes: the first `len` of them. An encoding is copied, which an `ArrayVec` is not.
#[derive(Clone, Copy)]
pub struct Encoding {
    bytes: [u8; 46],
    len: usize,
    ghost within: { len ≤ 46 },
}

impl Encoding {
    pub fn as_slice(&self) -> &[u8]
        ensures { result.now ≡ take self.now.len self.now.bytes }
    {
        &self.bytes[..self.len]
    }
}
