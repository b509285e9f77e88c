// Bytes that were read and whose line is not answered yet.
ghost use Rattle.std.specs.Prelude.{◌≡◌, ◌+◌, ◌-◌, [], length, take, drop, IfOk, OnErr};

use commands::command::MOST_BYTES;
use std::io;
use std::io::Read;
use std::marker::Model;

// The bytes that may wait.
const ROOM: usize = 65536;

// A byte more than a line may have: a line of so many bytes is unreadable, whatever follows.
const MOST_KEPT: usize = MOST_BYTES + 1;

// The first `len` bytes wait. The count stands beside the array, since an input is read into what lies past it.
#[derive(Drop)]
pub(crate) struct Waiting {
    bytes: [u8; ROOM],
    len: usize,
}

impl Model for Waiting {
    ghost use Rattle.std.specs.Prelude.{ℕ, ◌≤◌, List, take};

    ghost Value = { List ℕ };

    ghost view = { λ w. take w.len w.bytes };

    ghost invariant = { λ w. w.len ≤ 65536 };
}

impl Waiting {
    pub(crate) fn new() -> Waiting
        ensures { result ≡ [] }
    {
        Waiting {
            bytes: [0; ROOM],
            len: 0,
        }
    }

    // What waits.
    pub(crate) fn bytes(&self) -> &[u8]
        ensures { result.now ≡ self.now }
    {
        &self.bytes[..self.len]
    }

    // Reads more, and answers how many bytes more. What waited stays in front of them.
    pub(crate) fn read<R: Read>(&mut self, input: &mut R) -> io::Result<usize>
        ensures count { IfOk result (λ n. length self.new ≡ length self.old + n) }
        ensures front { take (length self.old) self.new ≡ self.old }
        ensures failed { OnErr result (self.new ≡ self.old) }
    {
        let n = input.read(&mut self.bytes[self.len..])?;
        self.len += n;
        Ok(n)
    }

    // Lets go of all but the last `n` bytes.
    pub(crate) fn keep_last(&mut self, n: usize)
        ensures { self.new ≡ drop (length self.old - n) self.old }
    {
        if n > self.len {
            return;
        }
        self.bytes.copy_within(self.len - n..self.len, 0);
        self.len = n;
    }

    // Makes room where no line ends in what waits: the first bytes of a line that is too long tell that it is.
    pub(crate) fn shorten(&mut self)
        ensures { self.new ≡ take 4097 self.old }
    {
        self.len = self.len.min(MOST_KEPT);
    }
}
