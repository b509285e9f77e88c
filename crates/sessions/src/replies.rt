// Lines to print, gathered so that they are written many at a time.
ghost use Rattle.std.specs.Prelude.{◌≡◌, [], OnOk};

use arrayvec::ArrayVec;
use printing::printed::{MOST_PRINTED, Printed};
use std::io;
use std::io::Write;

// The bytes of lines that wait together.
const ROOM: usize = 65536;

// Where lines are printed, and the lines that wait to be written.
#[derive(Drop)]
pub(crate) struct Replies<'a, W> {
    waiting: ArrayVec<u8, ROOM>,
    output: &'a mut W,
}

impl<'a, W: Write> Replies<'a, W> {
    pub(crate) fn new(output: &'a mut W) -> Replies<'a, W> {
        Replies {
            waiting: ArrayVec::new(),
            output,
        }
    }

    // Adds a line. Where there may be no room for it, what waits is written first.
    pub(crate) fn put(&mut self, printed: &Printed) -> io::Result<()> {
        if self.waiting.remaining_capacity() < MOST_PRINTED {
            self.write()?;
        }
        self.waiting
            .try_extend_from_slice(printed.as_bytes())
            .unwrap();
        Ok(())
    }

    // Writes all that waits. Where nothing does, the output is not called.
    pub(crate) fn write(&mut self) -> io::Result<()>
        ensures { OnOk result (self.new.waiting.items ≡ []) }
    {
        if self.waiting.is_empty() {
            return Ok(());
        }
        self.output.write_all(self.waiting.as_slice())?;
        self.waiting.clear();
        Ok(())
    }
}
