// A reader that hands out a few bytes at a time.
use std::io;
use std::io::Read;

// The most bytes at a time: few enough that most lines come in pieces, and not a part of any line's length.
const SIP: usize = 7;

#[derive(Drop)]
pub struct Sips<'a> {
    left: &'a [u8],
}

impl<'a> Sips<'a> {
    pub fn new(bytes: &'a [u8]) -> Sips<'a> {
        Sips { left: bytes }
    }
}

impl<'a> Read for Sips<'a> {
    fn read(&mut self, buf: &mut [u8]) -> io::Result<usize> {
        let n = buf.len().min(SIP);
        self.left.read(&mut buf[..n])
    }
}
