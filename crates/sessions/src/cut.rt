// A block of bytes, cut at the end of its first line.
ghost use Rattle.std.specs.Prelude.{◌≡◌};
ghost use Rattle.sessions.specs.Blocks.{head, beyond};

// What ends a line.
pub(crate) const LF: u8 = b'\n';

// The first line of a block, and how many bytes stand after it and its LF. All of the block is its line where none
// ends in it.
pub(crate) fn cut_first(block: &[u8]) -> (&[u8], usize)
    ensures line { result.0.now ≡ head block.now }
    ensures rest { result.1 ≡ beyond block.now }
{
    match block.iter().position(|b| *b == LF) {
        Some(end) => (&block[..end], block.len() - end - 1),
        None => (block, 0),
    }
}
