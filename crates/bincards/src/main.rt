// Reads a session's lines from standard input, and prints what each is answered.
#![tactic(auto)]

use sessions::serve::serve;
use std::io;

fn main(rt: HostRuntime) -> io::Result<()> {
    serve(&mut rt.stdin(), &mut rt.stdout())
}
