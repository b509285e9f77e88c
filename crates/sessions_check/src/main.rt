// Serves many sessions, one after the other, each as the program `bincards` serves its standard input. A line `=`
// ends a session, and a line `==` ends one whose last line lacks its LF; what a session prints is followed by a line
// `=`. The bytes of a session are handed on a few at a time, so that lines come in pieces.
#![tactic(auto)]

use sessions::serve::serve;
use sips::Sips;
use std::io;
use std::io::{BufRead, BufReader, Write};

mod sips;

fn main(rt: HostRuntime) -> io::Result<()> {
    let heap = rt.alloc();
    let mut session = Vec::new(heap);
    for line in BufReader::new(heap, rt.stdin())?.split(heap, b'\n') {
        take_line(&rt, &mut session, line?.as_slice())?;
    }
    Ok(())
}

// Adds a line to the session, or serves the session where the line ends it.
fn take_line(rt: &HostRuntime, session: &mut Vec<u8>, line: &[u8]) -> io::Result<()> {
    match line {
        b"=" => serve_one(rt, session),
        b"==" => {
            let _ = session.pop();
            serve_one(rt, session)
        }
        _ => {
            session.extend_from_slice(line)?;
            session.push(b'\n')?;
            Ok(())
        }
    }
}

// Serves a session, and begins the next one.
fn serve_one(rt: &HostRuntime, session: &mut Vec<u8>) -> io::Result<()> {
    serve(&mut Sips::new(session.as_slice()), &mut rt.stdout())?;
    session.clear();
    rt.stdout().write_all(b"=\n")
}
