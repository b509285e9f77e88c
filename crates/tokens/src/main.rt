// Masks codes by the FAST network and unmasks them again, a line each, to hold the network to tokens from outside.
// A line has where the pool comes from (`key`, or `file` for the same pool read as a file), the key, the run, the
// shape and the code; it prints the masked code and what unmasking gives. Lines that begin with `#` are printed.
#![tactic(auto)]

mod answer;
mod request;

use answer::{Unanswered, answer};
use request::Request;
use std::io;
use std::io::{BufRead, BufReader, Write};

fn main(rt: HostRuntime) -> io::Result<()> {
    let heap = rt.alloc();
    for line in BufReader::new(heap, rt.stdin())?.split(heap, b'\n') {
        reply(&rt, line?.as_slice())?;
    }
    Ok(())
}

fn reply(rt: &HostRuntime, line: &[u8]) -> io::Result<()> {
    if line.starts_with(b"#") {
        return print(rt, line);
    }
    let Some(request) = Request::read(line) else {
        return rt.println("unreadable");
    };
    match answer(rt.alloc(), &request) {
        Ok(words) => print(rt, words.as_slice()),
        Err(Unanswered::Refused(fault)) => println!(rt; "{fault}"),
        Err(Unanswered::Memory(error)) => Err(error.into()),
    }
}

fn print(rt: &HostRuntime, line: &[u8]) -> io::Result<()> {
    rt.stdout().write_all(line)?;
    rt.stdout().write_all(b"\n")
}
