// Holds the libraries to values from outside: reads lines from standard input, and prints what each is answered.
#![tactic(auto)]

mod coin_lines;
mod key_lines;
mod shape_lines;
mod show;
mod unanswered;
mod words;

use std::io;
use std::io::{BufRead, BufReader, Write};
use text::reader::Reader;
use unanswered::Unanswered;

fn main(rt: HostRuntime) -> io::Result<()> {
    let heap = rt.alloc();
    let lines = BufReader::new(heap, rt.stdin())?.split(heap, b'\n');
    for (number, line) in (1u64..).zip(lines) {
        reply(&rt, number, line?.as_slice())?;
    }
    Ok(())
}

// Prints what a line is answered, or why it has no answer. An empty line and a heading are printed as they are.
fn reply(rt: &HostRuntime, number: u64, line: &[u8]) -> io::Result<()> {
    if line.is_empty() || line.starts_with(b"#") {
        return echo(rt, line);
    }
    match answer(rt, line) {
        Ok(()) => Ok(()),
        Err(why @ Unanswered::Unreadable) => println!(rt; "line {number}: {why}"),
        Err(Unanswered::Refused(fault)) => println!(rt; "{fault}"),
        Err(Unanswered::Unprinted(error)) => Err(error),
        Err(Unanswered::Memory(error)) => Err(error.into()),
    }
}

fn echo(rt: &HostRuntime, line: &[u8]) -> io::Result<()> {
    rt.stdout().write_all(line)?;
    rt.stdout().write_all(b"\n")
}

// Prints what a line asks for: its first word is the command, which reads the others.
fn answer(rt: &HostRuntime, line: &[u8]) -> Result<(), Unanswered> {
    let mut words = Reader::new(line);
    match words::next(&mut words)? {
        b"shape" => shape_lines::shape(rt, &mut words),
        b"draw" => coin_lines::draw(rt, &mut words),
        b"box" => coin_lines::sbox(rt, &mut words),
        b"indices" => key_lines::indices(rt, &mut words),
        b"keybox" => key_lines::key_sbox(rt, &mut words),
        _ => Err(Unanswered::Unreadable),
    }
}
