// Reads lines from standard input, and prints what each is answered: sixteen bytes in hexadecimal, nothing, or
// why the line is unreadable.
#![tactic(auto)]

use block_lines::answer::answer;
use std::io;
use std::io::{BufRead, BufReader, Write};
use text::hex;

fn main(rt: HostRuntime) -> io::Result<()> {
    let heap = rt.alloc();
    let lines = BufReader::new(heap, rt.stdin())?.split(heap, b'\n');
    for (before, line) in lines.enumerate() {
        let mut line = line?;
        reply(&rt, before.saturating_add(1), &mut line)?;
    }
    Ok(())
}

// Prints what a line is answered. A carriage return at its end is not part of it.
fn reply(rt: &HostRuntime, number: usize, line: &mut Vec<u8>) -> io::Result<()> {
    if line.as_slice().ends_with(b"\r") {
        let _ = line.pop();
    }
    match answer(line.as_mut_slice()) {
        Ok(None) => Ok(()),
        Ok(Some(block)) => print_block(rt, block),
        Err(why) => println!(rt; "line {number}: {why}"),
    }
}

// Prints a block's 32 digits, and a line's end, in one write.
fn print_block(rt: &HostRuntime, block: [u8; 16]) -> io::Result<()> {
    let mut text = [b'\n'; 33];
    text[0..32].copy_from_slice(&hex::lower(block));
    rt.stdout().write_all(&text)
}
