// Prints the listing of the program on standard input, or why it is refused.
#![tactic(auto)]

use records::{Fault, Refusal};
use std::io;
use std::io::{Input, Read};

// The largest program, and one byte more, by which a longer one is seen.
const PROGRAM: usize = 8193;

// 31 bytes for each of 1,024 instructions.
const TEXT: usize = 31744;

// How many bytes the listing has; an input that can't be read to its end is refused as one that is too long.
fn list(input: &mut impl Read, out: &mut [u8]) -> Result<usize, Fault> {
    let mut program = [0u8; PROGRAM];
    let n = buffers::fill_whole(input, &mut program).ok_or(Refusal::BadLength)?;
    listing::list(&program[..n], out)
}

fn main(rt: HostRuntime) -> io::Result<()> {
    let mut out = [0u8; TEXT];
    match list(&mut rt.reader(), &mut out) {
        Ok(n) => rt.write_all(&out[..n.min(TEXT)]),
        // The program is the first of the scope paper's files.
        Err(fault) => println!(rt; "input 1 {} {}", fault.refusal.number(), fault.number),
    }
}
