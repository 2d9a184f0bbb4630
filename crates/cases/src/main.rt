// Runs the cases of one file and prints what each answers, to compare with what the second model says.
//
// cases.bin is a record whose word is the number of cases, then the cases. A case is a record with its kind, a byte and a word; then four parts, each
// behind a record whose word is its length: the program, the memory or output that is lent, the schedule, and what else the kind is given.
//
// kind 0: the report of a program, a memory and a schedule
// kind 1: an in-order run of as many instructions as the word says
// kind 2: a run, then a drain, from the state in the last part, each with the templates, counter and registers that it leaves
// kind 3: a step for each record of the schedule, from the state in the last part, each with the templates, counter and registers that it leaves
// kind 4: what is read of a program and of a memory: both judged, and what stands at the address in the word
// kind 5: the instruction in the last part, written to the output
// kind 6: the value in the last part, stored at the address in the word
// kind 7: the listing of a program, in the output
// kind 8: the operation in the byte, on the two values in the last part
#![tactic(auto)]

ghost use Rattle.std.specs.Prelude.{◌≤◌, length};

mod answers;
mod bytes;
mod show;
mod states;

use records::Record;
use std::io::Read;
use std::{fs, io};

fn head(input: &mut impl Read) -> Record {
    let mut b = [0u8; 8];
    buffers::fill(input, &mut b);
    bytes::record(&b, 0)
}

// The part, at the buffer's start; one that has no room is left out, and what is printed then differs.
fn part<'a>(input: &mut impl Read, buf: &'a mut [u8]) -> &'a mut [u8]
    ensures { length result.now ≤ length buf.old }
{
    let n = head(input).word as usize;
    if n > buf.len() {
        return &mut buf[..0];
    }
    let part = &mut buf[..n];
    buffers::fill(input, part);
    part
}

// Each part has room for one record more than is allowed, which some case tries, and for the longest listing and state.
fn case(rt: &impl Print, input: &mut impl Read, number: u32) -> io::Result<()> {
    let mut program = [0u8; 8200];
    let mut memory = [0u8; 31775];
    let mut schedule = [0u8; 65540];
    let mut rest = [0u8; 2056];
    let head = head(input);
    let program = part(input, &mut program);
    let memory = part(input, &mut memory);
    let schedule = part(input, &mut schedule);
    let rest = part(input, &mut rest);
    println!(rt; "case {number}")?;
    answers::print(rt, head, program, memory, schedule, rest)
}

fn main(rt: HostRuntime) -> io::Result<()> {
    let Ok(mut input) = fs::open(&rt, "cases.bin") else {
        return Ok(());
    };
    let count = head(&mut input).word;
    for number in 0..count {
        case(&rt, &mut input, number)?;
    }
    Ok(())
}
