// Runs, drains and runs in order as often as its three arguments say, so that it can be timed, and prints what was done.
#![tactic(auto)]

mod input;
mod parts;

use std::io;
use templates::State;

// The largest program or memory, the largest schedule, and one byte more each, by which a file that is too long is refused.
const FILE: usize = 8193;

const SCHEDULE: usize = 65537;

// One run that is not measured comes first. A run and an in-order run start with memory as read, `kept`. A drain starts with
// what that one run left: its state, and its memory, `left`. The in-order machine executes as many instructions as it issued.
fn main(rt: HostRuntime) -> io::Result<()> {
    let mut program = [0u8; FILE];
    let mut kept = [0u8; FILE];
    let mut left = [0u8; FILE];
    let mut memory = [0u8; FILE];
    let mut schedule = [0u8; SCHEDULE];
    let p = input::file(&rt, b"program.ax", &mut program);
    let k = input::file(&rt, b"memory.ax", &mut kept);
    let l = input::file(&rt, b"memory.ax", &mut left);
    let m = input::file(&rt, b"memory.ax", &mut memory);
    let s = input::file(&rt, b"schedule.ax", &mut schedule);
    let (program, kept, schedule) = (&program[..p], &kept[..k], &schedule[..s]);
    let (left, memory) = (&mut left[..l], &mut memory[..m]);
    let ran = renaming::run(State::start(), program, left, schedule);
    let runs = parts::runs(input::times(&rt, 1), program, kept, memory, schedule);
    println!(rt; "run {runs}")?;
    let drains = parts::drains(input::times(&rt, 2), ran.state, program, left, memory);
    println!(rt; "drain {drains}")?;
    let executions = parts::executions(input::times(&rt, 3), program, kept, memory, ran.issued);
    println!(rt; "inorder {executions}")
}
