// The run program: reads program.ax, memory.ax and schedule.ax in the working folder, runs, drains and prints.
#![tactic(auto)]

use std::io;

fn main(rt: HostRuntime) -> io::Result<()> {
    files::run(&rt, b"program.ax", b"memory.ax", b"schedule.ax")
}
