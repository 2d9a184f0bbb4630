// The run program on files that are odd, one folder of data/ after the other.
#![tactic(auto)]

use std::io;

fn main(rt: HostRuntime) -> io::Result<()> {
    // memory.ax is missing, and a program record is malformed: a length is judged before any record.
    files::run(
        &rt,
        b"missing/program.ax",
        b"missing/memory.ax",
        b"missing/schedule.ax",
    )?;
    // schedule.ax is a folder: it opens, but it can't be read.
    files::run(
        &rt,
        b"folder/program.ax",
        b"folder/memory.ax",
        b"folder/schedule.ax",
    )?;
    // memory.ax is one byte too long.
    files::run(
        &rt,
        b"long/program.ax",
        b"long/memory.ax",
        b"long/schedule.ax",
    )?;
    // There is no such folder: the lowest file is named.
    files::run(
        &rt,
        b"none/program.ax",
        b"none/memory.ax",
        b"none/schedule.ax",
    )
}
