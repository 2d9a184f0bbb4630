// What the run program does: three files in, the report out.
#![tactic(auto)]

ghost use Rattle.std.specs.Prelude.{◌≤◌, length};

use std::rt::Files;
use std::{fs, io};

// The largest program or memory, the largest schedule, and one byte more each, by which a longer file is seen.
const FILE: usize = 8193;

const SCHEDULE: usize = 65537;

// One byte is no whole record, so the report refuses such a file as it refuses any other length.
fn unreadable(buf: &mut [u8]) -> &mut [u8]
    ensures { length result.now ≤ length buf.old }
{
    let n = buf.len().min(1);
    &mut buf[..n]
}

// The file's bytes, at the buffer's start. A path is text for the library, so one that isn't can't be opened.
fn load<'a>(rt: &impl Files, path: &[u8], buf: &'a mut [u8]) -> &'a mut [u8]
    ensures { length result.now ≤ length buf.old }
{
    let Ok(path) = str::from_utf8(path) else {
        return unreadable(buf);
    };
    let Ok(mut file) = fs::open(rt, path) else {
        return unreadable(buf);
    };
    match buffers::fill_whole(&mut file, buf) {
        Some(n) => &mut buf[..n],
        None => unreadable(buf),
    }
}

// Reads the files of those three names and prints the report.
pub fn run(
    rt: &(impl Files + Print),
    program_path: &[u8],
    memory_path: &[u8],
    schedule_path: &[u8],
) -> io::Result<()> {
    let mut program = [0u8; FILE];
    let mut memory = [0u8; FILE];
    let mut schedule = [0u8; SCHEDULE];
    let mut out = [0u8; report::ROOM];
    let program = load(rt, program_path, &mut program);
    let memory = load(rt, memory_path, &mut memory);
    let schedule = load(rt, schedule_path, &mut schedule);
    let n = report::report(program, memory, schedule, &mut out).unwrap_or(0);
    rt.write_all(&out[..n])
}
