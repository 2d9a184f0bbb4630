// The report of a run, as text in a lent buffer: what the run program prints.
#![tactic(auto)]

ghost use Rattle.std.specs.Prelude.{◌≤◌, length};
ghost use Rattle.report.specs.Report.{Tells, Reports, Shows};

mod judging;
mod putting;

use records::{Fault, Refusal};
use templates::State;
use text::Page;

// The bytes that the output needs; no report is longer.
pub const ROOM: usize = 24576;

// Which of the three files is refused, from 1, and its fault.
#[derive(Clone, Copy, PartialEq, Eq)]
pub struct Input {
    pub file: u8,
    pub fault: Fault,
}

// Runs from the start, drains and says so.
fn put_run(page: &mut Page, program: &[u8], memory: &mut [u8], schedule: &[u8])
    requires { length memory.old ≤ 8192 }
    ensures { Tells program.now memory.old schedule.now page.old 24425 memory.new page.new }
{
    let ran = renaming::run(State::start(), program, memory, schedule);
    let end = renaming::drain(ran.state, program, memory);
    let refused = putting::refusal_of(ran.verdict);
    lines::put_ran(page, ran.accepted, refused, ran.issued);
    putting::put_end(page, &end);
    putting::put_contents(page, &end.state, memory);
}

// The report of three files' bytes, and its length; memory is then as the drain leaves it.
pub fn report(
    program: &[u8],
    memory: &mut [u8],
    schedule: &[u8],
    out: &mut [u8],
) -> Result<usize, Refusal>
    ensures { Reports program.now memory.old schedule.now out.old result memory.new out.new }
{
    if out.len() < ROOM {
        return Err(Refusal::BadLength);
    }
    let mut page = Page { out, at: 0 };
    if let Err(input) = judging::judge(program, memory, schedule) {
        let refusal = input.fault.refusal.number();
        lines::put_input(&mut page, input.file, refusal, input.fault.number);
        return Ok(page.at);
    }
    put_run(&mut page, program, memory, schedule);
    Ok(page.at)
}

// What a machine holds: the report's lines from the counter on, and their length.
pub fn contents(state: State, memory: &[u8], out: &mut [u8]) -> Result<usize, Refusal>
    ensures { Shows state memory.now out.old result out.new }
{
    if !(records::is_whole(memory) & (ROOM <= out.len())) {
        return Err(Refusal::BadLength);
    }
    let mut page = Page { out, at: 0 };
    putting::put_contents(&mut page, &state, memory);
    Ok(page.at)
}
