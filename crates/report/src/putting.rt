// The lines that say how a drain ended and what a machine holds, put on a page.
ghost use Rattle.std.specs.Prelude.{◌≡◌, ◌≤◌, length};
ghost use Rattle.cells.specs.Cells.{cells};
ghost use Rattle.text.specs.Text.{numbered};
ghost use Rattle.lines.specs.Lines.{cell_text, AddsWithin};
ghost use Rattle.report.specs.Report.{refusal_of, end_text, contents_text};

use isa::DataAddr;
use records::Fault;
use renaming::Settled;
use templates::State;
use text::Page;

// The number of what was refused, 0 if nothing was.
pub(crate) fn refusal_of(verdict: Result<(), Fault>) -> u8
    ensures { result ≡ refusal_of verdict }
{
    match verdict {
        Ok(()) => 0,
        Err(fault) => fault.refusal.number(),
    }
}

// Blocked, if templates remain.
pub(crate) fn put_end(page: &mut Page, end: &Settled)
    ensures { AddsWithin page.old (end_text end.now) 53 page.new }
{
    let count = end.state.count;
    if count == 0 {
        return lines::put_drained(page, end.rules);
    }
    lines::put_blocked(page, end.address, refusal_of(end.verdict), end.rules);
}

fn put_cells(page: &mut Page, memory: &[u8])
    requires { length memory.now ≤ 8192 }
    ensures { AddsWithin page.old (numbered cell_text 0 (cells memory.now)) 23552 page.new }
{
    for i in 0..(memory.len() / 8) as u32 {
        let Ok(v) = cells::load(memory, DataAddr(i)) else {
            return;
        };
        lines::put_value(page, b"m", i, v);
    }
}

// The counter in at most 14 bytes, then registers and cells that aren't undefined, 23 bytes each at most.
pub(crate) fn put_contents(page: &mut Page, state: &State, memory: &[u8])
    requires { length memory.now ≤ 8192 }
    ensures { AddsWithin page.old (contents_text state.now (cells memory.now)) 24302 page.new }
{
    lines::put_counter(page, state.counter);
    lines::put_registers(page, state.registers);
    put_cells(page, memory);
}
