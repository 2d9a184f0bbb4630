// The working table: a machine as rows and numbers, which the rules change in place.
ghost use Rattle.std.specs.Prelude.{◌≡◌, ◌<◌, length};
ghost use Rattle.cells.specs.Cells.{cells};
ghost use Rattle.templates.specs.Machine.{Mach, mach};
ghost use Rattle.templates.specs.Layout.{state_of};
ghost use Rattle.rows.specs.Shown.{held_of, regs_of};
ghost use Rattle.rules.specs.Drain.{blocking, blocked_at};
ghost use Rattle.renaming.specs.Working.{Coded, entered_on};

use isa::{InstrAddr, REGISTERS};
use records::{Fault, Refusal};
use std::marker::Model;
use templates::{Counter, PLACES, State};

// The templates are the first of the rows.
#[derive(Drop)]
pub(crate) struct Working {
    pub(crate) counter: Counter,
    pub(crate) registers: [u64; REGISTERS],
    pub(crate) templates: [[u64; 3]; PLACES],
    pub(crate) count: usize,
}

// Clauses see the machine that is shown.
impl Model for Working {
    ghost Value = { Mach };

    ghost view = { λ w. mach w.counter (regs_of w.registers) (held_of w.count w.templates) };

    ghost invariant = { λ w. Coded w.count w.templates w.registers };
}

// Refusals 1 to 4 of what rows and numbers show.
pub(crate) fn enter(
    ts: &[[u64; 3]],
    rf: &[u64],
    c: Counter,
    n: usize,
    program: &[u8],
    memory: &[u8],
) -> Result<(), Fault>
    ensures { result ≡ entered_on program.now memory.now c n ts.now rf.now }
{
    kernel::check(program, memory)?;
    if !sound::sound_on(ts, rf, c, n, (program.len() / 8) as u32) {
        return Err(Fault::from(Refusal::Unsound));
    }
    Ok(())
}

impl Working {
    pub(crate) fn state(&self) -> State
        ensures { result ≡ state_of self.now }
    {
        State {
            counter: self.counter,
            registers: table::registers(&self.registers),
            templates: table::templates(&self.templates, self.count),
            count: self.count,
        }
    }

    // Why the oldest template doesn't run, if there is one.
    pub(crate) fn blocking(&self, memory: &[u8]) -> Result<(), Refusal>
        ensures { result ≡ blocking self.now (cells memory.now) self.now.held }
    {
        if self.count == 0 {
            return Ok(());
        }
        let asked = judge::asks(table::template(&self.templates, 0).work);
        judge::refusal_on(
            &self.templates,
            &self.registers,
            self.count,
            asked,
            0,
            memory,
        )
    }

    // The oldest template's address; 0 if there is none.
    pub(crate) fn blocked_at(&self) -> InstrAddr
        ensures { result ≡ blocked_at self.now.held }
    {
        if self.count == 0 {
            return InstrAddr(0);
        }
        rows::address(&self.templates, 0)
    }
}
