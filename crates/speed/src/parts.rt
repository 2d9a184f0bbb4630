// The three parts that are timed, each repeated from the same state and from memory that is restored.
use inorder::InOrder;
use isa::InstrAddr;
use records::Fault;
use std::fmt;
use templates::{Counter, State};

// Rules or instructions of all repetitions, and the verdict and the counter of the last.
#[derive(Clone, Copy)]
pub struct Tally {
    rules: u64,
    verdict: Result<(), Fault>,
    counter: Counter,
}

// Before the first repetition.
impl Default for Tally {
    fn default() -> Tally {
        Tally {
            rules: 0,
            verdict: Ok(()),
            counter: Counter::At(InstrAddr(0)),
        }
    }
}

impl Tally {
    // With one repetition more.
    fn then(self, rules: u64, verdict: Result<(), Fault>, counter: Counter) -> Tally {
        Tally {
            rules: self.rules.wrapping_add(rules),
            verdict,
            counter,
        }
    }
}

// As in `10 refused 0 pc 5`.
impl fmt::Display for Tally {
    fn fmt<W: fmt::Write>(&self, f: &mut fmt::Formatter<W>) -> fmt::Result {
        let refusal = self.verdict.err().map_or(0, |fault| fault.refusal.number());
        write!(f, "{} refused {refusal} pc ", self.rules)?;
        match self.counter {
            Counter::At(a) => write!(f, "{}", a.0),
            Counter::Stall => write!(f, "stall"),
        }
    }
}

// Copies as many bytes as both have.
fn restore(from: &[u8], to: &mut [u8]) {
    let n = from.len().min(to.len());
    to[..n].copy_from_slice(&from[..n]);
}

// The three loops are written out: with the part as a closure, the answer's place is cleared again at each repetition.
pub fn runs(times: u32, program: &[u8], kept: &[u8], memory: &mut [u8], schedule: &[u8]) -> Tally {
    let mut t = Tally::default();
    for _ in 0..times {
        restore(kept, memory);
        let ran = renaming::run(State::start(), program, memory, schedule);
        t = t.then(ran.accepted as u64, ran.verdict, ran.state.counter);
    }
    t
}

pub fn drains(times: u32, start: State, program: &[u8], kept: &[u8], memory: &mut [u8]) -> Tally {
    let mut t = Tally::default();
    for _ in 0..times {
        restore(kept, memory);
        let settled = renaming::drain(start, program, memory);
        t = t.then(settled.rules as u64, settled.verdict, settled.state.counter);
    }
    t
}

// The in-order run takes a 32-bit number, which the issues of every schedule that was read fit.
pub fn executions(
    times: u32,
    program: &[u8],
    kept: &[u8],
    memory: &mut [u8],
    issued: usize,
) -> Tally {
    let budget = issued.min(65536) as u32;
    let mut t = Tally::default();
    for _ in 0..times {
        restore(kept, memory);
        let ran = InOrder::start().run(program, memory, budget);
        t = t.then(
            u64::from(ran.executed),
            ran.stop,
            Counter::At(ran.machine.counter),
        );
    }
    t
}
