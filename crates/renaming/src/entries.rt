// Step, run and drain: the checks, the state turned into the working table once, and the table turned back once.
ghost use Rattle.std.specs.Prelude.{◌≡◌};
ghost use Rattle.records.specs.Refusal.{faulted};
ghost use Rattle.renaming.specs.Entries.{Steps, Runs, Drains};

use crate::working::Working;
use crate::{Ran, Settled, Stepped, working};
use isa::{InstrAddr, REGISTERS};
use records::{Fault, Refusal};
use templates::{PLACES, State};

// The fault of a refusal that is about no record.
fn faulted(verdict: Result<(), Refusal>) -> Result<(), Fault>
    ensures { result ≡ faulted verdict }
{
    verdict.map_err(Fault::from)
}

fn ran_not(state: State, fault: Fault) -> Ran
    ensures { result ≡ record { state = state; accepted = 0; issued = 0; verdict = Err fault } }
{
    Ran {
        state,
        accepted: 0,
        issued: 0,
        verdict: Err(fault),
    }
}

pub fn run(state: State, program: &[u8], memory: &mut [u8], records: &[u8]) -> Ran
    ensures { Runs program.now state memory.old records.now result memory.new }
{
    if records.len() % 4 != 0 {
        return ran_not(state, Fault::from(Refusal::BadLength));
    }
    // The working table takes the state in where it stands: nothing of that size is handed over.
    let mut working = Working {
        counter: state.counter,
        registers: [rows::UNDEFINED; REGISTERS],
        templates: [[0; 3]; PLACES],
        count: 0,
    };
    working.registers = table::numbers(state.registers);
    table::turn_in(&mut working.templates, &state.templates);
    if let Err(fault) = working::enter(
        &working.templates,
        &working.registers,
        state.counter,
        state.count,
        program,
        &memory[..],
    ) {
        return ran_not(state, fault);
    }
    working.count = state.count;
    let went = working.run(program, memory, records);
    Ran {
        state: working.state(),
        accepted: went.accepted,
        issued: went.issued,
        verdict: faulted(went.verdict),
    }
}

// One schedule record, of 4 bytes: the run of it.
pub fn step(state: State, program: &[u8], memory: &mut [u8], one: &[u8]) -> Stepped
    ensures { Steps program.now state memory.old one.now result memory.new }
{
    if one.len() != 4 {
        return Stepped {
            state,
            verdict: Err(Fault::from(Refusal::BadLength)),
        };
    }
    let ran = run(state, program, memory, one);
    Stepped {
        state: ran.state,
        verdict: ran.verdict,
    }
}

pub fn drain(state: State, program: &[u8], memory: &mut [u8]) -> Settled
    ensures { Drains program.now state memory.old result memory.new }
{
    // The working table takes the state in where it stands: nothing of that size is handed over.
    let mut working = Working {
        counter: state.counter,
        registers: [rows::UNDEFINED; REGISTERS],
        templates: [[0; 3]; PLACES],
        count: 0,
    };
    working.registers = table::numbers(state.registers);
    table::turn_in(&mut working.templates, &state.templates);
    if let Err(fault) = working::enter(
        &working.templates,
        &working.registers,
        state.counter,
        state.count,
        program,
        &memory[..],
    ) {
        return Settled {
            state,
            rules: 0,
            verdict: Err(fault),
            address: InstrAddr(0),
        };
    }
    working.count = state.count;
    let rules = working.drain(memory);
    Settled {
        state: working.state(),
        rules,
        verdict: faulted(working.blocking(&memory[..])),
        address: working.blocked_at(),
    }
}
