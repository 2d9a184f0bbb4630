// What a case answers, by its kind.
use crate::show::Show;
use crate::{bytes, show, states};
use inorder::InOrder;
use isa::{DataAddr, InstrAddr};
use records::Record;
use std::io;
use templates::State;

fn report(rt: &impl Print, program: &[u8], memory: &mut [u8], schedule: &[u8]) -> io::Result<()> {
    let mut out = [0u8; report::ROOM];
    let Ok(n) = report::report(program, memory, schedule, &mut out) else {
        return Ok(());
    };
    rt.write_all(&out[..n])
}

fn in_order(rt: &impl Print, program: &[u8], memory: &mut [u8], budget: u32) -> io::Result<()> {
    let ran = InOrder::start().run(program, memory, budget);
    println!(rt; "executed {} stop {}", ran.executed, Show(ran.stop))?;
    show::contents(rt, states::of_machine(ran.machine), memory)
}

fn drain(rt: &impl Print, program: &[u8], memory: &mut [u8], state: State) -> io::Result<()> {
    let settled = renaming::drain(state, program, memory);
    print!(rt; "drained {} address {}", settled.rules, settled.address.0)?;
    println!(rt; " refused {}", Show(settled.verdict))?;
    show::state(rt, settled.state, memory)
}

fn run_and_drain(
    rt: &impl Print,
    program: &[u8],
    memory: &mut [u8],
    schedule: &[u8],
    given: &[u8],
) -> io::Result<()> {
    let ran = renaming::run(states::read(given), program, memory, schedule);
    print!(rt; "accepted {} issued {}", ran.accepted, ran.issued)?;
    println!(rt; " refused {}", Show(ran.verdict))?;
    show::state(rt, ran.state, memory)?;
    drain(rt, program, memory, ran.state)
}

// The last record may be short.
fn steps(
    rt: &impl Print,
    program: &[u8],
    memory: &mut [u8],
    schedule: &[u8],
    given: &[u8],
) -> io::Result<()> {
    let mut state = states::read(given);
    for record in schedule.chunks(4) {
        let stepped = renaming::step(state, program, memory, record);
        println!(rt; "refused {}", Show(stepped.verdict))?;
        show::state(rt, stepped.state, memory)?;
        state = stepped.state;
    }
    Ok(())
}

fn look(rt: &impl Print, program: &[u8], memory: &[u8], address: u32) -> io::Result<()> {
    println!(rt; "read {}", Show(isa::read(program)))?;
    println!(rt; "fetch {}", Show(isa::fetch(program, InstrAddr(address))))?;
    println!(rt; "program {}", Show(isa::scan(program)))?;
    println!(rt; "memory {}", Show(cells::scan(memory)))?;
    println!(rt; "load {}", Show(cells::load(memory, DataAddr(address))))
}

fn write(rt: &impl Print, out: &mut [u8], given: &[u8]) -> io::Result<()> {
    let written = isa::write(states::instruction_of(bytes::record(given, 0)), out);
    println!(rt; "write {}{}", Show(written), Show(&out[..]))
}

fn store(rt: &impl Print, memory: &mut [u8], address: u32, given: &[u8]) -> io::Result<()> {
    let v = states::value_of(bytes::record(given, 0));
    let stored = cells::store(memory, DataAddr(address), v);
    println!(rt; "store {}{}", Show(stored), Show(&memory[..]))
}

fn list(rt: &impl Print, program: &[u8], out: &mut [u8]) -> io::Result<()> {
    let listed = listing::list(program, out);
    let written = listed.unwrap_or(0);
    println!(rt; "listed {} bytes {written}", Show(listed.map(|_| ())))?;
    rt.write_all(out)?;
    println!(rt)
}

fn operate(rt: &impl Print, operation: u8, given: &[u8]) -> io::Result<()> {
    let a = states::value_of(bytes::record(given, 0));
    let b = states::value_of(bytes::record(given, 1));
    println!(rt; "result {}", Show(value::operate(operation, a, b)))
}

pub fn print(
    rt: &impl Print,
    head: Record,
    program: &[u8],
    memory: &mut [u8],
    schedule: &[u8],
    given: &[u8],
) -> io::Result<()> {
    match head.b0 {
        0 => report(rt, program, memory, schedule),
        1 => in_order(rt, program, memory, head.word),
        2 => run_and_drain(rt, program, memory, schedule, given),
        3 => steps(rt, program, memory, schedule, given),
        4 => look(rt, program, memory, head.word),
        5 => write(rt, memory, given),
        6 => store(rt, memory, head.word, given),
        7 => list(rt, program, memory),
        _ => operate(rt, head.b1, given),
    }
}
