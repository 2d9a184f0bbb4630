// What the last part of a case hands over: values, an instruction, a state; and the in-order machine as a state.
ghost use Rattle.std.specs.Prelude.{◌<◌};

use crate::bytes;
use inorder::InOrder;
use isa::{Instr, InstrAddr, REGISTERS, Reg, Tag};
use records::Record;
use std::array;
use templates::{Counter, Operand, PLACES, Register, State, Template, Work};
use value::Value;

// The fields as they stand in the record, also where they are malformed; an operation has the constant's lowest byte.
pub fn instruction_of(r: Record) -> Instr {
    match r.b0 {
        1 => Instr::Loadc(Reg(r.b1), r.word),
        2 => Instr::Loadpc(Reg(r.b1)),
        3 => Instr::Op(Reg(r.b1), (r.word % 256) as u8, Reg(r.b2), Reg(r.b3)),
        4 => Instr::Jz(Reg(r.b2), Reg(r.b3)),
        5 => Instr::Load(Reg(r.b1), Reg(r.b2)),
        _ => Instr::Store(Reg(r.b2), Reg(r.b3)),
    }
}

pub fn value_of(r: Record) -> Value {
    if r.b0 == 1 {
        Value::Word(r.word)
    } else {
        value::UNDEFINED
    }
}

fn operand_of(r: Record) -> Operand {
    if r.b0 == 2 {
        Operand::Waits(Tag(r.b1))
    } else {
        Operand::Known(value_of(r))
    }
}

// The kinds by the numbers that the second model gives them; it writes none over 4.
fn work_of(head: Record, first: Record, second: Record) -> Work {
    let tag = Tag(head.b1);
    let a = operand_of(first);
    let b = operand_of(second);
    match head.b0 {
        0 => Work::Done(tag, value_of(first)),
        1 => Work::Op(tag, head.b2, a, b),
        2 => Work::Jz(a, b),
        3 => Work::Load(tag, a),
        _ => Work::Store(a, b),
    }
}

// The counter's record comes first, then a row of four records for each place: a register, a template and its two operands.
fn template(b: &[u8], place: usize) -> Template
    requires { place < PLACES }
{
    let row = 4 * place;
    let head = bytes::record(b, row + 2);
    Template {
        address: InstrAddr(head.word),
        work: work_of(head, bytes::record(b, row + 3), bytes::record(b, row + 4)),
    }
}

// Rows that are left out are read as zeros: here an undefined register, below a blank place.
fn registers(b: &[u8]) -> [Register; REGISTERS] {
    array::from_fn(|r| Register {
        holds: operand_of(bytes::record(b, 4 * r + 1)),
    })
}

fn table(b: &[u8]) -> [Template; PLACES] {
    array::from_fn(|place| template(b, place))
}

fn counter_of(r: Record) -> Counter {
    if r.b0 == 0 {
        Counter::At(InstrAddr(r.word))
    } else {
        Counter::Stall
    }
}

// The counter and the count stand in the first record.
pub fn read(b: &[u8]) -> State {
    let r = bytes::record(b, 0);
    State {
        counter: counter_of(r),
        registers: registers(b),
        templates: table(b),
        count: r.b1 as usize,
    }
}

// The in-order machine as a state with no templates.
pub fn of_machine(m: InOrder) -> State {
    State {
        counter: Counter::At(m.counter),
        registers: m.registers.map(|r| Register {
            holds: Operand::Known(r.value),
        }),
        ..State::start()
    }
}
