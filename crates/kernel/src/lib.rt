// What both machines share: the checks of program and memory, and what an instruction does once its operands are values.
#![tactic(auto)]

ghost use Rattle.std.specs.Prelude.{◌≡◌};
ghost use Rattle.cells.specs.Cells.{cells};
ghost use Rattle.kernel.specs.Checks.{checked};
ghost use Rattle.kernel.specs.Kernel.{read_at, Writes, target};

use isa::{DataAddr, InstrAddr};
use records::{Fault, Refusal};
use value::Value;

// The lengths of both buffers, then the program's records, then memory's.
pub fn check(program: &[u8], memory: &[u8]) -> Result<(), Fault>
    ensures { result ≡ checked program.now memory.now }
{
    if !(records::is_whole(program) & records::is_whole(memory)) {
        return Err(Fault::from(Refusal::BadLength));
    }
    isa::scan(program)?;
    cells::scan(memory)
}

pub fn read_at(memory: &[u8], address: Value) -> Result<Value, Refusal>
    ensures { result ≡ read_at (cells memory.now) address }
{
    match address {
        Value::Word(w) => cells::load(memory, DataAddr(w)),
        Value::Undefined => Err(Refusal::IsUndefined),
    }
}

// Writes the cell, if the address is one of memory's.
pub fn write_at(memory: &mut [u8], address: Value, v: Value) -> Result<(), Refusal>
    ensures { Writes memory.old address v result memory.new }
{
    match address {
        Value::Word(w) => cells::store(memory, DataAddr(w), v),
        Value::Undefined => Err(Refusal::IsUndefined),
    }
}

pub fn target(v: Value) -> Result<InstrAddr, Refusal>
    ensures { result ≡ target v }
{
    match v {
        Value::Word(w) => Ok(InstrAddr(w)),
        Value::Undefined => Err(Refusal::IsUndefined),
    }
}
