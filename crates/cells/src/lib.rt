// Memory: cells of 8 bytes in a lent buffer.
#![tactic(auto)]

ghost use Rattle.std.specs.Prelude.{◌≡◌, ◌^◌, ◌<◌};
ghost use Rattle.cells.specs.Cells.{value_of, is_cell, record_of, cells, scan_of, load_from, Stores};

use isa::DataAddr;
use records::{Fault, Form, Record, Refusal};
use value::Value;

fn value_of(r: Record) -> Value
    ensures { result ≡ value_of r }
{
    if r.b0 == 1 {
        Value::Word(r.word)
    } else {
        value::UNDEFINED
    }
}

fn is_cell(r: Record) -> bool
    ensures { result ≡ is_cell r }
{
    (r.b1 == 0) & (r.b2 == 0) & (r.b3 == 0) & ((r.b0 == 1) | ((r.b0 == 0) & (r.word == 0)))
}

fn record_of(v: Value) -> Record
    ensures { (result ≡ record_of v) × (result.word < 2 ^ 32) }
{
    match v {
        Value::Undefined => Record {
            b0: 0,
            b1: 0,
            b2: 0,
            b3: 0,
            word: 0,
        },
        Value::Word(w) => Record {
            b0: 1,
            b1: 0,
            b2: 0,
            b3: 0,
            word: w,
        },
    }
}

// The records of a memory.
struct MemoryForm;

impl Form for MemoryForm {
    ghost use Rattle.records.specs.declared.Refusal.TheVariants.{BadCell};
    ghost use Rattle.cells.specs.Cells.{is_cell};

    ghost right = { is_cell };

    ghost REFUSAL = { BadCell };

    const REFUSAL: Refusal = Refusal::BadCell;

    fn is_right(r: Record) -> bool {
        is_cell(r)
    }
}

#[tactic(auto, unfolding(crate::specs::Cells::scan_of))]
pub fn scan(memory: &[u8]) -> Result<(), Fault>
    ensures { result ≡ scan_of memory.now }
{
    records::scan::<MemoryForm>(memory)
}

pub fn load(memory: &[u8], at: DataAddr) -> Result<Value, Refusal>
    ensures { result ≡ load_from (cells memory.now) at }
{
    match records::read(memory, at.0 as usize) {
        Some(r) => Ok(value_of(r)),
        None => Err(Refusal::Outside),
    }
}

// Writes the cell, if memory has it.
pub fn store(memory: &mut [u8], at: DataAddr, v: Value) -> Result<(), Refusal>
    ensures { Stores memory.old at v result memory.new }
{
    let number = at.0 as usize;
    if number >= memory.len() / 8 {
        return Err(Refusal::Outside);
    }
    records::write(memory, number, record_of(v));
    Ok(())
}
