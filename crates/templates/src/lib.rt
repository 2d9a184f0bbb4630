// The renaming machine's state: templates, registers and counter; and one template's leaves.
#![tactic(auto)]

ghost use Rattle.std.specs.Prelude.{◌≡◌};
ghost use Rattle.templates.specs.Machine.{start};
ghost use Rattle.templates.specs.Layout.{state_of};

use isa::{InstrAddr, Tag};
use value::Value;

pub mod leaf;

// The places of the table.
pub const PLACES: usize = 64;

// The most templates that a machine has room for.
pub const ROOM: usize = 64;

// Tags are 1 to this one.
pub const LAST_TAG: u8 = 64;

// The numbers of tags, with 0 for none.
pub const TAGS: usize = 65;

// What a register or an operand holds: a value, or the tag that it waits for. No Result: to wait is no error.
#[derive(Clone, Copy, PartialEq, Eq)]
pub enum Operand {
    Known(Value),
    Waits(Tag),
}

// What a template still has to do; a value template is done. An operation is a number, as in the instruction.
#[derive(Clone, Copy, PartialEq, Eq)]
pub enum Work {
    Done(Tag, Value),
    Op(Tag, u8, Operand, Operand),
    Jz(Operand, Operand),
    Load(Tag, Operand),
    Store(Operand, Operand),
}

#[derive(Clone, Copy, PartialEq, Eq)]
pub struct Template {
    pub address: InstrAddr,
    pub work: Work,
}

#[derive(Clone, Copy, PartialEq, Eq)]
pub struct Register {
    pub holds: Operand,
}

// No Option: a stalled counter is one of the memo's, and no absence of one.
#[derive(Clone, Copy, PartialEq, Eq)]
pub enum Counter {
    At(InstrAddr),
    Stall,
}

// The first `count` places of the table hold the templates, the oldest first; the others are blank: memory is fixed.
#[derive(Clone, Copy, PartialEq, Eq)]
pub struct State {
    pub counter: Counter,
    pub registers: [Register; isa::REGISTERS],
    pub templates: [Template; PLACES],
    pub count: usize,
}

impl State {
    pub fn start() -> State
        ensures { result ≡ state_of start }
    {
        State {
            counter: Counter::At(InstrAddr(0)),
            registers: [Register {
                holds: Operand::Known(value::UNDEFINED),
            }; isa::REGISTERS],
            templates: [leaf::blank(); PLACES],
            count: 0,
        }
    }
}
