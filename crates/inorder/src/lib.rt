// The in-order machine: one small record, taken and handed back whole by each step.
#![tactic(auto)]

ghost use Rattle.std.specs.Prelude.{◌≡◌, ◌<◌};
ghost use Rattle.records.specs.Scan.{accepted};
ghost use Rattle.isa.specs.Program.{scan_of};
ghost use Rattle.kernel.specs.Kernel.{next, branch};
ghost use Rattle.inorder.specs.Machine.{start, held, put, with};
ghost use Rattle.inorder.specs.Entries.{entered, Steps, Runs, Turns, Goes};

use isa::{Instr, InstrAddr, REGISTERS, Reg};
use records::{Fault, Refusal};
use value::Value;

#[derive(Clone, Copy, PartialEq, Eq)]
pub struct Register {
    pub value: Value,
}

#[derive(Clone, Copy)]
pub struct InOrder {
    pub counter: InstrAddr,
    pub registers: [Register; REGISTERS],
}

// The machine after a step, and its stop.
#[derive(Clone, Copy)]
pub struct Stepped {
    pub machine: InOrder,
    pub stop: Result<(), Fault>,
}

// The same after a run, with how many instructions were executed.
#[derive(Clone, Copy)]
pub struct Ran {
    pub machine: InOrder,
    pub executed: u32,
    pub stop: Result<(), Fault>,
}

// Where a Jz at an address goes.
fn jump(at: InstrAddr, condition: Value, to: Value) -> Result<InstrAddr, Refusal>
    requires { at.0 < 1024 }
    ensures { result ≡ branch at condition to }
{
    match condition {
        Value::Undefined => Err(Refusal::IsUndefined),
        Value::Word(0) => kernel::target(to),
        Value::Word(_) => Ok(InstrAddr(at.0 + 1)),
    }
}

impl InOrder {
    pub fn start() -> InOrder
        ensures { result ≡ start }
    {
        InOrder {
            counter: InstrAddr(0),
            registers: [Register {
                value: value::UNDEFINED,
            }; REGISTERS],
        }
    }

    // The checks of step and run, of any machine.
    pub fn enter(self, program: &[u8], memory: &[u8]) -> Result<(), Fault>
        ensures { result ≡ entered program.now memory.now self }
    {
        kernel::check(program, memory)
    }

    fn held(&self, r: Reg) -> Value
        requires { r.0 < 32 }
        ensures { result ≡ held self.now.registers r }
    {
        self.registers[r.0 as usize].value
    }

    // Writes a register and goes on at the next address.
    fn put(&mut self, r: Reg, value: Value)
        requires register { r.0 < 32 }
        requires inside { self.old.counter.0 < 1024 }
        ensures { self.new ≡ with self.old (next self.old.counter) (put self.old.registers r value) }
    {
        self.registers[r.0 as usize] = Register { value };
        self.counter = InstrAddr(self.counter.0 + 1);
    }

    // One instruction of a program and a memory that were checked; a stop leaves the machine as it is.
    fn turn(&mut self, program: &[u8], memory: &mut [u8]) -> Result<(), Refusal>
        requires { scan_of program.now ≡ accepted }
        ensures { Turns program.now self.old memory.old result self.new memory.new }
    {
        let at = self.counter;
        match isa::decode(program, at)? {
            Instr::Loadc(r, k) => self.put(r, Value::Word(k)),
            Instr::Loadpc(r) => self.put(r, Value::Word(at.0)),
            Instr::Op(r, operation, r1, r2) => {
                let v = value::operate(operation, self.held(r1), self.held(r2));
                self.put(r, v);
            }
            Instr::Jz(r1, r2) => self.counter = jump(at, self.held(r1), self.held(r2))?,
            Instr::Load(r, r1) => {
                let v = kernel::read_at(memory, self.held(r1))?;
                self.put(r, v);
            }
            Instr::Store(r1, r2) => {
                kernel::write_at(memory, self.held(r1), self.held(r2))?;
                self.counter = InstrAddr(at.0 + 1);
            }
        }
        Ok(())
    }

    // The run of a program and a memory that were checked, on one machine that is changed in place.
    fn go(self, program: &[u8], memory: &mut [u8], budget: u32) -> Ran
        requires { scan_of program.now ≡ accepted }
        ensures { Goes program.now self memory.old budget result memory.new }
    {
        let mut machine = self;
        for executed in 0..budget {
            if let Err(why) = machine.turn(program, memory) {
                return Ran {
                    machine,
                    executed,
                    stop: Err(Fault::from(why)),
                };
            }
        }
        Ran {
            machine,
            executed: budget,
            stop: Ok(()),
        }
    }

    pub fn run(self, program: &[u8], memory: &mut [u8], budget: u32) -> Ran
        ensures { Runs program.now self memory.old budget result memory.new }
    {
        match self.enter(program, memory) {
            Ok(()) => self.go(program, memory, budget),
            Err(fault) => Ran {
                machine: self,
                executed: 0,
                stop: Err(fault),
            },
        }
    }

    // A run of one.
    pub fn step(self, program: &[u8], memory: &mut [u8]) -> Stepped
        ensures { Steps program.now self memory.old result memory.new }
    {
        let ran = self.run(program, memory, 1);
        Stepped {
            machine: ran.machine,
            stop: ran.stop,
        }
    }
}
