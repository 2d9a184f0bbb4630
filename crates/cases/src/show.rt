// Prints bytes, values, instructions and states.
use isa::{Instr, Tag};
use records::{Fault, Refusal};
use std::{fmt, io};
use templates::{Operand, State, Template, Work};
use value::Value;

// What is printed in the cases' own form.
#[derive(Clone, Copy)]
pub struct Show<T>(pub T);

// The rest of a line.
impl fmt::Display for Show<&[u8]> {
    fn fmt<W: fmt::Write>(&self, f: &mut fmt::Formatter<W>) -> fmt::Result {
        for b in self.0 {
            write!(f, " {b}")?;
        }
        Ok(())
    }
}

// A refusal's number, 0 if there is none.
impl fmt::Display for Show<Result<(), Refusal>> {
    fn fmt<W: fmt::Write>(&self, f: &mut fmt::Formatter<W>) -> fmt::Result {
        match self.0 {
            Ok(()) => write!(f, "0"),
            Err(refusal) => write!(f, "{}", refusal.number()),
        }
    }
}

// The same, and the number of the record that it is about.
impl fmt::Display for Show<Result<(), Fault>> {
    fn fmt<W: fmt::Write>(&self, f: &mut fmt::Formatter<W>) -> fmt::Result {
        match self.0 {
            Ok(()) => write!(f, "0 record 0"),
            Err(fault) => write!(f, "{} record {}", fault.refusal.number(), fault.number),
        }
    }
}

// By the fields of its record, 0 where it has none.
impl fmt::Display for Show<Instr> {
    fn fmt<W: fmt::Write>(&self, f: &mut fmt::Formatter<W>) -> fmt::Result {
        match self.0 {
            Instr::Loadc(r, k) => write!(f, "Loadc {} 0 0 {k}", r.0),
            Instr::Loadpc(r) => write!(f, "Loadpc {} 0 0 0", r.0),
            Instr::Op(r, n, r1, r2) => write!(f, "Op {} {} {} {n}", r.0, r1.0, r2.0),
            Instr::Jz(r1, r2) => write!(f, "Jz 0 {} {} 0", r1.0, r2.0),
            Instr::Load(r, r1) => write!(f, "Load {} {} 0 0", r.0, r1.0),
            Instr::Store(r1, r2) => write!(f, "Store 0 {} {} 0", r1.0, r2.0),
        }
    }
}

// A dash where it is undefined.
impl fmt::Display for Show<Value> {
    fn fmt<W: fmt::Write>(&self, f: &mut fmt::Formatter<W>) -> fmt::Result {
        match self.0 {
            Value::Undefined => write!(f, "-"),
            Value::Word(w) => write!(f, "{w}"),
        }
    }
}

impl fmt::Display for Show<Operand> {
    fn fmt<W: fmt::Write>(&self, f: &mut fmt::Formatter<W>) -> fmt::Result {
        match self.0 {
            Operand::Known(v) => write!(f, "{}", Show(v)),
            Operand::Waits(t) => write!(f, "t{}", t.0),
        }
    }
}

impl fmt::Display for Show<Result<Instr, Refusal>> {
    fn fmt<W: fmt::Write>(&self, f: &mut fmt::Formatter<W>) -> fmt::Result {
        match self.0 {
            Ok(i) => write!(f, "{}", Show(i)),
            Err(refusal) => write!(f, "refused {}", refusal.number()),
        }
    }
}

impl fmt::Display for Show<Result<Value, Refusal>> {
    fn fmt<W: fmt::Write>(&self, f: &mut fmt::Formatter<W>) -> fmt::Result {
        match self.0 {
            Ok(v) => write!(f, "{}", Show(v)),
            Err(refusal) => write!(f, "refused {}", refusal.number()),
        }
    }
}

// The address, then the rest as in `12: Op 3 0 t1 -`: the tag and the operation are 0, and the operands undefined, where it has none.
impl fmt::Display for Show<Template> {
    fn fmt<W: fmt::Write>(&self, f: &mut fmt::Formatter<W>) -> fmt::Result {
        let none = Operand::Known(value::UNDEFINED);
        let (name, tag, operation, first, second) = match self.0.work {
            Work::Done(t, v) => ("value", t, 0, Operand::Known(v), none),
            Work::Op(t, n, a, b) => ("Op", t, n, a, b),
            Work::Jz(a, b) => ("Jz", Tag(0), 0, a, b),
            Work::Load(t, a) => ("Load", t, 0, a, none),
            Work::Store(a, b) => ("Store", Tag(0), 0, a, b),
        };
        write!(f, "{}: {name} {} {operation}", self.0.address.0, tag.0)?;
        write!(f, " {} {}", Show(first), Show(second))
    }
}

// Counter, registers and cells as the report has them; nothing where the memory isn't whole cells.
pub fn contents(rt: &impl Print, s: State, memory: &[u8]) -> io::Result<()> {
    let mut out = [0u8; report::ROOM];
    let Ok(n) = report::contents(s, memory, &mut out) else {
        return Ok(());
    };
    rt.write_all(&out[..n])
}

pub fn state(rt: &impl Print, s: State, memory: &[u8]) -> io::Result<()> {
    for template in s.templates.iter().take(s.count) {
        println!(rt; "{}", Show(*template))?;
    }
    contents(rt, s, memory)
}
