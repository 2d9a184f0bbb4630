// The AX instruction set: its four spaces, its instructions, their records, and the scan of a program.
#![tactic(auto)]

ghost use Rattle.std.specs.Prelude.{◌≡◌};
ghost use Rattle.isa.specs.Instruction.{is_reg, is_formed, if_formed, parse, spelled, read_of, record_of};
ghost use Rattle.isa.specs.Program.{fetched, decoded, scan_of, Wrote};

use records::{Fault, Form, Record, Refusal};

// Registers are 0 to one below this.
pub const REGISTERS: usize = 32;

// Operations are 0 to this one.
pub const LAST_OPERATION: u8 = 4;

// A place in the program.
#[derive(Clone, Copy, PartialEq, Eq)]
pub struct InstrAddr(pub u32);

// A place in memory.
#[derive(Clone, Copy, PartialEq, Eq)]
pub struct DataAddr(pub u32);

// The name of a register.
#[derive(Clone, Copy, PartialEq, Eq)]
pub struct Reg(pub u8);

// A renaming tag; 0 means no tag.
#[derive(Clone, Copy, PartialEq, Eq)]
pub struct Tag(pub u8);

// The destination stands first, as in the listing. An operation is a number: one over the last is malformed, and refused.
#[derive(Clone, Copy, PartialEq, Eq)]
pub enum Instr {
    Loadc(Reg, u32),
    Loadpc(Reg),
    Op(Reg, u8, Reg, Reg),
    Jz(Reg, Reg),
    Load(Reg, Reg),
    Store(Reg, Reg),
}

fn is_reg(r: Reg) -> bool
    ensures { result ≡ is_reg r }
{
    (r.0 as usize) < REGISTERS
}

fn is_formed(i: Instr) -> bool
    ensures { result ≡ is_formed i }
{
    match i {
        Instr::Loadc(r, _) => is_reg(r),
        Instr::Loadpc(r) => is_reg(r),
        Instr::Op(r, op, r1, r2) => is_reg(r) & is_reg(r1) & is_reg(r2) & (op <= LAST_OPERATION),
        Instr::Jz(r1, r2) => is_reg(r1) & is_reg(r2),
        Instr::Load(r, r1) => is_reg(r) & is_reg(r1),
        Instr::Store(r1, r2) => is_reg(r1) & is_reg(r2),
    }
}

// The instruction, if the bytes that it doesn't use are zero and it is well formed.
fn if_formed(unused: bool, i: Instr) -> Result<Instr, Refusal>
    ensures { result ≡ if_formed unused i }
{
    if unused & is_formed(i) {
        Ok(i)
    } else {
        Err(Refusal::BadInstruction)
    }
}

#[tactic(auto, unfolding(crate::specs::Instruction::parse))]
fn parse(r: Record) -> Result<Instr, Refusal>
    ensures { result ≡ parse r }
{
    let k = r.word;
    match r.b0 {
        1 => if_formed((r.b2 == 0) & (r.b3 == 0), Instr::Loadc(Reg(r.b1), k)),
        2 => if_formed(
            (r.b2 == 0) & (r.b3 == 0) & (k == 0),
            Instr::Loadpc(Reg(r.b1)),
        ),
        3 => {
            if k > LAST_OPERATION as u32 {
                return Err(Refusal::BadInstruction);
            }
            if_formed(true, Instr::Op(Reg(r.b1), k as u8, Reg(r.b2), Reg(r.b3)))
        }
        4 => if_formed((r.b1 == 0) & (k == 0), Instr::Jz(Reg(r.b2), Reg(r.b3))),
        5 => if_formed((r.b3 == 0) & (k == 0), Instr::Load(Reg(r.b1), Reg(r.b2))),
        6 => if_formed((r.b1 == 0) & (k == 0), Instr::Store(Reg(r.b2), Reg(r.b3))),
        _ => Err(Refusal::BadInstruction),
    }
}

// The instruction of a record of exactly 8 bytes.
pub fn read(bytes: &[u8]) -> Result<Instr, Refusal>
    ensures { result ≡ read_of bytes.now }
{
    if bytes.len() != 8 {
        return Err(Refusal::BadLength);
    }
    match records::read(bytes, 0) {
        Some(r) => parse(r),
        None => Err(Refusal::BadLength),
    }
}

// The instruction at an address of a program.
pub fn fetch(program: &[u8], at: InstrAddr) -> Result<Instr, Refusal>
    ensures { result ≡ fetched program.now at }
{
    match records::read(program, at.0 as usize) {
        Some(r) => parse(r),
        None => Err(Refusal::NoInstruction),
    }
}

// What the fields spell: neither registers nor unused bytes are judged, and no instruction is made of another code or operation.
#[tactic(auto, unfolding(crate::specs::Instruction::spelled))]
fn spelled(r: Record) -> Result<Instr, Refusal>
    ensures { result ≡ spelled r }
{
    match r.b0 {
        1 => Ok(Instr::Loadc(Reg(r.b1), r.word)),
        2 => Ok(Instr::Loadpc(Reg(r.b1))),
        3 => {
            if r.word > LAST_OPERATION as u32 {
                return Err(Refusal::BadInstruction);
            }
            Ok(Instr::Op(Reg(r.b1), r.word as u8, Reg(r.b2), Reg(r.b3)))
        }
        4 => Ok(Instr::Jz(Reg(r.b2), Reg(r.b3))),
        5 => Ok(Instr::Load(Reg(r.b1), Reg(r.b2))),
        6 => Ok(Instr::Store(Reg(r.b2), Reg(r.b3))),
        _ => Err(Refusal::BadInstruction),
    }
}

// The instruction at an address of a program that was scanned: its form is not judged again.
pub fn decode(program: &[u8], at: InstrAddr) -> Result<Instr, Refusal>
    ensures { result ≡ decoded program.now at }
{
    match records::read(program, at.0 as usize) {
        Some(r) => spelled(r),
        None => Err(Refusal::NoInstruction),
    }
}

fn record_of(i: Instr) -> Record
    ensures { result ≡ record_of i }
{
    let (b0, b1, b2, b3, word) = match i {
        Instr::Loadc(r, k) => (1, r.0, 0, 0, k),
        Instr::Loadpc(r) => (2, r.0, 0, 0, 0),
        Instr::Op(r, op, r1, r2) => (3, r.0, r1.0, r2.0, op as u32),
        Instr::Jz(r1, r2) => (4, 0, r1.0, r2.0, 0),
        Instr::Load(r, r1) => (5, r.0, r1.0, 0, 0),
        Instr::Store(r1, r2) => (6, 0, r1.0, r2.0, 0),
    };
    Record {
        b0,
        b1,
        b2,
        b3,
        word,
    }
}

// Writes the record into the first 8 bytes.
pub fn write(i: Instr, out: &mut [u8]) -> Result<(), Refusal>
    ensures { Wrote i out.old result out.new }
{
    if out.len() < 8 {
        return Err(Refusal::BadLength);
    }
    if !is_formed(i) {
        return Err(Refusal::BadInstruction);
    }
    records::write(out, 0, record_of(i));
    Ok(())
}

// The records of a program.
struct ProgramForm;

impl Form for ProgramForm {
    ghost use Rattle.records.specs.declared.Refusal.TheVariants.{BadInstruction};
    ghost use Rattle.isa.specs.Program.{is_instr};

    ghost right = { is_instr };

    ghost REFUSAL = { BadInstruction };

    const REFUSAL: Refusal = Refusal::BadInstruction;

    fn is_right(r: Record) -> bool {
        parse(r).is_ok()
    }
}

#[tactic(auto, unfolding(crate::specs::Program::scan_of))]
pub fn scan(program: &[u8]) -> Result<(), Fault>
    ensures { result ≡ scan_of program.now }
{
    records::scan::<ProgramForm>(program)
}
