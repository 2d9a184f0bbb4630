// The listing of a program as text.
#![tactic(auto)]

ghost use Rattle.std.specs.Prelude.{◌≡◌, ◌≤◌, length};
ghost use Rattle.text.specs.Page.{Adds};
ghost use Rattle.listing.specs.Listing.{name_text, reg_text, pair_text, body_text, line_text, listing, checked, Lists};

use isa::{Instr, InstrAddr, Reg};
use records::{Fault, Refusal};
use text::Page;

// The bytes that the buffer needs for each instruction: no line is longer.
const ROOM: usize = 31;

// The name of an operation; 4 and up is Less.
fn put_name(page: &mut Page, operation: u8)
    ensures { Adds page.old (name_text operation) page.new }
{
    match operation {
        0 => page.put(b"Add"),
        1 => page.put(b"Sub"),
        2 => page.put(b"Mul"),
        3 => page.put(b"Div"),
        _ => page.put(b"Less"),
    }
}

fn put_reg(page: &mut Page, r: Reg)
    ensures { Adds page.old (reg_text r) page.new }
{
    page.put(b"r");
    page.put_decimal(u64::from(r.0));
}

// Two registers in brackets.
fn put_pair(page: &mut Page, r1: Reg, r2: Reg)
    ensures { Adds page.old (pair_text r1 r2) page.new }
{
    page.put(b"(");
    put_reg(page, r1);
    page.put(b",");
    put_reg(page, r2);
    page.put(b")");
}

fn put_loadc(page: &mut Page, r: Reg, k: u32)
    ensures { Adds page.old (body_text (Instr.Loadc r k)) page.new }
{
    put_reg(page, r);
    page.put(b" := Loadc(");
    page.put_decimal(u64::from(k));
    page.put(b")");
}

fn put_op(page: &mut Page, r: Reg, operation: u8, r1: Reg, r2: Reg)
    ensures { Adds page.old (body_text (Instr.Op r operation r1 r2)) page.new }
{
    put_reg(page, r);
    page.put(b" := ");
    put_name(page, operation);
    put_pair(page, r1, r2);
}

fn put_load(page: &mut Page, r: Reg, r1: Reg)
    ensures { Adds page.old (body_text (Instr.Load r r1)) page.new }
{
    put_reg(page, r);
    page.put(b" := Load(");
    put_reg(page, r1);
    page.put(b")");
}

fn put_body(page: &mut Page, i: Instr)
    ensures { Adds page.old (body_text i) page.new }
{
    match i {
        Instr::Loadc(r, k) => put_loadc(page, r, k),
        Instr::Loadpc(r) => {
            put_reg(page, r);
            page.put(b" := Loadpc");
        }
        Instr::Op(r, operation, r1, r2) => put_op(page, r, operation, r1, r2),
        Instr::Jz(r1, r2) => {
            page.put(b"Jz");
            put_pair(page, r1, r2);
        }
        Instr::Load(r, r1) => put_load(page, r, r1),
        Instr::Store(r1, r2) => {
            page.put(b"Store");
            put_pair(page, r1, r2);
        }
    }
}

fn put_line(page: &mut Page, address: u32, i: Instr)
    ensures { Adds page.old (line_text address i) page.new }
{
    page.put_decimal(u64::from(address));
    page.put(b": ");
    put_body(page, i);
    page.put(b"\n");
}

// The lines of a program, as far as its records are well formed.
fn put_lines(page: &mut Page, program: &[u8])
    requires { length program.now ≤ 8192 }
    ensures { Adds page.old (listing program.now) page.new }
{
    for address in 0..(program.len() / 8) as u32 {
        let Ok(i) = isa::fetch(program, InstrAddr(address)) else {
            return;
        };
        put_line(page, address, i);
    }
}

// The buffer's length is judged before the records.
fn check(program: &[u8], space: usize) -> Result<(), Fault>
    ensures { result ≡ checked program.now space }
{
    if space / ROOM < program.len() / 8 {
        return Err(Fault::from(Refusal::BadLength));
    }
    isa::scan(program)
}

// Writes the listing of a program, if it is well formed and each line is sure to have room; answers the bytes written.
pub fn list(program: &[u8], out: &mut [u8]) -> Result<usize, Fault>
    ensures { Lists program.now out.old result out.new }
{
    check(program, out.len())?;
    let mut page = Page { out, at: 0 };
    put_lines(&mut page, program);
    Ok(page.at)
}
