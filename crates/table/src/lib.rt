// The working table by what its rows stand for: read, changed, and turned from a state's templates and registers and back into them.
#![tactic(auto)]

ghost use Rattle.std.specs.Prelude.{◌≡◌};
ghost use Rattle.templates.specs.Layout.{template};
ghost use Rattle.rows.specs.Rows.{row_at, itb_of, without};
ghost use Rattle.rows.specs.Shown.{laid_templates, laid_registers};
ghost use Rattle.rows.specs.Answers.{Finishes, TurnsRegisters, TurnsTemplates};

use isa::{REGISTERS, Reg};
use templates::{Operand, PLACES, Register, Template, Work, leaf};
use value::Value;

// ---- a template

fn work(ts: &[[u64; 3]], p: usize) -> Work
    ensures { result ≡ (itb_of (row_at ts.now p)).work }
{
    let tag = rows::tag(ts, p);
    let a = rows::first(ts, p);
    let b = rows::second(ts, p);
    match rows::kind(ts, p) {
        rows::VALUE => Work::Done(tag, rows::value(ts, p)),
        rows::OP => Work::Op(tag, rows::operation(ts, p), a, b),
        rows::JZ => Work::Jz(a, b),
        rows::LOAD => Work::Load(tag, a),
        _ => Work::Store(a, b),
    }
}

// The template at place p.
pub fn template(ts: &[[u64; 3]], p: usize) -> Template
    ensures { result ≡ template (itb_of (row_at ts.now p)) }
{
    Template {
        address: rows::address(ts, p),
        work: work(ts, p),
    }
}

// ---- changes

// The first n templates without the one at place p: later ones move down a place within the one table, and the freed place is blank.
pub fn remove(ts: &mut [[u64; 3]], n: usize, p: usize)
    ensures { ts.new ≡ without n p ts.old }
{
    let end = rows::held(ts, n);
    if p < end {
        ts.copy_within(p + 1..end, p);
        ts[end - 1] = rows::BLANK;
    }
}

// The template at place p becomes a value template: tag and address stay.
pub fn finish(ts: &mut [[u64; 3]], p: usize, v: Value)
    ensures { Finishes p v ts.old ts.new }
{
    let t = rows::tag(ts, p);
    let at = rows::address(ts, p);
    let x = Template {
        address: at,
        work: Work::Done(t, v),
    };
    rows::put(ts, p, x);
}

// ---- a state's registers and templates, in and back

pub fn numbers(rf: [Register; REGISTERS]) -> [u64; REGISTERS]
    ensures { TurnsRegisters rf result }
{
    let mut out = [rows::UNDEFINED; REGISTERS];
    for (i, x) in rf.iter().enumerate() {
        rows::hold(&mut out, Reg(i as u8), x.holds);
    }
    out
}

// The working table of a state's templates, place by place, where it is to stand.
pub fn turn_in(out: &mut [[u64; 3]; PLACES], ts: &[Template; PLACES])
    ensures { TurnsTemplates ts.now out.new }
{
    for (i, &x) in ts.iter().enumerate() {
        rows::put(out, i, x);
    }
}

// The same, handed back.
pub fn rows(ts: &[Template; PLACES]) -> [[u64; 3]; PLACES]
    ensures { TurnsTemplates ts.now result }
{
    let mut out = [rows::BLANK; PLACES];
    turn_in(&mut out, ts);
    out
}

pub fn registers(rf: &[u64]) -> [Register; REGISTERS]
    ensures { result ≡ laid_registers rf.now }
{
    let mut out = [Register {
        holds: Operand::Known(value::UNDEFINED),
    }; REGISTERS];
    for i in 0..rf.len().min(REGISTERS) {
        out[i] = Register {
            holds: rows::contents(rf, i),
        };
    }
    out
}

// The first n rows as templates, laid out: the places behind them are blank.
pub fn templates(ts: &[[u64; 3]], n: usize) -> [Template; PLACES]
    ensures { result ≡ laid_templates n ts.now }
{
    let mut out = [leaf::blank(); PLACES];
    for i in 0..rows::held(ts, n).min(PLACES) {
        out[i] = template(ts, i);
    }
    out
}
