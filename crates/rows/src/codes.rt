// One number for an operand, and three for a template.
ghost use Rattle.std.specs.Prelude.{◌≡◌, ◌<◌};
ghost use Rattle.templates.specs.Layout.{itb};
ghost use Rattle.rows.specs.Rows.{waiting, value_of, operand_of, head_of, kind_of, tag_of};
ghost use Rattle.rows.specs.Answers.{CodesValue, Codes, CodesRow};

use isa::{InstrAddr, Tag};
use templates::{Operand, Template, Work};
use value::Value;

// From here on stand the tags.
const FIRST_TAG: u64 = 4294967297;

// ---- coded

pub(crate) fn coded_value(v: Value) -> u64
    ensures { CodesValue v result }
{
    match v {
        Value::Undefined => crate::UNDEFINED,
        Value::Word(w) => w as u64,
    }
}

pub(crate) fn waiting(t: Tag) -> u64
    ensures { result ≡ waiting t }
{
    FIRST_TAG + t.0 as u64
}

// The number of an operand, as a register holds it.
pub fn coded(o: Operand) -> u64
    ensures { Codes o result }
{
    match o {
        Operand::Known(v) => coded_value(v),
        Operand::Waits(t) => waiting(t),
    }
}

pub(crate) fn head(kind: u8, operation: u8, t: Tag, at: InstrAddr) -> u64
    requires { kind < 8 }
    ensures { result ≡ head_of kind operation t at }
{
    kind as u64 + 8 * (operation as u64) + 2048 * (t.0 as u64) + 4294967296 * (at.0 as u64)
}

// The row of a template. Compiled into its callers, as `put` is: by a call each row goes through memory twice more.
#[inline(always)]
pub fn row(x: Template) -> [u64; 3]
    ensures { CodesRow (itb x) result }
{
    let at = x.address;
    match x.work {
        Work::Done(t, v) => [
            head(crate::VALUE, 0, t, at),
            coded_value(v),
            crate::UNDEFINED,
        ],
        Work::Op(t, n, a, b) => [head(crate::OP, n, t, at), coded(a), coded(b)],
        Work::Jz(a, b) => [head(crate::JZ, 0, Tag(0), at), coded(a), coded(b)],
        Work::Load(t, a) => [head(crate::LOAD, 0, t, at), coded(a), crate::UNDEFINED],
        Work::Store(a, b) => [head(crate::STORE, 0, Tag(0), at), coded(a), coded(b)],
    }
}

// ---- read back

pub(crate) fn kind_of(head: u64) -> u8
    ensures { result ≡ kind_of head }
{
    (head % 8) as u8
}

pub(crate) fn tag_of(head: u64) -> Tag
    ensures { result ≡ tag_of head }
{
    Tag((head / 2048 % 256) as u8)
}

pub(crate) fn value_of(k: u64) -> Value
    ensures { result ≡ value_of k }
{
    if k < crate::UNDEFINED {
        Value::Word(k as u32)
    } else {
        Value::Undefined
    }
}

pub(crate) fn operand_of(k: u64) -> Operand
    ensures { result ≡ operand_of k }
{
    if k <= crate::UNDEFINED {
        Operand::Known(value_of(k))
    } else {
        Operand::Waits(Tag(((k - FIRST_TAG) % 256) as u8))
    }
}
