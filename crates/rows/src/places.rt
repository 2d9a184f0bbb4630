// What stands at a place: a place that is none reads as the blank, a register that is none as undefined.
ghost use Rattle.std.specs.Prelude.{◌≡◌, min, length};
ghost use Rattle.rows.specs.Rows.{row_at, kind_at, operation_at, tag_at, address_at, value_at, first_at, second_at, number_at, contents_at};

use crate::codes;
use isa::{InstrAddr, Tag};
use templates::Operand;
use value::Value;

// How many of the first n places there are. Here and in what follows rows and n are any: no type holds them together.
pub fn held(ts: &[[u64; 3]], n: usize) -> usize
    ensures { result ≡ min n (length ts.now) }
{
    n.min(ts.len())
}

pub(crate) fn row(ts: &[[u64; 3]], p: usize) -> [u64; 3]
    ensures { result ≡ row_at ts.now p }
{
    ts.get(p).copied().unwrap_or(crate::BLANK)
}

// VALUE, OP, JZ, LOAD or STORE.
pub fn kind(ts: &[[u64; 3]], p: usize) -> u8
    ensures { result ≡ kind_at ts.now p }
{
    codes::kind_of(row(ts, p)[0])
}

// The operation of an Op.
pub fn operation(ts: &[[u64; 3]], p: usize) -> u8
    ensures { result ≡ operation_at ts.now p }
{
    (row(ts, p)[0] / 8 % 256) as u8
}

// The tag that it makes; 0 if it makes none.
pub fn tag(ts: &[[u64; 3]], p: usize) -> Tag
    ensures { result ≡ tag_at ts.now p }
{
    codes::tag_of(row(ts, p)[0])
}

pub fn address(ts: &[[u64; 3]], p: usize) -> InstrAddr
    ensures { result ≡ address_at ts.now p }
{
    InstrAddr((row(ts, p)[0] / 4294967296 % 4294967296) as u32)
}

// The value of a value template.
pub fn value(ts: &[[u64; 3]], p: usize) -> Value
    ensures { result ≡ value_at ts.now p }
{
    codes::value_of(row(ts, p)[1])
}

pub fn first(ts: &[[u64; 3]], p: usize) -> Operand
    ensures { result ≡ first_at ts.now p }
{
    codes::operand_of(row(ts, p)[1])
}

pub fn second(ts: &[[u64; 3]], p: usize) -> Operand
    ensures { result ≡ second_at ts.now p }
{
    codes::operand_of(row(ts, p)[2])
}

pub(crate) fn number(rf: &[u64], i: usize) -> u64
    ensures { result ≡ number_at rf.now i }
{
    rf.get(i).copied().unwrap_or(crate::UNDEFINED)
}

// What a register holds.
pub fn contents(rf: &[u64], i: usize) -> Operand
    ensures { result ≡ contents_at rf.now i }
{
    codes::operand_of(number(rf, i))
}
