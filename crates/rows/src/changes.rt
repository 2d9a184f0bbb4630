// Changes: a value filled in for a tag, a register set, a template put.
ghost use Rattle.std.specs.Prelude.{◌≡◌, ◌≤◌, length};
ghost use Rattle.rows.specs.Rows.{fill_number, fill_row, among, map_from, filled_behind};
ghost use Rattle.rows.specs.Answers.{Fills, Holds, Puts};

use crate::{codes, places};
use isa::{Reg, Tag};
use templates::{Operand, Template};
use value::Value;

fn filled(x: u64, tag: u64, v: u64) -> u64
    ensures { result ≡ fill_number tag v x }
{
    if x == tag { v } else { x }
}

fn fill_from(ts: &mut [[u64; 3]], n: usize, from: usize, tag: u64, v: u64)
    requires { n ≤ length ts.old }
    ensures { ts.new ≡ among n (map_from (fill_row tag v) from) ts.old }
{
    for i in from..n {
        let [head, one, two] = ts[i];
        ts[i] = [head, filled(one, tag, v), filled(two, tag, v)];
    }
}

// The value at place p filled in for its tag, in those of the first n templates that stand behind it.
pub fn fill_behind(ts: &mut [[u64; 3]], n: usize, p: usize)
    ensures { ts.new ≡ filled_behind n p ts.old }
{
    let end = places::held(ts, n);
    if p >= end {
        return;
    }
    let tag = codes::waiting(places::tag(ts, p));
    let v = places::row(ts, p)[1];
    fill_from(ts, end, p + 1, tag, v);
}

// The value filled in for the tag, in every register.
pub fn fill_registers(rf: &mut [u64], t: Tag, v: Value)
    ensures { Fills t v rf.old rf.new }
{
    let tag = codes::waiting(t);
    let k = codes::coded_value(v);
    for x in rf.iter_mut() {
        *x = filled(*x, tag, k);
    }
}

// The register holds the operand.
pub fn hold(rf: &mut [u64], r: Reg, o: Operand)
    ensures { Holds r o rf.old rf.new }
{
    let k = codes::coded(o);
    let i = r.0 as usize;
    if i < rf.len() {
        rf[i] = k;
    }
}

// The template stands at place p. Compiled into its callers: one of them is a loop over all places.
#[inline(always)]
pub fn put(ts: &mut [[u64; 3]], p: usize, x: Template)
    ensures { Puts p x ts.old ts.new }
{
    let row = codes::row(x);
    if p < ts.len() {
        ts[p] = row;
    }
}
