// The lines of a report, each put on a page behind the one before.
#![tactic(auto)]

ghost use Rattle.std.specs.Prelude.{◌+◌, length};
ghost use Rattle.text.specs.Text.{numbered};
ghost use Rattle.lines.specs.Lines.{input_text, ran_text, drained_text, blocked_text, counter_text, value_text, operand_text, register_text, AddsWithin};

use isa::{InstrAddr, REGISTERS, Tag};
use templates::{Counter, Operand, Register};
use text::Page;
use value::Value;

// At most 35 bytes. File and refusal are numbers here and below: a line says any number that it is given.
pub fn put_input(page: &mut Page, file: u8, refusal: u8, number: usize)
    ensures { AddsWithin page.old (input_text file refusal number) 35 page.new }
{
    page.put(b"input ");
    page.put_decimal(u64::from(file));
    page.put(b" ");
    page.put_decimal(u64::from(refusal));
    page.put(b" ");
    page.put_decimal(number as u64);
    page.put(b"\n");
}

pub fn put_ran(page: &mut Page, accepted: usize, refusal: u8, issued: usize)
    ensures { AddsWithin page.old (ran_text accepted refusal issued) 70 page.new }
{
    page.put(b"accepted ");
    page.put_decimal(accepted as u64);
    page.put(b" refused ");
    page.put_decimal(u64::from(refusal));
    page.put(b"\nissued ");
    page.put_decimal(issued as u64);
    page.put(b"\n");
}

pub fn put_drained(page: &mut Page, rules: usize)
    ensures { AddsWithin page.old (drained_text rules) 29 page.new }
{
    page.put(b"drained ");
    page.put_decimal(rules as u64);
    page.put(b"\n");
}

pub fn put_blocked(page: &mut Page, address: InstrAddr, refusal: u8, rules: usize)
    ensures { AddsWithin page.old (blocked_text address refusal rules) 53 page.new }
{
    page.put(b"blocked ");
    page.put_decimal(u64::from(address.0));
    page.put(b" by ");
    page.put_decimal(u64::from(refusal));
    page.put(b" after ");
    page.put_decimal(rules as u64);
    page.put(b"\n");
}

pub fn put_counter(page: &mut Page, c: Counter)
    ensures { AddsWithin page.old (counter_text c) 14 page.new }
{
    match c {
        Counter::At(ia) => {
            page.put(b"pc ");
            page.put_decimal(u64::from(ia.0));
            page.put(b"\n");
        }
        Counter::Stall => page.put(b"pc stall\n"),
    }
}

// The name of a space, a number in it and the word there; nothing for undefined.
pub fn put_value(page: &mut Page, name: &[u8], i: u32, v: Value)
    ensures { AddsWithin page.old (value_text name.now i v) (length name.now + 22) page.new }
{
    match v {
        Value::Undefined => {}
        Value::Word(w) => {
            page.put(name);
            page.put_decimal(u64::from(i));
            page.put(b" ");
            page.put_decimal(u64::from(w));
            page.put(b"\n");
        }
    }
}

fn put_tag(page: &mut Page, i: u32, t: Tag)
    ensures { AddsWithin page.old (operand_text i (Operand.Waits t)) 23 page.new }
{
    page.put(b"r");
    page.put_decimal(u64::from(i));
    page.put(b" t");
    page.put_decimal(u64::from(t.0));
    page.put(b"\n");
}

fn put_register(page: &mut Page, i: u32, o: Operand)
    ensures { AddsWithin page.old (operand_text i o) 23 page.new }
{
    match o {
        Operand::Known(v) => put_value(page, b"r", i, v),
        Operand::Waits(t) => put_tag(page, i, t),
    }
}

pub fn put_registers(page: &mut Page, rs: [Register; REGISTERS])
    ensures { AddsWithin page.old (numbered register_text 0 rs) 736 page.new }
{
    for (i, r) in rs.iter().enumerate() {
        put_register(page, i as u32, r.holds);
    }
}
