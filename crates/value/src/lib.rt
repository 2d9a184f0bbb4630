// Values, and the five operations on them.
#![tactic(auto)]

ghost use Rattle.std.specs.Prelude.{◌≡◌};
ghost use Rattle.value.specs.Operation.{div, less, result_of};

// No Option: undefined is a value that registers and cells hold, and no absence of one.
#[derive(Clone, Copy, PartialEq, Eq)]
pub enum Value {
    Undefined,
    Word(u32),
}

// The undefined value: built here alone.
pub const UNDEFINED: Value = Value::Undefined;

// The two quotients that the division of signed numbers doesn't have go first.
fn quotient(a: u32, b: u32) -> Value
    ensures { result ≡ div a b }
{
    if b == 0 {
        return UNDEFINED;
    }
    if (a == 2147483648) & (b == 4294967295) {
        return Value::Word(2147483648);
    }
    Value::Word((a.cast_signed() / b.cast_signed()).cast_unsigned())
}

fn smaller(a: u32, b: u32) -> u32
    ensures { result ≡ less a b }
{
    u32::from(a.cast_signed() < b.cast_signed())
}

// The result of an operation by its number; an undefined operand gives undefined.
#[tactic(auto, unfolding(crate::specs::Operation::result_of))]
pub fn operate(operation: u8, first: Value, second: Value) -> Value
    ensures { result ≡ result_of operation first second }
{
    match (first, second) {
        (Value::Word(a), Value::Word(b)) => match operation {
            0 => Value::Word(a.wrapping_add(b)),
            1 => Value::Word(a.wrapping_sub(b)),
            2 => Value::Word(a.wrapping_mul(b)),
            3 => quotient(a, b),
            4 => Value::Word(smaller(a, b)),
            _ => UNDEFINED,
        },
        (Value::Undefined, _) | (_, Value::Undefined) => UNDEFINED,
    }
}
