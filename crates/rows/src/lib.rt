// The coding of the working table: a row of three numbers for each template, a number for each register, lent and changed in place.
#![tactic(auto)]

mod changes;
mod codes;
mod places;
mod searches;

pub use crate::changes::{fill_behind, fill_registers, hold, put};
pub use crate::codes::{coded, row};
pub use crate::places::{address, contents, first, held, kind, operation, second, tag, value};
pub use crate::searches::{filled_from, held_behind, held_by_register, memory_before, produced};

// A word is its own number, and this one is undefined.
pub const UNDEFINED: u64 = 4294967296;

// The row of no template.
pub const BLANK: [u64; 3] = [0, UNDEFINED, UNDEFINED];

// The kinds of templates: numbers, since a head that was made elsewhere may name another, and `kind` answers that one.
pub const VALUE: u8 = 0;

pub const OP: u8 = 1;

pub const JZ: u8 = 2;

pub const LOAD: u8 = 3;

pub const STORE: u8 = 4;
