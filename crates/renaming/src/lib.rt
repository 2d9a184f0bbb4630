// The renaming machine: its nine rules, step, run and drain.
#![tactic(auto)]

mod apply;
mod draining;
mod entries;
mod issue;
mod running;
mod working;

pub use crate::entries::{drain, run, step};
use isa::InstrAddr;
use records::Fault;
use templates::State;

// The state after a step, and its refusal, if there is one.
#[derive(Clone, Copy)]
pub struct Stepped {
    pub state: State,
    pub verdict: Result<(), Fault>,
}

// The state after the accepted part of a schedule, accepted records and issues, and the refusal, if there is one.
#[derive(Clone, Copy)]
pub struct Ran {
    pub state: State,
    pub accepted: usize,
    pub issued: usize,
    pub verdict: Result<(), Fault>,
}

// The state that a drain leaves, and the rules that it applied. The refusal is 1 to 4 where the checks refuse; else there is none
// if no template is left, or it is the oldest template's, whose address stands beside it.
#[derive(Clone, Copy)]
pub struct Settled {
    pub state: State,
    pub rules: usize,
    pub verdict: Result<(), Fault>,
    pub address: InstrAddr,
}
