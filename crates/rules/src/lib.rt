// The rules and a schedule's records, as types; what they mean is in specs/. No function.
#![tactic(auto)]

// The rules but issue.
#[derive(Clone, Copy)]
pub enum Rule {
    Operate,
    Forward,
    Commit,
    Retire,
    Load,
    Store,
    Jump,
    NoJump,
}

// A schedule record, read: malformed, an issue with a tag, or a rule at a place. No Result: a schedule may hold a malformed record, which a run obeys by a refusal.
#[derive(Clone, Copy)]
pub enum Command {
    Malformed,
    Issue(isa::Tag),
    Apply(Rule, usize),
}
