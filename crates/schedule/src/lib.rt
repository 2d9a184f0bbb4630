// A schedule record, read.
#![tactic(auto)]

ghost use Rattle.std.specs.Prelude.{◌≡◌};
ghost use Rattle.rules.specs.Schedule.{applying, issuing, command_of};

use isa::Tag;
use rules::{Command, Rule};

fn applying(rule: Rule, place: u8, tag: u8) -> Command
    ensures { result ≡ applying rule place tag }
{
    if tag == 0 {
        Command::Apply(rule, place as usize)
    } else {
        Command::Malformed
    }
}

fn issuing(place: u8, tag: u8) -> Command
    ensures { result ≡ issuing place tag }
{
    if place == 0 {
        Command::Issue(Tag(tag))
    } else {
        Command::Malformed
    }
}

// The command that a record's four bytes are.
#[tactic(auto, unfolding(rules::specs::Schedule::command_of))]
pub fn read(rule: u8, place: u8, tag: u8, zero: u8) -> Command
    ensures { result ≡ command_of rule place tag zero }
{
    if zero != 0 {
        return Command::Malformed;
    }
    match rule {
        1 => issuing(place, tag),
        2 => applying(Rule::Operate, place, tag),
        3 => applying(Rule::Forward, place, tag),
        4 => applying(Rule::Commit, place, tag),
        5 => applying(Rule::Retire, place, tag),
        6 => applying(Rule::Load, place, tag),
        7 => applying(Rule::Store, place, tag),
        8 => applying(Rule::Jump, place, tag),
        9 => applying(Rule::NoJump, place, tag),
        _ => Command::Malformed,
    }
}
