// The drain over the working table: the oldest template first, until no rule but issue is allowed.
ghost use Rattle.std.specs.Prelude.{◌≡◌, ◌<◌, suc, drop, get_or, length};
ghost use Rattle.cells.specs.Cells.{cells};
ghost use Rattle.templates.specs.Machine.{nothing};
ghost use Rattle.rules.specs.Drain.{drain, due, due_jump};
ghost use Rattle.renaming.specs.Working.{Inside, DrainsTo};

use crate::working::Working;
use rules::Rule;
use templates::{Operand, ROOM};
use value::Value;

// Four rules for each template are enough.
const MOST_RULES: usize = 4 * ROOM;

fn due_jump(a: Operand) -> Rule
    ensures { result ≡ due_jump a }
{
    match a {
        Operand::Known(Value::Word(w)) if w != 0 => Rule::NoJump,
        _ => Rule::Jump,
    }
}

impl Working {
    // The one rule that can be the lowest allowed at a template, so that no other is tried.
    fn due(&self, p: usize) -> Rule
        requires { p < length self.now.held }
        ensures { result ≡ due self.now.registers (drop (suc p) self.now.held) (get_or self.now.held p nothing).work }
    {
        match rows::kind(&self.templates, p) {
            rows::VALUE => {
                if rows::held_behind(&self.templates, self.count, p) {
                    return Rule::Forward;
                }
                if rows::held_by_register(&self.registers, rows::tag(&self.templates, p)) {
                    return Rule::Commit;
                }
                Rule::Retire
            }
            rows::OP => Rule::Operate,
            rows::JZ => due_jump(rows::first(&self.templates, p)),
            rows::LOAD => Rule::Load,
            _ => Rule::Store,
        }
    }

    // How many rules were applied. Each search starts at the oldest, so a turn may go back: no range counts it.
    pub(crate) fn drain(&mut self, memory: &mut [u8]) -> usize
        requires { Inside self.old }
        ensures { DrainsTo (drain self.old (cells memory.old)) memory.old result self.new memory.new }
    {
        let mut rules: usize = 0;
        let mut p: usize = 0;
        while rules < MOST_RULES {
            if p >= self.count {
                return rules;
            }
            match self.apply(self.due(p), p, memory) {
                Ok(()) => {
                    rules += 1;
                    p = 0;
                }
                Err(_) => p += 1,
            }
        }
        rules
    }
}
