// The rules at a place of the working table, but issue: each is judged there, and then done.
ghost use Rattle.std.specs.Prelude.{◌≡◌, ◌<◌, length};
ghost use Rattle.cells.specs.Cells.{cells};
ghost use Rattle.rules.specs.Rules.{apply};
ghost use Rattle.renaming.specs.Working.{without, Within, Does, DoesAlone, Acts};

use crate::working::Working;
use isa::InstrAddr;
use records::Refusal;
use rules::Rule;
use templates::Counter;

impl Working {
    // The template at place p is removed.
    fn remove(&mut self, p: usize)
        requires { p < length self.old.held }
        ensures { self.new ≡ without p self.old }
    {
        table::remove(&mut self.templates, self.count, p);
        self.count -= 1;
    }

    fn operate(&mut self, p: usize) -> Result<(), Refusal>
        requires { p < length self.old.held }
        ensures { DoesAlone (apply Rule.Operate p) self.old result self.new }
    {
        let v = judge::operate(&self.templates, p)?;
        table::finish(&mut self.templates, p, v);
        Ok(())
    }

    fn forward(&mut self, p: usize) -> Result<(), Refusal>
        requires { p < length self.old.held }
        ensures { DoesAlone (apply Rule.Forward p) self.old result self.new }
    {
        judge::forward(&self.templates, self.count, p)?;
        rows::fill_behind(&mut self.templates, self.count, p);
        Ok(())
    }

    fn commit(&mut self, p: usize) -> Result<(), Refusal>
        requires { p < length self.old.held }
        ensures { DoesAlone (apply Rule.Commit p) self.old result self.new }
    {
        judge::commit(&self.templates, &self.registers, p)?;
        rows::fill_registers(
            &mut self.registers,
            rows::tag(&self.templates, p),
            rows::value(&self.templates, p),
        );
        Ok(())
    }

    fn retire(&mut self, p: usize) -> Result<(), Refusal>
        requires { p < length self.old.held }
        ensures { DoesAlone (apply Rule.Retire p) self.old result self.new }
    {
        judge::retire(&self.templates, &self.registers, self.count, p)?;
        self.remove(p);
        Ok(())
    }

    fn load(&mut self, p: usize, memory: &[u8]) -> Result<(), Refusal>
        requires { p < length self.old.held }
        ensures { Does (apply Rule.Load p) self.old (cells memory.now) result self.new (cells memory.now) }
    {
        let v = judge::load(&self.templates, p, memory)?;
        table::finish(&mut self.templates, p, v);
        Ok(())
    }

    fn store(&mut self, p: usize, memory: &mut [u8]) -> Result<(), Refusal>
        requires { p < length self.old.held }
        ensures { Acts (apply Rule.Store p) self.old memory.old result self.new memory.new }
    {
        let (address, data) = judge::store(&self.templates, p)?;
        kernel::write_at(memory, address, data)?;
        self.remove(p);
        Ok(())
    }

    fn jump(&mut self, p: usize) -> Result<(), Refusal>
        requires { p < length self.old.held }
        ensures { DoesAlone (apply Rule.Jump p) self.old result self.new }
    {
        let to = judge::jump(&self.templates, p)?;
        self.remove(p);
        self.counter = Counter::At(to);
        Ok(())
    }

    fn no_jump(&mut self, p: usize) -> Result<(), Refusal>
        requires { (p < length self.old.held) × Within self.old.held }
        ensures { DoesAlone (apply Rule.NoJump p) self.old result self.new }
    {
        judge::no_jump(&self.templates, p)?;
        let at = rows::address(&self.templates, p);
        self.remove(p);
        self.counter = Counter::At(InstrAddr(at.0 + 1));
        Ok(())
    }

    pub(crate) fn apply(&mut self, rule: Rule, p: usize, memory: &mut [u8]) -> Result<(), Refusal>
        requires { Within self.old.held }
        ensures { Acts (apply rule p) self.old memory.old result self.new memory.new }
    {
        if p >= self.count {
            return Err(Refusal::NoTemplate);
        }
        match rule {
            Rule::Operate => self.operate(p),
            Rule::Forward => self.forward(p),
            Rule::Commit => self.commit(p),
            Rule::Retire => self.retire(p),
            Rule::Load => self.load(p, &memory[..]),
            Rule::Store => self.store(p, memory),
            Rule::Jump => self.jump(p),
            Rule::NoJump => self.no_jump(p),
        }
    }
}
