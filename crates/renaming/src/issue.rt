// Issue: the instruction at the counter becomes the last template.
ghost use Rattle.std.specs.Prelude.{◌≡◌, ◌<◌};
ghost use Rattle.records.specs.Scan.{accepted};
ghost use Rattle.isa.specs.Program.{scan_of};
ghost use Rattle.isa.specs.Program.{program as instructions};
ghost use Rattle.templates.specs.Templates.{contents};
ghost use Rattle.rows.specs.Shown.{held_of, regs_of, Table, File};
ghost use Rattle.rules.specs.Rules.{is_fresh, tag_suits, work_of, counter_after, issue_at, issue};
ghost use Rattle.renaming.specs.Working.{Renames, DoesAlone};

use crate::working::Working;
use isa::{Instr, InstrAddr, Reg, Tag};
use records::Refusal;
use templates::{Counter, LAST_TAG, Operand, ROOM, Template, Work};
use value::Value;

fn contents(rf: &[u64], r: Reg) -> Operand
    ensures { result ≡ contents (regs_of rf.now) r }
{
    rows::contents(rf, r.0 as usize)
}

fn counter_after(ia: InstrAddr, i: Instr) -> Counter
    requires { ia.0 < 1024 }
    ensures { result ≡ counter_after ia i }
{
    let next = InstrAddr(ia.0 + 1);
    match i {
        Instr::Jz(_, _) => Counter::Stall,
        _ => Counter::At(next),
    }
}

// A tag is unused when no template produces it; that no register holds it says nothing.
fn is_fresh(ts: &[[u64; 3]], n: usize, t: Tag) -> bool
    requires { Table n ts.now }
    ensures { result ≡ is_fresh t (held_of n ts.now) }
{
    (0 < t.0) & ((t.0 <= LAST_TAG) & !rows::produced(ts, n, t))
}

fn tag_suits(fresh: bool, t: Tag, i: Instr) -> bool
    ensures { result ≡ tag_suits fresh t i }
{
    match i {
        Instr::Jz(_, _) | Instr::Store(_, _) => t.0 == 0,
        Instr::Loadc(_, _) | Instr::Loadpc(_) | Instr::Op(_, _, _, _) | Instr::Load(_, _) => fresh,
    }
}

// The new template's work: the operands' present contents.
fn work_for(rf: &[u64], ia: InstrAddr, t: Tag, i: Instr) -> Work
    ensures { result ≡ work_of (regs_of rf.now) ia t i }
{
    match i {
        Instr::Loadc(_, k) => Work::Done(t, Value::Word(k)),
        Instr::Loadpc(_) => Work::Done(t, Value::Word(ia.0)),
        Instr::Op(_, n, r1, r2) => Work::Op(t, n, contents(rf, r1), contents(rf, r2)),
        Instr::Jz(r1, r2) => Work::Jz(contents(rf, r1), contents(rf, r2)),
        Instr::Load(_, r1) => Work::Load(t, contents(rf, r1)),
        Instr::Store(r1, r2) => Work::Store(contents(rf, r1), contents(rf, r2)),
    }
}

// The destination holds the tag.
fn rename(rf: &mut [u64], t: Tag, i: Instr)
    requires { File rf.old }
    ensures { Renames t i rf.old rf.new }
{
    match i {
        Instr::Loadc(r, _) => rows::hold(rf, r, Operand::Waits(t)),
        Instr::Loadpc(r) => rows::hold(rf, r, Operand::Waits(t)),
        Instr::Op(r, _, _, _) => rows::hold(rf, r, Operand::Waits(t)),
        Instr::Jz(_, _) => {}
        Instr::Load(r, _) => rows::hold(rf, r, Operand::Waits(t)),
        Instr::Store(_, _) => {}
    }
}

impl Working {
    // Operands are copied before the destination is renamed.
    fn issue_at(&mut self, t: Tag, ia: InstrAddr, i: Instr) -> Result<(), Refusal>
        requires { ia.0 < 1024 }
        ensures { DoesAlone (λ σ m. issue_at t σ m ia i) self.old result self.new }
    {
        if self.count >= ROOM {
            return Err(Refusal::Full);
        }
        if !tag_suits(is_fresh(&self.templates, self.count, t), t, i) {
            return Err(Refusal::BadTag);
        }
        let work = work_for(&self.registers, ia, t, i);
        rows::put(
            &mut self.templates,
            self.count,
            Template { address: ia, work },
        );
        rename(&mut self.registers, t, i);
        self.counter = counter_after(ia, i);
        self.count += 1;
        Ok(())
    }

    pub(crate) fn issue(&mut self, program: &[u8], t: Tag) -> Result<(), Refusal>
        requires { scan_of program.now ≡ accepted }
        ensures { DoesAlone (issue (instructions program.now) t) self.old result self.new }
    {
        let Counter::At(ia) = self.counter else {
            return Err(Refusal::Stalled);
        };
        let i = isa::decode(program, ia)?;
        self.issue_at(t, ia, i)
    }
}
