// Soundness of a state, decided on the working table.
#![tactic(auto)]

ghost use Rattle.std.specs.Prelude.{◌≡◌, ◌≤◌, true, length, drop};
ghost use Rattle.templates.specs.Templates.{any_reg};
ghost use Rattle.templates.specs.Machine.{last_tag, room};
ghost use Rattle.templates.specs.Layout.{itb};
ghost use Rattle.rows.specs.Shown.{held_of, regs_of};
ghost use Rattle.sound.specs.Sound.{also, after, is_new, is_ready, work_ok, template_ok, is_alone, registers_ok, is_jz, counter_ok, is_sound};
ghost use Rattle.sound.specs.Search.{told, Checks, first_jz, sound_on};

use isa::{LAST_OPERATION, Tag};
use templates::{Counter, LAST_TAG, Operand, ROOM, State, TAGS, Template, Work};

// ---- the tags that have a producer

// A test at the place of each tag.
#[derive(Clone, Copy)]
struct Made([bool; TAGS]);

impl Made {
    fn has(self, t: Tag) -> bool
        ensures { result ≡ told self t }
    {
        self.0.get(t.0 as usize).copied().unwrap_or(false)
    }

    fn with(self, t: Tag) -> Made
        requires { t.0 ≤ last_tag }
        ensures { told result ≡ also t (told self) }
    {
        let mut out = self.0;
        out[t.0 as usize] = true;
        Made(out)
    }

    fn after(self, w: Work) -> Made
        requires { work_ok (told self) w ≡ true }
        ensures { told result ≡ after w (told self) }
    {
        match w {
            Work::Done(t, _) | Work::Op(t, _, _, _) | Work::Load(t, _) => self.with(t),
            Work::Jz(_, _) | Work::Store(_, _) => self,
        }
    }
}

// ---- templates

fn is_new(made: Made, t: Tag) -> bool
    ensures { result ≡ is_new (told made) t }
{
    (0 < t.0) & ((t.0 <= LAST_TAG) & !made.has(t))
}

fn is_ready(made: Made, o: Operand) -> bool
    ensures { result ≡ is_ready (told made) o }
{
    match o {
        Operand::Known(_) => true,
        Operand::Waits(t) => made.has(t),
    }
}

fn work_ok(made: Made, w: Work) -> bool
    ensures { result ≡ work_ok (told made) w }
{
    match w {
        Work::Done(t, _) => is_new(made, t),
        Work::Op(t, o, a, b) => is_new(made, t)
            & (is_ready(made, a) & (is_ready(made, b) & (o <= LAST_OPERATION))),
        Work::Jz(a, b) => is_ready(made, a) & is_ready(made, b),
        Work::Load(t, a) => is_new(made, t) & is_ready(made, a),
        Work::Store(a, b) => is_ready(made, a) & is_ready(made, b),
    }
}

fn template_ok(made: Made, x: Template, instructions: u32) -> bool
    ensures { result ≡ template_ok instructions (told made) (itb x) }
{
    (x.address.0 < instructions) & work_ok(made, x.work)
}

// The tags that the templates produce, if they are in order.
fn templates_ok(ts: &[[u64; 3]], n: usize, instructions: u32) -> Option<Made>
    requires { n ≤ length ts.now }
    ensures { Checks instructions (held_of n ts.now) result }
{
    let mut made = Made([false; TAGS]);
    for i in 0..n {
        let x = table::template(ts, i);
        if !template_ok(made, x, instructions) {
            return None;
        }
        made = made.after(x.work);
    }
    Some(made)
}

// ---- registers

// Whether no register from a number on holds the operand's tag.
fn is_alone(rf: &[u64], from: usize, o: Operand) -> bool
    ensures { result ≡ is_alone o (drop from (regs_of rf.now)) }
{
    match o {
        Operand::Known(_) => true,
        Operand::Waits(t) => !tag_from(rf, from, t),
    }
}

fn tag_from(rf: &[u64], from: usize, t: Tag) -> bool
    ensures { result ≡ any_reg t (drop from (regs_of rf.now)) }
{
    for i in from..rf.len() {
        if templates::leaf::waits_for(rows::contents(rf, i), t) {
            return true;
        }
    }
    false
}

fn registers_ok(rf: &[u64], made: Made) -> bool
    ensures { result ≡ registers_ok (told made) (regs_of rf.now) }
{
    for i in 0..rf.len() {
        let o = rows::contents(rf, i);
        if !is_ready(made, o) {
            return false;
        }
        if !is_alone(rf, i + 1, o) {
            return false;
        }
    }
    true
}

// ---- counter

fn is_jz(w: Work) -> bool
    ensures { result ≡ is_jz w }
{
    matches!(w, Work::Jz(_, _))
}

// The place of the first Jz among the first n templates, or n.
fn first_jz(ts: &[[u64; 3]], n: usize) -> usize
    requires { n ≤ length ts.now }
    ensures { result ≡ first_jz (held_of n ts.now) }
{
    for i in 0..n {
        if is_jz(table::template(ts, i).work) {
            return i;
        }
    }
    n
}

fn counter_ok(c: Counter, ts: &[[u64; 3]], n: usize) -> bool
    requires { (n ≤ room) × (n ≤ length ts.now) }
    ensures { result ≡ counter_ok c (held_of n ts.now) }
{
    let at = first_jz(ts, n);
    match c {
        Counter::At(_) => at == n,
        Counter::Stall => at + 1 == n,
    }
}

// ---- the whole

// Whether n rows and the registers show a machine that is sound for a program of so many instructions, and the other rows are blank.
pub fn sound_on(ts: &[[u64; 3]], rf: &[u64], c: Counter, n: usize, instructions: u32) -> bool
    ensures { result ≡ sound_on instructions c n ts.now rf.now }
{
    if n > ROOM {
        return false;
    }
    if n > ts.len() {
        return false;
    }
    if rows::filled_from(ts, n) {
        return false;
    }
    let Some(made) = templates_ok(ts, n, instructions) else {
        return false;
    };
    if !registers_ok(rf, made) {
        return false;
    }
    counter_ok(c, ts, n)
}

// Whether the state is sound for a program of so many instructions.
pub fn is_sound(s: State, instructions: u32) -> bool
    ensures { result ≡ is_sound instructions s }
{
    let rf = table::numbers(s.registers);
    let ts = table::rows(&s.templates);
    sound_on(&ts, &rf, s.counter, s.count, instructions)
}
