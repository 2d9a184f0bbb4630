// What a rule other than issue answers at a place of the working table, and its refusal at a place of a state; nothing is done.
#![tactic(auto)]

ghost use Rattle.std.specs.Prelude.{◌≡◌};
ghost use Rattle.cells.specs.Cells.{cells};
ghost use Rattle.templates.specs.Layout.{mach_of};
ghost use Rattle.rules.specs.Drain.{asks, refusal_at};
ghost use Rattle.records.specs.Refusal.{verdict_of};
ghost use Rattle.judge.specs.Reading.{is_of_kind, is_first, known, conditioned, operating, loading, storing, stored_at, jumping, falling, forwarding, committing, retiring, refusal_on};

use isa::InstrAddr;
use records::Refusal;
use rules::Rule;
use templates::{Operand, State, Work};
use value::Value;

// ---- what several rules ask

fn is_of_kind(ts: &[[u64; 3]], p: usize, kind: u8) -> Result<(), Refusal>
    ensures { result ≡ is_of_kind kind p ts.now }
{
    if rows::kind(ts, p) != kind {
        return Err(Refusal::OtherKind);
    }
    Ok(())
}

// No Load and no Store is earlier.
fn is_first(ts: &[[u64; 3]], p: usize) -> Result<(), Refusal>
    ensures { result ≡ is_first p ts.now }
{
    if rows::memory_before(ts, p) {
        return Err(Refusal::EarlierMemory);
    }
    Ok(())
}

fn known(o: Operand) -> Result<Value, Refusal>
    ensures { result ≡ known o }
{
    match o {
        Operand::Known(v) => Ok(v),
        Operand::Waits(_) => Err(Refusal::NeedsTag),
    }
}

// A Jz's condition.
fn condition(ts: &[[u64; 3]], p: usize) -> Result<u32, Refusal>
    ensures { result ≡ conditioned p ts.now }
{
    is_of_kind(ts, p, rows::JZ)?;
    match known(rows::first(ts, p))? {
        Value::Undefined => Err(Refusal::IsUndefined),
        Value::Word(w) => Ok(w),
    }
}

// ---- a value template

pub fn forward(ts: &[[u64; 3]], n: usize, p: usize) -> Result<(), Refusal>
    ensures { result ≡ forwarding n p ts.now }
{
    is_of_kind(ts, p, rows::VALUE)?;
    if rows::held_behind(ts, n, p) {
        return Ok(());
    }
    Err(Refusal::NotHeld)
}

pub fn commit(ts: &[[u64; 3]], rf: &[u64], p: usize) -> Result<(), Refusal>
    ensures { result ≡ committing p ts.now rf.now }
{
    is_of_kind(ts, p, rows::VALUE)?;
    if rows::held_by_register(rf, rows::tag(ts, p)) {
        return Ok(());
    }
    Err(Refusal::NotHeld)
}

pub fn retire(ts: &[[u64; 3]], rf: &[u64], n: usize, p: usize) -> Result<(), Refusal>
    ensures { result ≡ retiring n p ts.now rf.now }
{
    is_of_kind(ts, p, rows::VALUE)?;
    if rows::held_by_register(rf, rows::tag(ts, p)) || rows::held_behind(ts, n, p) {
        return Err(Refusal::StillHeld);
    }
    Ok(())
}

// ---- one that becomes a value template: the value

pub fn operate(ts: &[[u64; 3]], p: usize) -> Result<Value, Refusal>
    ensures { result ≡ operating p ts.now }
{
    is_of_kind(ts, p, rows::OP)?;
    let u = known(rows::first(ts, p))?;
    let v = known(rows::second(ts, p))?;
    Ok(value::operate(rows::operation(ts, p), u, v))
}

pub fn load(ts: &[[u64; 3]], p: usize, memory: &[u8]) -> Result<Value, Refusal>
    ensures { result ≡ loading (cells memory.now) p ts.now }
{
    is_of_kind(ts, p, rows::LOAD)?;
    is_first(ts, p)?;
    kernel::read_at(memory, known(rows::first(ts, p))?)
}

// ---- one that is removed: what is stored where, or where the counter goes

// Address and data.
pub fn store(ts: &[[u64; 3]], p: usize) -> Result<(Value, Value), Refusal>
    ensures { result ≡ stored_at p ts.now }
{
    is_of_kind(ts, p, rows::STORE)?;
    is_first(ts, p)?;
    let address = known(rows::first(ts, p))?;
    let data = known(rows::second(ts, p))?;
    Ok((address, data))
}

pub fn jump(ts: &[[u64; 3]], p: usize) -> Result<InstrAddr, Refusal>
    ensures { result ≡ jumping p ts.now }
{
    let w = condition(ts, p)?;
    if w != 0 {
        return Err(Refusal::OtherWay);
    }
    kernel::target(known(rows::second(ts, p))?)
}

// Whether it falls through.
pub fn no_jump(ts: &[[u64; 3]], p: usize) -> Result<(), Refusal>
    ensures { result ≡ falling p ts.now }
{
    let w = condition(ts, p)?;
    if w == 0 {
        return Err(Refusal::OtherWay);
    }
    Ok(())
}

// ---- the refusals

// A store's address is refused as a load's is.
fn store_refusal(ts: &[[u64; 3]], p: usize, memory: &[u8]) -> Result<(), Refusal>
    ensures { result ≡ verdict_of (storing (cells memory.now) p ts.now) }
{
    let (address, _) = store(ts, p)?;
    kernel::read_at(memory, address).map(|_| ())
}

// Why a rule is refused at place p of n templates, if it is.
pub fn refusal_on(
    ts: &[[u64; 3]],
    rf: &[u64],
    n: usize,
    rule: Rule,
    p: usize,
    memory: &[u8],
) -> Result<(), Refusal>
    ensures { result ≡ refusal_on n p ts.now rf.now (cells memory.now) rule }
{
    if p >= n {
        return Err(Refusal::NoTemplate);
    }
    match rule {
        Rule::Operate => operate(ts, p).map(|_| ()),
        Rule::Forward => forward(ts, n, p),
        Rule::Commit => commit(ts, rf, p),
        Rule::Retire => retire(ts, rf, n, p),
        Rule::Load => load(ts, p, memory).map(|_| ()),
        Rule::Store => store_refusal(ts, p, memory),
        Rule::Jump => jump(ts, p).map(|_| ()),
        Rule::NoJump => no_jump(ts, p),
    }
}

// The same at any place of any state.
pub fn refusal_at(state: State, rule: Rule, place: usize, memory: &[u8]) -> Result<(), Refusal>
    ensures { result ≡ refusal_at rule place (mach_of state) (cells memory.now) }
{
    let rf = table::numbers(state.registers);
    let ts = table::rows(&state.templates);
    let n = rows::held(&ts, state.count);
    refusal_on(&ts, &rf, n, rule, place, memory)
}

// The rule that a template waits to do; of a Jz that of jump.
pub fn asks(w: Work) -> Rule
    ensures { result ≡ asks w }
{
    match w {
        Work::Done(_, _) => Rule::Retire,
        Work::Op(_, _, _, _) => Rule::Operate,
        Work::Jz(_, _) => Rule::Jump,
        Work::Load(_, _) => Rule::Load,
        Work::Store(_, _) => Rule::Store,
    }
}
