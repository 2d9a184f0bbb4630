// The checks of every entry of the renaming machine: refusals 1 to 4.
#![tactic(auto)]

ghost use Rattle.entry.specs.Entry.{Enters};

use records::{Fault, Refusal};
use templates::State;

// In order, each with the record number of 2 and 3.
pub fn enter(state: State, program: &[u8], memory: &[u8]) -> Result<(), Fault>
    ensures { Enters program.now memory.now state result }
{
    kernel::check(program, memory)?;
    if !sound::is_sound(state, (program.len() / 8) as u32) {
        return Err(Fault::from(Refusal::Unsound));
    }
    Ok(())
}
