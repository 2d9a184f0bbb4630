// Which of three files is refused, and why.
ghost use Rattle.std.specs.Prelude.{◌≡◌};
ghost use Rattle.records.specs.Refusal.{fault};
ghost use Rattle.records.specs.declared.Refusal.TheVariants.{BadLength};
ghost use Rattle.report.specs.Report.{is_schedule, fit, unless, judged};

use crate::Input;
use records::{Fault, Refusal};

// The most bytes of a schedule: 16,384 records.
const SCHEDULE: usize = 65536;

fn is_schedule(schedule: &[u8]) -> bool
    ensures { result ≡ is_schedule schedule.now }
{
    (schedule.len() % 4 == 0) & (schedule.len() <= SCHEDULE)
}

fn bad_length(file: u8) -> Input
    ensures { result ≡ record { file = file; fault = fault BadLength 0 } }
{
    Input {
        file,
        fault: Fault::from(Refusal::BadLength),
    }
}

// What a file's scan says, with the file's number.
fn in_file(file: u8, scanned: Result<(), Fault>) -> Result<(), Input>
    ensures { result ≡ unless file scanned fit }
{
    scanned.map_err(|fault| Input { file, fault })
}

// Lengths first, then records; the lowest file is named.
pub(crate) fn judge(program: &[u8], memory: &[u8], schedule: &[u8]) -> Result<(), Input>
    ensures { result ≡ judged program.now memory.now schedule.now }
{
    if !records::is_whole(program) {
        return Err(bad_length(1));
    }
    if !records::is_whole(memory) {
        return Err(bad_length(2));
    }
    if !is_schedule(schedule) {
        return Err(bad_length(3));
    }
    in_file(1, isa::scan(program))?;
    in_file(2, cells::scan(memory))
}
