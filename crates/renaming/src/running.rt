// The run over the working table: the records of a schedule, until the first that is refused.
ghost use Rattle.std.specs.Prelude.{◌≡◌, ◌<◌};
ghost use Rattle.records.specs.Scan.{accepted};
ghost use Rattle.isa.specs.Program.{scan_of};
ghost use Rattle.isa.specs.Program.{program as instructions};
ghost use Rattle.cells.specs.Cells.{cells};
ghost use Rattle.rules.specs.Schedule.{obey};
ghost use Rattle.rules.specs.Run.{commands, counted, run};
ghost use Rattle.renaming.specs.Working.{Within, Ready, Acts, RunsTo};

use crate::working::Working;
use records::Refusal;
use rules::Command;

// Accepted records and issues, and the refusal that ended them, if there is one.
#[derive(Clone, Copy)]
pub(crate) struct Went {
    pub accepted: usize,
    pub issued: usize,
    pub verdict: Result<(), Refusal>,
}

fn count(c: Command, issued: usize) -> usize
    requires { issued < 9223372036854775808 }
    ensures { result ≡ counted c issued }
{
    match c {
        Command::Issue(_) => issued + 1,
        _ => issued,
    }
}

impl Working {
    fn obey(&mut self, program: &[u8], memory: &mut [u8], command: Command) -> Result<(), Refusal>
        requires { Within self.old.held × (scan_of program.now ≡ accepted) }
        ensures { Acts (obey (instructions program.now) command) self.old memory.old result self.new memory.new }
    {
        match command {
            Command::Malformed => Err(Refusal::BadSchedule),
            Command::Issue(t) => self.issue(program, t),
            Command::Apply(rule, p) => self.apply(rule, p, memory),
        }
    }

    pub(crate) fn run(&mut self, program: &[u8], memory: &mut [u8], records: &[u8]) -> Went
        requires { Ready program.now self.old }
        ensures { RunsTo (run (instructions program.now) (commands records.now) self.old (cells memory.old)) memory.old result self.new memory.new }
    {
        let all = records.len() / 4;
        let mut issued: usize = 0;
        for i in 0..all {
            let j = 4 * i;
            let command = schedule::read(
                records[j],
                records[j + 1],
                records[j + 2],
                records[j + 3],
            );
            let verdict = self.obey(program, memory, command);
            if verdict.is_err() {
                return Went {
                    accepted: i,
                    issued,
                    verdict,
                };
            }
            issued = count(command, issued);
        }
        Went {
            accepted: all,
            issued,
            verdict: Ok(()),
        }
    }
}
