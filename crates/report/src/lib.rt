// What a run of a script prints.
#![tactic(auto)]

ghost use Rattle.std.specs.Prelude.{Some, IfOk, string_bytes};
ghost use Rattle.report.specs.Texts.{Prints, part_text};

use allocator::quota::Quota;
use machine::machine::Machine;
use memory::flat::Flat;
use next_fit::NextFit;
use script::fault::RunError;
use script::outcome::LineOutcome;
use script::run::run_script;
use std::alloc::{AllocError, Global};
use std::fmt;

// A machine's part of what is printed: its letter with the granules, then a line for each outcome.
#[derive(Drop)]
struct Part<'a> {
    letter: char,
    granules: usize,
    outcomes: &'a [LineOutcome],
}

impl fmt::Display for Part<'_> {
    ghost output = { λ p. Some (part_text p.letter p.granules p.outcomes.now) };

    fn fmt<W: fmt::Write>(&self, f: &mut fmt::Formatter<W>) -> fmt::Result {
        let letter = self.letter;
        let granules = self.granules;
        writeln!(f, "{letter} {granules}")?;
        for outcome in self.outcomes {
            writeln!(f, "{outcome}")?;
        }
        Ok(())
    }
}

// Runs a script on a fresh machine of 32 granules, flat memory under a quota of 24 over next fit, and gives what is printed.
pub fn run_text(heap: Global, script: &[u8]) -> Result<String, AllocError>
    ensures { IfOk result (λ text. Prints script.now (string_bytes text)) }
{
    // Kept as they are: arrays of fixed size, since the sizes are the program's, for 32 granules.
    let (mut bytes, mut tags) = ([0u8; 512], [0u8; 4]);
    let (mut used, mut firsts) = ([0u8; 4], [0u8; 4]);
    let memory = Flat::new(&mut bytes, &mut tags);
    let allocator = Quota::new(NextFit::new(&mut used, &mut firsts), 24);
    let mut machine = Machine::new(memory, allocator);
    match run_script(heap.clone()?, &mut machine, script) {
        Ok(outcomes) => {
            let part = Part {
                letter: 'B',
                granules: 32,
                outcomes: &outcomes,
            };
            format!(in heap; "{part}")
        }
        Err(RunError::Denied(fault)) => format!(in heap; "{fault}\n"),
        Err(RunError::Memory(error)) => Err(error),
    }
}

#[cfg(test)]
mod tests {
    use super::*;
    use denial::Fault;
    use machine::compartment_machine::CompartmentMachine;
    use std::test::Fail;

    // The code and the layer of a first grant over buffers of these sizes.
    // Kept as it is: 0 and `-`, which no denial has, where the grant is accepted.
    fn first_grant(tags: &mut [u8], used: &mut [u8], firsts: &mut [u8]) -> (u8, char) {
        let mut bytes = [0u8; 512];
        let mut machine = Machine::new(Flat::new(&mut bytes, tags), NextFit::new(used, firsts));
        machine
            .grant(0, 0, 1)
            .err()
            .map_or((0, '-'), |fault| (fault.code(), fault.layer().letter()))
    }

    #[test]
    fn parts_of_different_sizes_grant_nothing(rt: HostRuntime) {
        assert_eq!(rt;
            first_grant(&mut [0; 4], &mut [0; 4], &mut [0; 4]),
            (0, '-')
        );
        assert_eq!(rt;
            first_grant(&mut [0; 4], &mut [0; 2], &mut [0; 2]),
            (19, 'M')
        );
    }

    #[test]
    fn parts_of_no_granules_agree(rt: HostRuntime) {
        assert_eq!(rt;
            first_grant(&mut [0; 3], &mut [0; 3], &mut [0; 2]),
            (11, 'A')
        );
    }

    #[test]
    fn an_empty_script_prints_the_head(rt: HostRuntime) -> Result<(), Fail> {
        let text = run_text(rt.alloc(), b"")?;
        assert!(rt; text.as_str() == "B 32\n");
        Ok(())
    }

    #[test]
    fn a_script_that_is_too_long_prints_one_line(rt: HostRuntime) -> Result<(), Fail> {
        let script = vec![in rt.alloc(); 10u8; 32769]?;
        let text = run_text(rt.alloc(), &script)?;
        assert!(rt; text.as_str() == "0 18 R 0\n");
        Ok(())
    }
}
