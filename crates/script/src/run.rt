ghost use Rattle.script.specs.Runs.{line_outcome, outcomes_of, RunsScript, reading_state, state_of};
ghost use Rattle.std.specs.Prelude.{◌≡◌, true, false, is_ok, IfOk};

use crate::fault::{LineFault, RunError, ScriptFault};
use crate::outcome::LineOutcome;
use machine::compartment_machine::CompartmentMachine;
use reader::script::{Entry, read_script};
use std::alloc::{AllocError, Global};

// Performs the call of a line, if it reads as one.
// Kept as they are, here and below: the clauses `fixed` and `denied`, since they relate the machine before to the machine
// after, and what is fixed beside the state, since a machine has both.
fn perform_line<C: CompartmentMachine>(machine: &mut C, entry: Entry) -> Result<u32, ScriptFault>
    ensures outcome { result ≡ (line_outcome (C.CompartmentMachine.fixed machine.old) (C.CompartmentMachine.state machine.old) entry).outcome }
    ensures state { C.CompartmentMachine.state machine.new ≡ reading_state (C.CompartmentMachine.fixed machine.old) (C.CompartmentMachine.state machine.old) entry.reading }
    ensures fixed { C.CompartmentMachine.fixed machine.new ≡ C.CompartmentMachine.fixed machine.old }
{
    let call = entry.reading?;
    let line = entry.line;
    let answer = machine
        .perform(call)
        .map_err(|fault| LineFault { line, fault })?;
    Ok(answer)
}

// What a line comes to on a machine.
fn run_line<C: CompartmentMachine>(machine: &mut C, entry: Entry) -> LineOutcome
    ensures outcome { result ≡ line_outcome (C.CompartmentMachine.fixed machine.old) (C.CompartmentMachine.state machine.old) entry }
    ensures state { C.CompartmentMachine.state machine.new ≡ reading_state (C.CompartmentMachine.fixed machine.old) (C.CompartmentMachine.state machine.old) entry.reading }
    ensures fixed { C.CompartmentMachine.fixed machine.new ≡ C.CompartmentMachine.fixed machine.old }
{
    LineOutcome {
        line: entry.line,
        outcome: perform_line(machine, entry),
    }
}

// Runs the lines of a script, and keeps what each comes to. Without memory for that, nothing is run.
#[tactic(auto, using(crate::proofs::Steps::state_more, crate::proofs::Steps::outcomes_more))]
pub fn run_entries<C: CompartmentMachine>(
    heap: Global,
    machine: &mut C,
    entries: &[Entry],
) -> Result<Vec<LineOutcome>, AllocError>
    ensures outcomes { IfOk result (λ v. v.items ≡ outcomes_of (C.CompartmentMachine.fixed machine.old) (C.CompartmentMachine.state machine.old) entries.now) }
    ensures state { is_ok result ≡ true → C.CompartmentMachine.state machine.new ≡ state_of (C.CompartmentMachine.fixed machine.old) (C.CompartmentMachine.state machine.old) entries.now }
    ensures fixed { C.CompartmentMachine.fixed machine.new ≡ C.CompartmentMachine.fixed machine.old }
    ensures denied { is_ok result ≡ false → machine.new ≡ machine.old }
{
    let mut outcomes = Vec::with_capacity(heap, entries.len())?;
    for entry in entries {
        outcomes.push_reserved(run_line(machine, *entry));
    }
    Ok(outcomes)
}

// Reads a script and runs it: what each line that is not empty comes to, in order.
pub fn run_script<C: CompartmentMachine>(
    heap: Global,
    machine: &mut C,
    script: &[u8],
) -> Result<Vec<LineOutcome>, RunError>
    ensures runs { RunsScript (C.CompartmentMachine.fixed machine.old) (C.CompartmentMachine.state machine.old) (C.CompartmentMachine.state machine.new) script.now result }
    ensures fixed { C.CompartmentMachine.fixed machine.new ≡ C.CompartmentMachine.fixed machine.old }
    ensures denied { is_ok result ≡ false → machine.new ≡ machine.old }
{
    let entries = read_script(heap.clone()?, script)?;
    let outcomes = run_entries(heap, machine, &entries)?;
    Ok(outcomes)
}
