// Runs each script of the data folder, and prints how many of them print something else than they should.
#![tactic(auto)]

use report::run_text;
use std::fs;

// The scripts are 000.in, 001.in and so on; what each prints is 000.out, 001.out and so on.
const SCRIPTS: u32 = 58;

fn main(rt: HostRuntime) -> anyhow::Result<()> {
    compare_all(&rt)
}

// Whether a script prints what it should.
fn agrees(rt: &HostRuntime, number: u32) -> anyhow::Result<bool> {
    let script = fs::read(rt, format!(in rt.alloc(); "{number:03}.in")?.as_str())?;
    let expected = fs::read(rt, format!(in rt.alloc(); "{number:03}.out")?.as_str())?;
    let text = run_text(rt.alloc(), &script)?;
    Ok(text.as_bytes() == expected.as_slice())
}

fn compare_all(rt: &HostRuntime) -> anyhow::Result<()> {
    let mut differ = 0u32;
    // Kept as it is: the scripts are named by their numbers.
    for number in 0..SCRIPTS {
        if !agrees(rt, number)? {
            differ = differ.saturating_add(1);
            println!(rt; "{number:03} differs")?;
        }
    }
    println!(rt; "{SCRIPTS} scripts, {differ} differ")?;
    Ok(())
}
