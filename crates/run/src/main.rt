// Runs the script on standard input, and prints what each line comes to.
#![tactic(auto)]

use report::run_text;
use std::io::Read;

fn main(rt: HostRuntime) -> anyhow::Result<()> {
    run(&rt)
}

fn run(rt: &HostRuntime) -> anyhow::Result<()> {
    let mut script = Vec::new(rt.alloc());
    rt.stdin().read_to_end(&mut script)?;
    let text = run_text(rt.alloc(), &script)?;
    rt.print(text.as_str())?;
    Ok(())
}
