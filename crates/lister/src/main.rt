// Reads a problem from standard input and lists its finds, or says why it is refused. What is read and
// printed is promised of `run`.
#![tactic(auto)]

use running::{AsTold, run};

fn main(rt: HostRuntime) -> anyhow::Result<()> {
    run(rt.alloc(), &AsTold, &mut rt.stdin(), &mut rt.stdout())?;
    Ok(())
}
