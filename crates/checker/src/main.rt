// Reads a problem and RLE files, and prints for each file whether its pattern is accepted. What is read and
// printed is promised of `ask` and `judge`.
#![tactic(auto)]

use anyhow::bail;
use problem::Problem;
use running::{RunFault, ask, judge};
use std::env;
use std::fs::File;

// Prints the verdict on a file; `Read` where it cannot be read.
fn judge_file(rt: &HostRuntime, problem: &Problem, name: &str) -> Result<(), RunFault> {
    let mut input = File::open(rt, name).map_err(RunFault::Read)?;
    let Problem { rule, space, .. } = problem;
    let name = name.as_bytes();
    judge(rt.alloc(), space, rule, name, &mut input, &mut rt.stdout())
}

fn run(rt: &HostRuntime) -> anyhow::Result<()> {
    let mut words = env::args(rt)?.skip(1);
    let Some(path) = words.next() else {
        bail!("give a problem's file and the files to check: checker PROBLEM FILE...");
    };
    let mut input = File::open(rt, path.as_str())?;
    let Some(problem) = ask(rt.alloc(), &mut input, &mut rt.stdout())? else {
        return Ok(());
    };
    let mut unread = 0u32;
    for file in words {
        match judge_file(rt, &problem, file.as_str()) {
            Err(RunFault::Read(error)) => {
                eprintln!(rt; "checker: {}: {error}", file.as_str())?;
                unread = unread.saturating_add(1);
            }
            judged => judged?,
        }
    }
    if unread > 0 {
        bail!("{unread} files could not be read");
    }
    Ok(())
}

fn main(rt: HostRuntime) -> anyhow::Result<()> {
    run(&rt)
}
