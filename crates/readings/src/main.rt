// Reads and checks the RLE texts whose verdicts are known, and says where the answers differ; and that answers
// which are wrong on purpose are told apart.
#![tactic(auto)]

mod checks;
mod expected;
mod reading;
mod tally;

use checks::Case;
use expected::{Expected, expected_of};
use reading::agrees;
use std::fs;
use tally::{Tally, tally_of};

// Whether the answers of a list are right, or wrong on purpose.
#[derive(Clone, Copy, PartialEq, Eq)]
enum Answers {
    Right,
    Wrong,
}

impl Answers {
    // Says of a case that it is not as it should be.
    fn tell(self, rt: &HostRuntime, what: &str, name: &str, agrees: bool) -> anyhow::Result<()> {
        match (self, agrees) {
            (Answers::Right, false) => println!(rt; "{what} {name} differs")?,
            (Answers::Wrong, true) => println!(rt; "{what} {name} agrees, and is wrong")?,
            _ => {}
        }
        Ok(())
    }
}

// Reads the texts of a list, and compares so far as the reader decides it.
fn read_texts(rt: &HostRuntime, list: &str, answers: Answers) -> anyhow::Result<Tally> {
    let heap = rt.alloc();
    tally_of(rt, list, |line| -> anyhow::Result<bool> {
        let Expected { name, verdict } = expected_of(line);
        let text = fs::read(rt, format!(in heap; "texts/{name}")?.as_str())?;
        let agrees = agrees(text.as_slice(), verdict);
        answers.tell(rt, "text", name, agrees)?;
        Ok(agrees)
    })
}

// Checks the texts of a list, and compares the lines that tell their verdicts.
fn check_texts(
    rt: &HostRuntime,
    list: &str,
    folder: &str,
    answers: Answers,
) -> anyhow::Result<Tally> {
    let heap = rt.alloc();
    tally_of(rt, list, |line| -> anyhow::Result<bool> {
        let case = Case::of(heap, line)?;
        let name = case.name;
        let text = fs::read(rt, format!(in heap; "{folder}/{name}")?.as_str())?;
        let agrees = case.agrees(heap, text.as_slice());
        answers.tell(rt, "verdict of", name, agrees)?;
        Ok(agrees)
    })
}

// Of how many the answers agree.
fn compare(rt: &HostRuntime) -> anyhow::Result<()> {
    // `places.list` has what only the reader tells: where a rule that is not named would start
    for list in ["verdicts.list", "places.list"] {
        let tally = read_texts(rt, list, Answers::Right)?;
        println!(rt; "readings of {list}: {tally}")?;
    }
    for (list, folder) in [("verdicts.list", "texts"), ("patterns.list", "patterns")] {
        let tally = check_texts(rt, list, folder, Answers::Right)?;
        println!(rt; "verdicts of {folder}: {tally}")?;
    }
    Ok(())
}

// How many wrong answers are told apart.
fn tell_apart(rt: &HostRuntime) -> anyhow::Result<()> {
    let Tally { agree, differ } = read_texts(rt, "wrong-readings.list", Answers::Wrong)?;
    println!(rt; "wrong readings: {differ} told apart, {agree} not")?;
    for (list, folder) in [
        ("wrong-verdicts.list", "texts"),
        ("wrong-patterns.list", "patterns"),
    ] {
        let Tally { agree, differ } = check_texts(rt, list, folder, Answers::Wrong)?;
        println!(rt; "wrong verdicts of {folder}: {differ} told apart, {agree} not")?;
    }
    Ok(())
}

fn main(rt: HostRuntime) -> anyhow::Result<()> {
    compare(&rt)?;
    tell_apart(&rt)
}
