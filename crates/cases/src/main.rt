// Runs the problems and scripts of calls whose answers are known, and says where ours differ.
#![tactic(auto)]

mod accounts;
mod answers;
mod known;
mod one_by_one;
mod opening;
mod page;
mod reply;
mod script;
mod tally;

use accounts::{problem_accounted, script_accounted};
use known::Known;
use one_by_one::script_agrees;
use page::{page_agrees, refusal_agrees};
use std::alloc::Global;

const PROBLEMS: Known<'static> = Known {
    folder: "problems",
    asks: "problem",
    answers: "out",
};

const SCRIPTS: Known<'static> = Known {
    folder: "calls",
    asks: "calls",
    answers: "answers",
};

// inputs of any length, and a page that is long
const INPUTS: Known<'static> = Known {
    folder: "inputs",
    asks: "input",
    answers: "out",
};

const WRONG_PAGES: Known<'static> = Known {
    folder: "wrong-pages",
    asks: "problem",
    answers: "out",
};

const WRONG_FINDS: Known<'static> = Known {
    folder: "wrong-finds",
    asks: "problem",
    answers: "out",
};

const WRONG_SCRIPTS: Known<'static> = Known {
    folder: "wrong-calls",
    asks: "calls",
    answers: "answers",
};

// What the lister prints.
fn page_tried(heap: Global, asked: &[u8], expected: &[u8]) -> anyhow::Result<Option<bool>> {
    Ok(Some(page_agrees(heap, asked, expected)))
}

// What the checker prints of its problem.
fn refusal_tried(heap: Global, asked: &[u8], expected: &[u8]) -> anyhow::Result<Option<bool>> {
    Ok(Some(refusal_agrees(heap, asked, expected)))
}

// What calls are answered, made one after another.
fn script_tried(heap: Global, asked: &[u8], expected: &[u8]) -> anyhow::Result<Option<bool>> {
    Ok(Some(script_agrees(heap, asked, expected)?))
}

fn compare(rt: &HostRuntime) -> anyhow::Result<()> {
    PROBLEMS.compare(rt, "problems", page_tried)?;
    SCRIPTS.compare(rt, "scripts of calls", script_tried)?;
    PROBLEMS.compare(rt, "accounts of problems", problem_accounted)?;
    SCRIPTS.compare(rt, "accounts of scripts", script_accounted)?;
    INPUTS.compare(rt, "inputs", page_tried)?;
    PROBLEMS.compare(rt, "problems of the checker", refusal_tried)?;
    INPUTS.compare(rt, "inputs of the checker", refusal_tried)
}

// The same over answers that are wrong on purpose.
fn tell_apart(rt: &HostRuntime) -> anyhow::Result<()> {
    WRONG_PAGES.tell_apart(rt, "wrong pages", page_tried)?;
    WRONG_SCRIPTS.tell_apart(rt, "wrong answers of scripts", script_tried)?;
    WRONG_FINDS.tell_apart(rt, "wrong accounts of problems", problem_accounted)?;
    WRONG_SCRIPTS.tell_apart(rt, "wrong accounts of scripts", script_accounted)
}

fn main(rt: HostRuntime) -> anyhow::Result<()> {
    compare(&rt)?;
    tell_apart(&rt)
}
