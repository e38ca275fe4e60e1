use crate::answers::{Answered, Expected};
use crate::opening::{ProblemCall, opening_of};
use crate::reply::Said;
use crate::script::{Called, Line, Script};
use accounting::{Room, Verdict, account};
use calls::{Call, Reply};
use checking::CheckFault;
use lines::Lines;
use listing::PAGE_SIZE;
use numbers::read_decimal;
use planes::Plane;
use problem::{Problem, read_problem};
use search::Answer;
use std::alloc::{AllocError, Global};
use std::str;
use texts::write_pattern;

// No go that is made here takes so many steps.
const STEPS: u32 = 1_000_000;

// The calls of a script; none where they are not all made of one search.
fn calls_of<'a>(
    heap: Global,
    script: &'a Script<'_>,
    lines: Lines<'_>,
) -> Result<Option<Vec<ProblemCall<'a>>>, AllocError> {
    let mut calls = Vec::new(heap);
    let mut called = Called::Opened;
    for line in lines {
        match (script.line(heap, line), called) {
            (Line::Names(search), _) => called = search,
            (_, Called::Blank) => return Ok(None),
            (Line::Asks(call), Called::Opened) => {
                calls.push(call)?;
            }
            (Line::Other, Called::Opened) => {}
        }
    }
    Ok(Some(calls))
}

// Whether a script gets the answers that are expected, its calls made all at once.
pub fn script_accounted(
    heap: Global,
    script: &[u8],
    expected: &[u8],
) -> anyhow::Result<Option<bool>> {
    let Some(script) = Script::read(script) else {
        return Ok(Some(false));
    };
    let mut page = script.page(heap)?;
    let Some(lines) = script.calls() else {
        return Ok(Some(false));
    };
    let Some(calls) = calls_of(heap, &script, lines)? else {
        return Ok(None);
    };
    let opening = opening_of(heap, &script.problem);
    let room = Room::new(heap, calls.len(), 0)?;
    let report = account(room, opening, calls.as_slice(), page.as_mut_slice(), &[])?;
    if !Said::of(report.opened)?.is_granted() {
        return Ok(Some(false));
    }
    let mut answers = report.answers.as_slice().iter();
    let mut expected = Expected::new(heap, expected);
    let agree = expected.agree(&script, lines, |_, _| answers.next().copied())?;
    Ok(Some(agree && expected.show(page.as_slice())?))
}

// The texts that a problem prints, and how many it says they are; none where it is refused.
fn printed_in(printed: &str) -> Option<(&str, u64)> {
    let (texts, finds) = printed.split_once("found ")?;
    Some((texts, read_decimal(finds.trim_end().as_bytes())?))
}

// A text of a problem's rule that is wider than the box of any problem here.
fn too_wide(heap: Global, problem: &Problem) -> Result<String, AllocError> {
    let rule = problem.rule.text();
    format!(in heap; "x = 32, y = 1, rule = {}\n!\n", rule.as_str())
}

// Two goes more than there are finds, and then the tally. The last of the texts is no find's.
fn calls_for(heap: Global, texts: &[&[u8]]) -> Result<Vec<ProblemCall<'static>>, AllocError> {
    let mut calls = Vec::new(heap);
    for _ in texts {
        calls.push(Call::Go(STEPS))?;
    }
    calls.push(Call::Go(STEPS))?;
    calls.push(Call::Tally)?;
    Ok(calls)
}

// Whether every find was told, from then on the search was done, and the tally is theirs.
fn search_agrees(answers: &[Answered], finds: u64) -> bool {
    let [told @ .., first, again, tally] = answers else {
        return false;
    };
    let found = |answer: &Answered| matches!(answer, Ok(Reply::Went(Answer::Found(_))));
    let done = |answer: &Answered| matches!(answer, Ok(Reply::Went(Answer::Done(_))));
    told.len() as u64 == finds
        && told.iter().all(found)
        && done(first)
        && done(again)
        && *tally == Ok(Reply::Counted(finds))
}

// Whether a text was accepted, and what was accepted is a pattern of the whole box that is written so.
fn accepts(problem: &Problem, verdict: &Verdict, text: &[u8]) -> bool {
    let Ok(pattern) = verdict else {
        return false;
    };
    let frame = problem.space.frame();
    let places = u64::from(frame.width()) * u64::from(frame.height());
    let mut page = [0u8; PAGE_SIZE];
    let end = write_pattern(&mut page, 0, &frame, &problem.rule, pattern.as_slice());
    pattern.len() as u64 == places && end.is_ok_and(|end| page.get(..end) == Some(text))
}

// Whether every find's text was accepted, and the text after them is too wide.
fn checker_agrees(problem: &Problem, verdicts: &[Verdict], texts: &[&[u8]], finds: u64) -> bool {
    let [accepted @ .., Err(CheckFault::Size)] = verdicts else {
        return false;
    };
    accepted.len() as u64 == finds
        && accepted
            .iter()
            .zip(texts)
            .all(|(verdict, text)| accepts(problem, verdict, text))
}

// Whether the account of a problem tells as many finds as are expected, and accepts the text of each.
pub fn problem_accounted(
    heap: Global,
    problem: &[u8],
    expected: &[u8],
) -> anyhow::Result<Option<bool>> {
    let Ok(expected) = str::from_utf8(expected) else {
        return Ok(Some(false));
    };
    let Some((printed, finds)) = printed_in(expected) else {
        return Ok(None);
    };
    let Ok(problem) = read_problem(problem) else {
        return Ok(Some(false));
    };
    let other = too_wide(heap, &problem)?;
    let mut texts: Vec<&[u8]> = printed
        .split_inclusive("!\n")
        .map(|text| text.as_bytes())
        .collect(heap)?;
    texts.push(other.as_bytes())?;
    let calls = calls_for(heap, texts.as_slice())?;
    let room = Room::new(heap, calls.len(), texts.len())?;
    let report = account(
        room,
        opening_of(heap, &problem),
        calls.as_slice(),
        &mut [],
        texts.as_slice(),
    )?;
    Ok(Some(
        report.opened == Ok(Reply::Opened)
            && search_agrees(report.answers.as_slice(), finds)
            && checker_agrees(
                &problem,
                report.verdicts.as_slice(),
                texts.as_slice(),
                finds,
            ),
    ))
}
