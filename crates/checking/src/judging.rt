ghost use Rattle.checking.specs.Checked.{Refuses, checked, kept, ruled, sized};
ghost use Rattle.checking.specs.Verdicts.{VerdictOn, shown as answered};
ghost use Rattle.patterns.specs.Told.{shown};
ghost use Rattle.rolls.specs.Rolls.{surface};
ghost use Rattle.std.specs.Prelude.{◌≡◌, MatchResult, Ok};

use crate::fault::{CheckFault, RuleAt};
use frames::Frame;
use keeping::{broken_instance, broken_tie, worked_out};
use patterns::{Pattern, laid};
use planes::{Plane, Space};
use rules::Rule;
use std::alloc::Global;

// A search is opened over so many rows of ties at most, and a check asks no more.
const MOST_ROWS: u32 = 8;

// Whether a pattern names a rule, and this one; B3/S23 where it names none.
fn names(pattern: &Pattern<'_>, rule: &Rule) -> Result<(), CheckFault>
    ensures { result ≡ ruled rule.now (shown pattern.now) }
{
    let named = match Rule::parse(pattern.rule.unwrap_or(b"B3/S23")) {
        Ok(named) => named,
        Err(cause) => {
            return Err(CheckFault::Rule(RuleAt {
                line: pattern.line,
                column: pattern.column,
                cause,
            }));
        }
    };
    if named != *rule {
        return Err(CheckFault::OtherRule);
    }
    Ok(())
}

// Whether a pattern has no more columns and rows than a box.
fn fits(pattern: &Pattern<'_>, frame: &Frame) -> Result<(), CheckFault>
    ensures { result ≡ sized frame.now (shown pattern.now) }
{
    if frame.width() < pattern.width || frame.height() < pattern.height {
        return Err(CheckFault::Size);
    }
    Ok(())
}

// A first generation, where all instances and ties hold in what is worked out of it. Memory may be wanting for
// the generations that follow.
fn kept<S: Space>(
    heap: Global,
    space: &S,
    rule: &Rule,
    first: Vec<bool>,
) -> Result<Vec<bool>, CheckFault>
    ensures { let want = kept (surface (S.Plane.means space.now) (S.Space.count space.now) (S.Space.tied space.now)) rule.now first.items in MatchResult result (λ v. want ≡ Ok v.items) (Refuses want) }
{
    let cells = worked_out(heap, space, rule, first.as_slice())?;
    if let Some(at) = broken_instance(space, rule, cells.as_slice()) {
        return Err(CheckFault::Instance(at));
    }
    if let Some(at) = broken_tie(space, cells.as_slice()) {
        return Err(CheckFault::Tie(at));
    }
    Ok(first)
}

/// Lays the pattern of a text with its corner at (0, 0) of generation 0, the rest of it off, works out the
/// generations that follow in the box, and answers generation 0 as it was laid where all instances
/// and ties hold. The refusals, in sequence: 11 for a space of over 8 rows of ties, 18 to 22 for a text that is at
/// fault, 5 and 6 for a rule that is none, 23 for another rule, 24 for a pattern that is larger than the box; only
/// then is memory taken, and it may be wanting; 25 and 26 for the first instance or tie that does not hold.
pub fn check<S: Space>(
    heap: Global,
    space: &S,
    rule: &Rule,
    text: &[u8],
) -> Result<Vec<bool>, CheckFault>
    ensures value { let want = checked (surface (S.Plane.means space.now) (S.Space.count space.now) (S.Space.tied space.now)) rule.now text.now in MatchResult result (λ v. want ≡ Ok v.items) (Refuses want) }
    ensures verdict { VerdictOn (surface (S.Plane.means space.now) (S.Space.count space.now) (S.Space.tied space.now)) rule.now text.now (answered result) }
{
    if space.rows() > MOST_ROWS {
        return Err(CheckFault::Rows);
    }
    let pattern = Pattern::read(text)?;
    names(&pattern, rule)?;
    let frame = space.frame();
    fits(&pattern, &frame)?;
    let runs = pattern.runs(heap)?;
    let first = laid(heap, &frame, runs.as_slice())?;
    kept(heap, space, rule, first)
}
