ghost use Rattle.frames.specs.Frames.{shape_of};
ghost use Rattle.problem.specs.Faults.{at_line, OfLine, Refuses};
ghost use Rattle.problem.specs.Forms.{mirror_in, order_in};
ghost use Rattle.problem.specs.Lines.{first, lines_in, others};
ghost use Rattle.problem.specs.Reading.{fix_line, fixed_as, formed, frame_line, frame_shown, from_fixes, from_lines, head_shown, look_line, look_shown, look_of, meant, problem_in, rule_line, rule_shown, shown, space_said};
ghost use Rattle.problem.specs.declared.fault.Cause.TheVariants.{TooLong};
ghost use Rattle.std.specs.Prelude.{◌≡◌, ◌+◌, ◌<◌, ◌≤◌, length, IfErr, IfOk, OnSome, Err};
ghost use Rattle.words.specs.Words.{seen};

use crate::fault::{Cause, ProblemFault};
use crate::forms::{Fixing, Named, Size, fix_in, mirror_in, order_in, size_in, space_in};
use crate::problem::Problem;
use choices::{AnyOrder, Surface};
use frames::Frame;
use lines::{Lines, MOST_BYTES};
use planes::{Fixed, Mirror, MirrorKind};
use rules::Rule;
use words::value_of;

// What was read of a line, or the fault at that line.
fn at_line<T>(line: u32, read: Result<T, Cause>) -> Result<T, ProblemFault>
    ensures { result ≡ at_line line read }
{
    read.map_err(|cause| ProblemFault { line, cause })
}

// The next line of a text.
fn next_of<'a>(lines: &mut Lines<'a>) -> Option<&'a [u8]>
    ensures line { seen result ≡ first (lines_in lines.old.rest.now) }
    ensures left { lines_in lines.new.rest.now ≡ others (lines_in lines.old.rest.now) }
    ensures less { OnSome result (length lines.new.rest.now < length lines.old.rest.now) }
    ensures rest { length lines.new.rest.now ≤ length lines.old.rest.now }
{
    lines.next_line()
}

fn rule_of(line: Option<&[u8]>) -> Result<Rule, Cause>
    ensures value { rule_shown result ≡ rule_line (seen line.entry) }
    ensures own { IfErr result OfLine }
{
    let text = line.and_then(|line| value_of(line, b"rule"));
    Ok(Rule::parse(text.ok_or(Cause::Form)?)?)
}

// The form of the whole line comes before the limits of a frame.
fn frame_of(line: Option<&[u8]>) -> Result<Frame, Cause>
    ensures value { frame_shown result ≡ frame_line (seen line.entry) }
    ensures own { IfErr result OfLine }
{
    let size = line.and_then(size_in);
    let Size {
        width,
        height,
        period,
        dx,
        dy,
    } = size.ok_or(Cause::Form)?;
    Ok(Frame::new(width, height, period, dx, dy)?)
}

// The plane of a name over a box.
fn surface_over(frame: Frame, named: Named) -> Surface
    ensures look { look_of named (shape_of frame) ≡ (meant result).look }
    ensures frame { result.frame ≡ frame }
{
    match named {
        Named::Plain => Surface::plain(frame),
        Named::Torus => Surface::torus(frame),
        Named::Cylinder => Surface::cylinder(frame),
    }
}

fn surface_of(line: Option<&[u8]>, frame: Frame) -> Result<Surface, Cause>
    ensures value { look_shown result ≡ look_line (shape_of frame) (seen line.entry) }
    ensures frame { IfOk result (λ s. s.frame ≡ frame) }
    ensures own { IfErr result OfLine }
{
    let named = line.and_then(space_in).ok_or(Cause::Form)?;
    Ok(surface_over(frame, named))
}

fn order_of(line: Option<&[u8]>) -> Result<AnyOrder, Cause>
    ensures value { result ≡ formed order_in (seen line.entry) }
    ensures own { IfErr result OfLine }
{
    line.and_then(order_in).ok_or(Cause::Form)
}

fn mirror_of(line: Option<&[u8]>) -> Result<MirrorKind, Cause>
    ensures value { result ≡ formed mirror_in (seen line.entry) }
    ensures own { IfErr result OfLine }
{
    line.and_then(mirror_in).ok_or(Cause::Form)
}

// The five lines that every problem has.
fn read_head(lines: &mut Lines<'_>) -> Result<Problem, ProblemFault>
    ensures value { head_shown result (lines_in lines.new.rest.now) ≡ from_lines (lines_in lines.old.rest.now) }
    ensures rest { length lines.new.rest.now ≤ length lines.old.rest.now }
    ensures refuses { IfErr result (Refuses 5) }
{
    let rule = at_line(1, rule_of(next_of(lines)))?;
    let frame = at_line(2, frame_of(next_of(lines)))?;
    let below = at_line(3, surface_of(next_of(lines), frame))?;
    let order = at_line(4, order_of(next_of(lines)))?;
    let kind = at_line(5, mirror_of(next_of(lines)))?;
    let space = Fixed::new(Mirror { below, own: kind });
    Ok(Problem { rule, space, order })
}

// One further line, which fixes a cell.
fn fix_by(space: &mut Fixed<Mirror<Surface>>, line: &[u8]) -> Result<(), Cause>
    ensures value { fixed_as (space_said space.new) result ≡ fix_line (space_said space.old) line.now }
    ensures own { IfErr result OfLine }
{
    let Fixing { x, y, t, on } = fix_in(line).ok_or(Cause::Form)?;
    Ok(space.fix(x, y, t, on)?)
}

// All further lines.
fn fix_all(space: &mut Fixed<Mirror<Surface>>, mut lines: Lines<'_>) -> Result<(), ProblemFault>
    requires { length lines.rest.now ≤ 65536 }
    ensures value { fixed_as (space_said space.new) result ≡ from_fixes 6 (space_said space.old) (lines_in lines.entry.rest.now) }
    ensures refuses { IfErr result (Refuses 65541) }
{
    let mut place = 6;
    while let Some(line) = next_of(&mut lines) {
        at_line(place, fix_by(space, line))?;
        place += 1;
    }
    Ok(())
}

/// The problem of a text, or the first line at fault and why. Refused with 18 at line 1 where the text has
/// over `MOST_BYTES`; with 27 at a line of the first five that is missing, and at any that is not of its
/// form; with 5 and 6 at line 1, with 1 to 4 at line 2, and with 7 to 9 from line 6 on.
#[tactic(auto, unfolding(crate::specs::Reading::problem_in))]
pub fn read_problem(text: &[u8]) -> Result<Problem, ProblemFault>
    ensures value { shown result ≡ problem_in text.now }
    ensures too_long { 65536 < length text.now → result ≡ Err (record { line = 1; cause = TooLong }) }
    ensures refuses { length text.now ≤ 65536 → IfErr result (Refuses 65541) }
{
    if text.len() > MOST_BYTES {
        return at_line(1, Err(Cause::TooLong));
    }
    let mut lines = Lines::new(text);
    let mut problem = read_head(&mut lines)?;
    fix_all(&mut problem.space, lines)?;
    Ok(problem)
}
