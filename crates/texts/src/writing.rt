ghost use Rattle.std.specs.Prelude.{◌≡◌, ◌≤◌, length};
ghost use Rattle.rules.specs.Forms.{written};
ghost use Rattle.pages.specs.Pages.{Placed, Written};
ghost use Rattle.rle.specs.Back.{ReadsAs};
ghost use Rattle.rle.specs.Texts.{pattern_text};

use crate::body::write_body;
use crate::heading::write_heading;
use crate::mark::Runs;
use frames::Frame;
use pages::PageFault;
use rules::Rule;

// Room for the longest text: a heading of 45 bytes, a mark for each of 32 times 32 cells, 31 steps down to
// a next row, and the end.
const ROOM: usize = 45 + 32 * 32 + 31 + 2;

// Writes the text of a pattern into the page from a place on, and answers the place after it. The
// pattern has its cells row by row, and those beyond its end count as off. Where the text does not
// fit the page is as it was: that it fits is known before the first byte of the page is written. It reads as
// the pattern that it was written from.
#[tactic(auto, using(rle::proofs::Written::round_trip, rle::proofs::Written::text_short, crate::proofs::Puts::placed_lent))]
pub fn write_pattern(
    page: &mut [u8],
    at: usize,
    frame: &Frame,
    rule: &Rule,
    pattern: &[bool],
) -> Result<usize, PageFault>
    ensures written { Written page.old at
        (pattern_text frame.now.width frame.now.height (written rule.now.births rule.now.survivals) pattern.now)
        page.new result }
    ensures back { ReadsAs frame.now.width frame.now.height (written rule.now.births rule.now.survivals) pattern.now
        (pattern_text frame.now.width frame.now.height (written rule.now.births rule.now.survivals) pattern.now) }
{
    if at > page.len() {
        return Err(PageFault::Short);
    }
    let room = page.len() - at;
    // a page that the longest text fits into is spared the writing aside
    if room < ROOM && room < text_length(frame, rule, pattern) {
        return Err(PageFault::Short);
    }
    Ok(at + write_parts(&mut page[at..], frame, rule, pattern))
}

// How long the text is: it is written aside, by the same writers.
#[tactic(auto, using(rle::proofs::Written::text_short))]
fn text_length(frame: &Frame, rule: &Rule, pattern: &[bool]) -> usize
    ensures { result ≡ length (pattern_text frame.now.width frame.now.height (written rule.now.births rule.now.survivals) pattern.now) }
{
    write_parts(&mut [0; ROOM], frame, rule, pattern)
}

// Writes the heading and the body at the front of the tail, and answers their length.
fn write_parts(tail: &mut [u8], frame: &Frame, rule: &Rule, pattern: &[bool]) -> usize
    requires { length (pattern_text frame.now.width frame.now.height (written rule.now.births rule.now.survivals) pattern.now) ≤ length tail.old }
    ensures { Placed tail.old 0
        (pattern_text frame.now.width frame.now.height (written rule.now.births rule.now.survivals) pattern.now)
        tail.new result }
{
    let headed = write_heading(tail, frame, rule);
    headed + write_body(&mut tail[headed..], Runs::new(frame, pattern))
}
