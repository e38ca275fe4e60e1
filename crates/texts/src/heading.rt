ghost use Rattle.std.specs.Prelude.{◌≤◌, length};
ghost use Rattle.rules.specs.Forms.{written};
ghost use Rattle.pages.specs.Pages.{Placed};
ghost use Rattle.rle.specs.Texts.{heading_text};

use frames::Frame;
use pages::{put, put_number};
use rules::Rule;

// Writes the heading at the front of the tail, and answers its length.
pub(crate) fn write_heading(tail: &mut [u8], frame: &Frame, rule: &Rule) -> usize
    requires { length (heading_text frame.now.width frame.now.height (written rule.now.births rule.now.survivals)) ≤ length tail.old }
    ensures { Placed tail.old 0
        (heading_text frame.now.width frame.now.height (written rule.now.births rule.now.survivals))
        tail.new result }
{
    let after_x = put(tail, 0, b"x = ");
    let after_width = put_number(tail, after_x, u64::from(frame.width()));
    let after_y = put(tail, after_width, b", y = ");
    let after_height = put_number(tail, after_y, u64::from(frame.height()));
    let after_key = put(tail, after_height, b", rule = ");
    let after_rule = put(tail, after_key, rule.text().as_slice());
    put(tail, after_rule, b"\n")
}
