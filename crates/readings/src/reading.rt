use crate::expected::{Place, Refusal, Verdict};
use lines::MOST_BYTES;
use reader::{Item, Reader};

// A text has no more items than bytes, and the end.
const MOST_ITEMS: usize = MOST_BYTES + 1;

// Where the rule starts, or would start, in a text that is read to its end; none where the end does
// not come.
fn rule_place(text: &[u8]) -> Result<Option<Place>, Refusal> {
    let mut reader = Reader::open(text)?;
    let mut rule = None;
    // the reader answers its end again and again, so it is no iterator that runs out
    for _ in 0..MOST_ITEMS {
        let located = reader.next_item()?;
        match located.item {
            Item::Heading(heading) => {
                rule = Some(Place {
                    line: located.line,
                    column: heading.rule_column,
                });
            }
            Item::End => return Ok(rule),
            Item::Remark(_) | Item::Run(_) => {}
        }
    }
    Ok(None)
}

// Whether a text is read as its verdict says.
pub fn agrees(text: &[u8], verdict: Verdict) -> bool {
    match (rule_place(text), verdict) {
        (Err(refusal), Verdict::Refused(expected)) => refusal == expected,
        (Ok(Some(place)), Verdict::RuleAt(expected)) => place == expected,
        (Ok(Some(_)), Verdict::Read) => true,
        _ => false,
    }
}
