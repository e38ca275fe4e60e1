ghost use Rattle.pages.specs.Pages.{PlacedIfFits, Written};
ghost use Rattle.std.specs.Prelude.{decimal};

use crate::fault::PageFault;
use numbers::write_decimal;

// Writes a text into the page from a place on, and answers the place after it. Where the text does not fit,
// the page is as it was. Page and place are two parameters, here and in every call that writes: that
// is what these calls are defined over.
pub fn write_text(page: &mut [u8], at: usize, text: &[u8]) -> Result<usize, PageFault>
    ensures { Written page.old at text.now page.new result }
{
    if at > page.len() || page.len() - at < text.len() {
        return Err(PageFault::Short);
    }
    let end = at + text.len();
    page[at..end].copy_from_slice(text);
    Ok(end)
}

// The same for a caller that goes on: where the bytes do not fit, the place stays. This call and the
// next could not fail and still cannot; `write_text` stands beside them and answers a refusal.
pub fn put(page: &mut [u8], at: usize, bytes: &[u8]) -> usize
    ensures { PlacedIfFits page.old at bytes.now page.new result }
{
    write_text(page, at, bytes).unwrap_or(at)
}

// The same with a number's digits.
pub fn put_number(page: &mut [u8], at: usize, n: u64) -> usize
    ensures { PlacedIfFits page.old at (decimal n) page.new result }
{
    if at > page.len() {
        return at;
    }
    write_decimal(&mut page[at..], n).map_or(at, |len| at + len)
}
