ghost use Rattle.pages.specs.Pages.{Written};
ghost use Rattle.std.specs.Fmt.{signed_decimal};
ghost use Rattle.std.specs.Prelude.{◌≡◌, ◌++◌, codes, decimal};
ghost use Rattle.verdicts.specs.declared.verdict.Verdict.TheVariants.{Refused};
ghost use Rattle.verdicts.specs.Verdicts.{place_text, verdict_line, words};

use crate::verdict::{Place, Refusal, Verdict};
use arrayvec::ArrayString;
use itoa::Buffer;
use keeping::InstanceAt;
use pages::{PageFault, put};

// The numbers of a place, each after a blank: room for three.
type Numbers = ArrayString<36>;

/// A verdict as it is printed after the name of its file: room for the words, a number and a place.
pub type Words = ArrayString<64>;

// Two numbers, each after a blank.
fn pair(first: u32, second: u32) -> Numbers
    ensures { result.bytes ≡ codes " " ++ decimal first ++ codes " " ++ decimal second }
{
    let mut numbers = Numbers::new();
    numbers.push_str(" ");
    numbers.push_str(Buffer::new().format(first));
    numbers.push_str(" ");
    numbers.push_str(Buffer::new().format(second));
    numbers
}

// The generation, the row and the column of an instance, each after a blank.
fn triple(at: InstanceAt) -> Numbers
    ensures { result.bytes ≡ codes " " ++ decimal at.t ++ codes " " ++ signed_decimal at.y ++ codes " " ++ signed_decimal at.x }
{
    let mut numbers = Numbers::new();
    numbers.push_str(" ");
    numbers.push_str(Buffer::new().format(at.t));
    numbers.push_str(" ");
    numbers.push_str(Buffer::new().format(at.y));
    numbers.push_str(" ");
    numbers.push_str(Buffer::new().format(at.x));
    numbers
}

// The numbers of a place.
fn numbers_of(place: Place) -> Numbers
    ensures { result.bytes ≡ place_text place }
{
    match place {
        Place::Whole => Numbers::new(),
        Place::Text { line, column } => pair(line, column),
        Place::Instance(at) => triple(at),
        Place::Tie(at) => pair(at.row, at.cell),
    }
}

// The colon, the refusal and the newline.
fn refused(refusal: Refusal) -> Words
    ensures { result.bytes ≡ words (Refused refusal) }
{
    let mut words = Words::new();
    words.push_str(": refused ");
    words.push_str(Buffer::new().format(refusal.number));
    words.push_str(numbers_of(refusal.place).as_str());
    words.push_str("\n");
    words
}

/// The colon, the verdict and the newline, as they follow the name of a file.
pub fn words_of(verdict: Verdict) -> Words
    ensures { result.bytes ≡ words verdict }
{
    match verdict {
        Verdict::Accepted => {
            let mut words = Words::new();
            words.push_str(": accepted\n");
            words
        }
        Verdict::Refused(refusal) => refused(refusal),
    }
}

// Writes the line of a verdict on a file into the page from `at` on, and answers the place after it. Where
// it does not fit, the page is as it was.
pub fn write_verdict(
    page: &mut [u8],
    at: usize,
    file: &[u8],
    verdict: Verdict,
) -> Result<usize, PageFault>
    ensures { Written page.old at (verdict_line file.now verdict) page.new result }
{
    let words = words_of(verdict);
    let words = words.as_str().as_bytes();
    if at > page.len() || page.len() - at < file.len() + words.len() {
        return Err(PageFault::Short);
    }
    let after_file = put(page, at, file);
    Ok(put(page, after_file, words))
}
